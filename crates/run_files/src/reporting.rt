//! The report of a run, and the lines of a run that is refused.
ghost use Rattle.std.specs.Prelude.{◌≡◌, ◌++◌, string_bytes, IfOk, OnOk};
ghost use Rattle.run_files.specs.Lines.{closed_line, head_line, journal_line, plan_line};
ghost use Rattle.run_files.specs.Reports.{counts_text, feeds_text};

use crate::ScriptCounts;
use crate::faults::{push_head_fault, push_plan_fault};
use crate::lines::{push_feeds, push_scripts};
use cube_schema::{Plan, PlanFault};
use cube_view::Schema;
use feed_reader::{FeedCounts, HeadFault};
use std::alloc::{AllocError, Global};
use texts::{List, NoMemory, Text};

#[tactic(auto, unfolding(crate::specs::Lines::plan_line))]
fn plan_line(alloc: Global, fault: &PlanFault) -> Result<String, AllocError>
    ensures { IfOk result (λ text. string_bytes text ≡ plan_line fault.now) }
{
    let mut text = String::from_str(alloc, "plan: ")?;
    push_plan_fault(alloc, &mut text, fault)?;
    text.push('\n')?;
    Ok(text)
}

/// The line of a plan that is refused for this fault.
pub fn plan_refused(alloc: Global, fault: &PlanFault) -> Result<List<u8>, NoMemory>
    ensures { IfOk result (λ text. text ≡ plan_line fault.now) }
{
    let text = plan_line(alloc, fault)?;
    Ok(List::from_vec(text.into_bytes()))
}

#[tactic(auto, unfolding(crate::specs::Lines::head_line))]
fn head_line(
    alloc: Global,
    schema: &Schema,
    name: &str,
    fault: HeadFault,
) -> Result<String, AllocError>
    ensures { IfOk result (λ text. string_bytes text ≡ head_line schema.now name.now fault) }
{
    let mut text = format!(in alloc; "feed {name}: ")?;
    push_head_fault(&mut text, schema, fault)?;
    text.push('\n')?;
    Ok(text)
}

/// The line of a feed whose header is refused for this fault.
pub fn header_refused(
    alloc: Global,
    schema: &Schema,
    name: &str,
    fault: HeadFault,
) -> Result<List<u8>, NoMemory>
    ensures { IfOk result (λ text. text ≡ head_line schema.now name.now fault) }
{
    let text = head_line(alloc, schema, name, fault)?;
    Ok(List::from_vec(text.into_bytes()))
}

/// The lines of the feeds of these names, in order, as a report has them.
pub fn feeds_report(
    alloc: Global,
    schema: &Schema,
    names: &[Text],
    feeds: &[FeedCounts],
) -> Result<String, AllocError>
    ensures { IfOk result (λ text. string_bytes text ≡ feeds_text schema.now names.now feeds.now) }
{
    let mut text = String::new(alloc);
    push_feeds(&mut text, schema, names, feeds)?;
    Ok(text)
}

/// Appends the last lines of a report.
#[tactic(auto, unfolding(crate::specs::Lines::closed_line, crate::specs::Lines::journal_line))]
fn push_end(text: &mut String, closed: bool, count: u64) -> Result<(), AllocError>
    ensures { OnOk result (string_bytes text.new ≡ (string_bytes text.old ++ closed_line closed) ++ journal_line count) }
{
    if !closed {
        text.push_str("sessions: not closed\n")?;
    }
    write!(text, "journal: {count} entries\n")
}

fn report_text(
    alloc: Global,
    plan: &Plan,
    feeds: &[FeedCounts],
    asks: &[ScriptCounts],
    finals: &[ScriptCounts],
    closed: bool,
    count: u64,
) -> Result<String, AllocError>
    ensures { IfOk result (λ text. string_bytes text ≡ counts_text plan.now feeds.now asks.now finals.now closed count) }
{
    let mut text = String::new(alloc);
    push_feeds(&mut text, &plan.schema, plan.feeds.as_slice(), feeds)?;
    push_scripts(&mut text, plan.asks.as_slice(), asks)?;
    push_scripts(&mut text, plan.finals.as_slice(), finals)?;
    push_end(&mut text, closed, count)?;
    Ok(text)
}

/// The report of a run of the plan: what was counted of its feeds, its asks and its finals, in the plan's order,
/// whether the sessions were closed, and how many entries the journal has.
pub fn report(
    alloc: Global,
    plan: &Plan,
    feeds: &[FeedCounts],
    asks: &[ScriptCounts],
    finals: &[ScriptCounts],
    closed: bool,
    count: u64,
) -> Result<List<u8>, NoMemory>
    ensures { IfOk result (λ text. text ≡ counts_text plan.now feeds.now asks.now finals.now closed count) }
{
    let text = report_text(alloc, plan, feeds, asks, finals, closed, count)?;
    Ok(List::from_vec(text.into_bytes()))
}
