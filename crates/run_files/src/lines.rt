//! The lines of feeds and scripts.
ghost use Rattle.std.specs.Prelude.{◌≡◌, ◌++◌, string_bytes, OnOk};
ghost use Rattle.std.specs.List.{flat_map};
ghost use Rattle.run_files.specs.Lines.{blank_and_refused, counts_line, feed_lines, feed_stop, refusal_line, replies_line, script_lines, script_stop};
ghost use Rattle.run_files.specs.Reports.{feeds_text, scripts_text};

use crate::ScriptCounts;
use crate::faults::{cut_fault_name, push_row_fault, session_fault_name};
use cube_view::Schema;
use feed_reader::{FeedCounts, Refusal};
use outer_io::CutFault;
use session_core::SessionFault;
use std::alloc::AllocError;
use texts::Text;

/// How many refused lines of a feed are printed.
const PRINTED: usize = 5;

/// Appends the end of the line of a feed's counts.
#[tactic(auto, unfolding(crate::specs::Lines::blank_and_refused))]
fn push_blank_and_refused(text: &mut String, blank: u64, refused: u64) -> Result<(), AllocError>
    ensures { OnOk result (string_bytes text.new ≡ string_bytes text.old ++ blank_and_refused blank refused) }
{
    write!(text, "{blank} blank, {refused} refused\n")
}

/// Appends the line of a feed's counts, as a run prints it.
#[tactic(auto, unfolding(crate::specs::Lines::counts_line))]
pub fn push_counts(text: &mut String, name: &str, counts: &FeedCounts) -> Result<(), AllocError>
    ensures { OnOk result (string_bytes text.new ≡ string_bytes text.old ++ counts_line name.now counts.now) }
{
    let accepted = counts.accepted;
    write!(text, "feed {name}: {accepted} accepted, ")?;
    push_blank_and_refused(text, counts.blank, counts.refused)
}

/// Appends the line of a refused row.
#[tactic(auto, unfolding(crate::specs::Lines::refusal_line))]
fn push_refusal(
    text: &mut String,
    schema: &Schema,
    name: &str,
    refusal: Refusal,
) -> Result<(), AllocError>
    ensures { OnOk result (string_bytes text.new ≡ string_bytes text.old ++ refusal_line schema.now name.now refusal) }
{
    let line = refusal.line;
    write!(text, "feed {name} line {line}: ")?;
    push_row_fault(text, schema, refusal.fault)?;
    text.push('\n')
}

/// Appends the lines of the first refused rows.
fn push_refusals(
    text: &mut String,
    schema: &Schema,
    name: &str,
    refusals: &[Refusal],
) -> Result<(), AllocError>
    ensures { OnOk result (string_bytes text.new ≡ string_bytes text.old ++ flat_map (refusal_line schema.now name.now) refusals.now) }
{
    for refusal in refusals {
        push_refusal(text, schema, name, *refusal)?;
    }
    Ok(())
}

/// Appends the line of the fault that ended a feed, if there is one.
#[tactic(auto, unfolding(crate::specs::Lines::feed_stop))]
fn push_feed_stop(text: &mut String, name: &str, fault: Option<CutFault>) -> Result<(), AllocError>
    ensures { OnOk result (string_bytes text.new ≡ string_bytes text.old ++ feed_stop name.now fault) }
{
    match fault {
        None => Ok(()),
        Some(fault) => {
            let fault = cut_fault_name(fault);
            write!(text, "feed {name} stopped: {fault}\n")
        }
    }
}

/// Appends all lines of a feed.
#[tactic(auto, unfolding(crate::specs::Lines::feed_lines))]
fn push_feed(
    text: &mut String,
    schema: &Schema,
    name: &str,
    counts: &FeedCounts,
) -> Result<(), AllocError>
    ensures { OnOk result (string_bytes text.new ≡ string_bytes text.old ++ feed_lines schema.now name.now counts.now) }
{
    push_counts(text, name, counts)?;
    let first = counts.first.as_slice();
    push_refusals(text, schema, name, &first[..first.len().min(PRINTED)])?;
    push_feed_stop(text, name, counts.fault)
}

/// Appends the lines of the feeds of these names.
pub(crate) fn push_feeds(
    text: &mut String,
    schema: &Schema,
    names: &[Text],
    feeds: &[FeedCounts],
) -> Result<(), AllocError>
    ensures { OnOk result (string_bytes text.new ≡ string_bytes text.old ++ feeds_text schema.now names.now feeds.now) }
{
    for place in 0..names.len().min(feeds.len()) {
        push_feed(text, schema, names[place].as_str(), &feeds[place])?;
    }
    Ok(())
}

/// Appends the line of a script's replies.
#[tactic(auto, unfolding(crate::specs::Lines::replies_line))]
fn push_replies(text: &mut String, name: &str, counts: &ScriptCounts) -> Result<(), AllocError>
    ensures { OnOk result (string_bytes text.new ≡ string_bytes text.old ++ replies_line name.now counts.now) }
{
    let (replies, seen) = (counts.replies, counts.seen);
    write!(text, "script {name}: {replies} replies, seen {seen}\n")
}

/// Appends the line of the fault that ended a script, if there is one.
#[tactic(auto, unfolding(crate::specs::Lines::script_stop))]
fn push_script_stop(
    text: &mut String,
    name: &str,
    fault: Option<SessionFault>,
) -> Result<(), AllocError>
    ensures { OnOk result (string_bytes text.new ≡ string_bytes text.old ++ script_stop name.now fault) }
{
    match fault {
        None => Ok(()),
        Some(fault) => {
            let fault = session_fault_name(fault);
            write!(text, "script {name} stopped: {fault}\n")
        }
    }
}

/// Appends all lines of a script.
#[tactic(auto, unfolding(crate::specs::Lines::script_lines))]
fn push_script(text: &mut String, name: &str, counts: &ScriptCounts) -> Result<(), AllocError>
    ensures { OnOk result (string_bytes text.new ≡ string_bytes text.old ++ script_lines name.now counts.now) }
{
    push_replies(text, name, counts)?;
    push_script_stop(text, name, counts.fault)
}

/// Appends the lines of the scripts of these names.
pub(crate) fn push_scripts(
    text: &mut String,
    names: &[Text],
    scripts: &[ScriptCounts],
) -> Result<(), AllocError>
    ensures { OnOk result (string_bytes text.new ≡ string_bytes text.old ++ scripts_text names.now scripts.now) }
{
    for place in 0..names.len().min(scripts.len()) {
        push_script(text, names[place].as_str(), &scripts[place])?;
    }
    Ok(())
}
