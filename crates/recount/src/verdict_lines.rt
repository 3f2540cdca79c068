//! The line of a verdict.
ghost use Rattle.std.specs.Prelude.{◌≡◌, ◌++◌, IfOk, OnOk, string_bytes};
ghost use Rattle.recount.specs.VerdictLines.{agree_line, verdict_line, without_line, why_text};

use crate::{Verdict, Why};
use std::alloc::{AllocError, Global};
use texts::{List, NoMemory};

/// The name of a test.
fn why_name(why: Why) -> &'static str
    ensures { result.now ≡ why_text why }
{
    match why {
        Why::NotEntry => "NotEntry",
        Why::WrongNumber => "WrongNumber",
        Why::TooFew => "TooFew",
        Why::TooMany => "TooMany",
        Why::NotReply => "NotReply",
        Why::PastEnd => "PastEnd",
        Why::Fell => "Fell",
        Why::Wrong => "Wrong",
    }
}

/// Appends how many replies are the line for want of memory.
#[tactic(auto, unfolding(crate::specs::VerdictLines::without_line))]
fn push_without(text: &mut String, without: u64) -> Result<(), AllocError>
    ensures { OnOk result (string_bytes text.new ≡ string_bytes text.old ++ without_line without) }
{
    write!(text, "{without} without memory\n")
}

/// Appends the line of texts that agree.
#[tactic(auto, unfolding(crate::specs::VerdictLines::agree_line))]
fn push_agree(text: &mut String, replies: u64, without: u64) -> Result<(), AllocError>
    ensures { OnOk result (string_bytes text.new ≡ string_bytes text.old ++ agree_line replies without) }
{
    write!(text, "recount: {replies} replies agree, ")?;
    push_without(text, without)
}

/// Appends the line of a verdict.
#[tactic(auto, unfolding(crate::specs::VerdictLines::verdict_line))]
fn push_verdict(text: &mut String, verdict: Verdict) -> Result<(), AllocError>
    ensures { OnOk result (string_bytes text.new ≡ string_bytes text.old ++ verdict_line verdict) }
{
    match verdict {
        Verdict::Agree { replies, without } => push_agree(text, replies, without),
        Verdict::Journal(line, why) => {
            let why = why_name(why);
            write!(text, "recount: journal line {line}: {why}\n")
        }
        Verdict::Replies(place, why) => {
            let why = why_name(why);
            write!(text, "recount: reply {place}: {why}\n")
        }
    }
}

fn verdict_text(alloc: Global, verdict: Verdict) -> Result<String, AllocError>
    ensures { IfOk result (λ text. string_bytes text ≡ verdict_line verdict) }
{
    let mut text = String::new(alloc);
    push_verdict(&mut text, verdict)?;
    Ok(text)
}

/// The line of a verdict.
pub(crate) fn verdict_line(alloc: Global, verdict: Verdict) -> Result<List<u8>, NoMemory>
    ensures { IfOk result (λ text. text ≡ verdict_line verdict) }
{
    let text = verdict_text(alloc, verdict)?;
    Ok(List::from_vec(text.into_bytes()))
}
