//! One reply of a share, added.
ghost use Rattle.std.specs.Prelude.{◌≡◌, true, Err, Some, IfOk, IsTrue};
ghost use Rattle.reply_json.specs.Validity.{is_valid_reply};
ghost use Rattle.reply_sums.specs.Additive.{adds_up};
ghost use Rattle.reply_sums.specs.Sums.{AsksShallow};
ghost use Rattle.share_replies.specs.Refusals.{AddsBy, IsLineWrong, IsLineRight, IsReplyWrong, total_of_sum};
ghost use Rattle.share_replies.specs.Sums.{AddsLine, AddsOne, AddsReply, is_of_kind, kind_fits};
ghost use Rattle.share_replies.specs.declared.fault.WrongReply.{WrongReply};

use crate::fault::{LineFault, WrongReply};
use crate::summed::Summed;
use query_syntax::{Parsed, Verb};
use recount::next_reply;
use reply_json::Reply;
use reply_sums::{SumFault, adds_up, sum_replies};
use std::alloc::Global;
use texts::NoMemory;

/// A sum with the reply of a line, and what follows the line.
#[derive(Drop)]
pub(crate) struct Added<'a> {
    pub sum: Option<Summed>,
    pub rest: &'a [u8],
}

/// Whether a verb whose replies do not add up has replies of this kind.
fn kind_fits(verb: Verb, reply: &Reply) -> bool
    ensures { result ≡ kind_fits verb reply.now }
{
    match (verb, reply) {
        (Verb::Stat, Reply::Stat(..)) => true,
        (Verb::Stat, _) => false,
        (_, Reply::Table(_)) => true,
        _ => false,
    }
}

/// Whether the reply is of the kind that was asked for, where replies do not add up.
fn is_of_kind(asked: &Parsed, reply: &Reply) -> bool
    ensures { result ≡ is_of_kind asked.now reply.now }
{
    match asked {
        Parsed::Ask(query) => kind_fits(query.verb, reply),
        Parsed::Skip | Parsed::Fault(..) => false,
    }
}

/// The sum with one more reply to what was asked.
fn sum_with(
    alloc: Global,
    asked: &Parsed,
    sum: &Reply,
    reply: &Reply,
) -> Result<Option<Summed>, LineFault>
    requires adds { adds_up asked.now ≡ true }
    requires shallow { AsksShallow asked.now }
    requires valid { IsTrue (is_valid_reply sum.now) }
    ensures law { AddsOne asked.now sum.now reply.now result }
    ensures right { IfOk result (λ next. AddsBy true asked.now (Some sum.now) reply.now (total_of_sum next)) }
    ensures wrong { (w : WrongReply) → result ≡ Err (LineFault.Wrong w) → IsReplyWrong asked.now (Some sum.now) reply.now w }
{
    match sum_replies(alloc, asked, sum, reply) {
        Ok(total) => Ok(Some(Summed { reply: total })),
        Err(SumFault::OtherRows) => Err(LineFault::Wrong(WrongReply::OtherRows)),
        Err(SumFault::TooMuch) => Err(LineFault::Wrong(WrongReply::TooGreat)),
        Err(SumFault::NoMemory) => Err(LineFault::NoMemory),
    }
}

/// The sum with one more reply to what was asked.
///
/// Where the sum is over some points, and the reply is the final one over others, the answer is the sum over both, and
/// the reply is not refused, unless the sum is too great.
pub fn add_reply(
    alloc: Global,
    asked: &Parsed,
    sum: &Option<Summed>,
    reply: &Reply,
) -> Result<Option<Summed>, LineFault>
    requires shallow { AsksShallow asked.now }
    ensures law { AddsReply asked.now sum.now reply.now result }
    ensures right { IfOk result (λ next. AddsBy (adds_up asked.now) asked.now (total_of_sum sum.now) reply.now (total_of_sum next)) }
    ensures wrong { (w : WrongReply) → result ≡ Err (LineFault.Wrong w) → IsReplyWrong asked.now (total_of_sum sum.now) reply.now w }
{
    if !adds_up(asked) {
        if is_of_kind(asked, reply) {
            return Ok(None);
        }
        return Err(LineFault::Wrong(WrongReply::OtherRows));
    }
    let Some(sum) = sum else {
        return Err(LineFault::Wrong(WrongReply::OtherRows));
    };
    sum_with(alloc, asked, &sum.reply, reply)
}

/// The sum with the reply of the text's first line, and what follows that line.
pub(crate) fn add_next<'a>(
    alloc: Global,
    asked: &Parsed,
    sum: &Option<Summed>,
    text: &'a [u8],
) -> Result<Added<'a>, LineFault>
    requires shallow { AsksShallow asked.now }
    ensures law { AddsLine asked.now sum.now text.now result }
    ensures right { IfOk result (λ added. IsLineRight asked.now (total_of_sum sum.now) text.now added) }
    ensures wrong { (w : WrongReply) → result ≡ Err (LineFault.Wrong w) → IsLineWrong asked.now (total_of_sum sum.now) text.now w }
{
    if text.is_empty() {
        return Err(LineFault::Wrong(WrongReply::TooFew));
    }
    let Some(next) = next_reply(alloc, text)? else {
        return Err(LineFault::Wrong(WrongReply::NotReply));
    };
    let sum = add_reply(alloc, asked, sum, &next.reply)?;
    Ok(Added {
        sum,
        rest: next.rest,
    })
}
