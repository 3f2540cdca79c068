//! The next reply, tested.
ghost use Rattle.std.specs.Prelude.{◌≡◌, ◌≤◌, ◌<◌, ◌⊎◌, ◌↔◌, All, length, max, Some, None, IsTrue, IfOk, OnOk, IfSome, IfNone};
ghost use Rattle.cube_view.specs.Bag.{most_points};
ghost use Rattle.cube_view.specs.Validity.{sound};
ghost use Rattle.query_syntax.specs.Meaning.{asks_valid};
ghost use Rattle.recount.specs.Comparing.{ReplyPasses, Tests};
ghost use Rattle.recount.specs.Counting.{lacking};
ghost use Rattle.recount.specs.Faults.{ReplyFails};
ghost use Rattle.reply_json.specs.Types.{ReplyFits};
ghost use Rattle.session_core.specs.Asked.{reply_line};
ghost use Rattle.session_core.specs.Transcript.{seen_in, told_in, MayCome};

use crate::Why;
use crate::comparing::is_answer;
use crate::replies::{NextReply, next_reply};
use cube_view::{Point, Schema};
use query_syntax::Parsed;
use reply_json::Reply;
use std::alloc::Global;
use texts::NoMemory;

/// The greatest numbers of points that the replies so far print as seen and as told.
#[derive(Clone, Copy)]
pub struct Marks {
    pub seen: u64,
    pub told: u64,
}

/// What a line of the replies is: one that agrees, what follows it, and 1 where it is the line for want of memory, else
/// 0; or the first test that holds of it.
#[derive(Drop)]
pub enum Tested<'a> {
    Agrees(&'a [u8], u64),
    Fails(Why),
}

/// How many points the reply prints as seen, or 0.
pub fn seen_in(reply: &Reply) -> u64
    ensures { result ≡ seen_in reply.now }
{
    match reply {
        Reply::Table(table) => table.seen,
        Reply::Stat(_, seen) => *seen,
        Reply::Told(_) | Reply::Fault(..) | Reply::NoMemory => 0,
    }
}

/// How many points the reply prints as told, or 0.
pub fn told_in(reply: &Reply) -> u64
    ensures { result ≡ told_in reply.now }
{
    match reply {
        Reply::Told(told) => *told,
        Reply::Table(_) | Reply::Stat(..) | Reply::Fault(..) | Reply::NoMemory => 0,
    }
}

/// 1 for the line for want of memory, else 0.
fn lacking(reply: &Reply) -> u64
    ensures { result ≡ lacking reply.now }
{
    match reply {
        Reply::NoMemory => 1,
        Reply::Table(_) | Reply::Stat(..) | Reply::Told(_) | Reply::Fault(..) => 0,
    }
}

/// Whether the reply may come after these greatest numbers seen and told.
pub fn may_come(seen: u64, told: u64, reply: &Reply) -> bool
    ensures { IsTrue result ↔ MayCome seen told reply.now }
{
    match reply {
        Reply::Table(table) => seen <= table.seen && told <= table.seen,
        Reply::Stat(_, number) => seen <= *number && told <= *number,
        Reply::Told(number) => told <= *number,
        Reply::Fault(..) | Reply::NoMemory => true,
    }
}

/// The first test that holds of the reply of a line, which should answer what was asked.
fn reply_fault(
    alloc: Global,
    schema: &Schema,
    points: &[Point],
    marks: &mut Marks,
    parsed: &Parsed,
    next: &NextReply<'_>,
) -> Result<Option<Why>, NoMemory>
    requires few { length points.now < most_points }
    requires sound { All (λ p. IsTrue (sound schema.now p)) points.now }
    requires line { ReplyFits next.now.reply × (next.now.line.now ≡ reply_line next.now.reply) }
    requires valid { IsTrue (asks_valid schema.now parsed.now) }
    ensures passes { IfOk result (λ why. IfNone why (ReplyPasses schema.now points.now marks.old marks.new parsed.now next.now.reply)) }
    ensures fails { IfOk result (λ why. IfSome why (ReplyFails schema.now points.now marks.old.seen marks.old.told parsed.now next.now.reply)) }
{
    let seen = seen_in(&next.reply);
    let told = told_in(&next.reply);
    let most = points.len() as u64;
    if seen > most || told > most {
        return Ok(Some(Why::PastEnd));
    }
    if !may_come(marks.seen, marks.told, &next.reply) {
        return Ok(Some(Why::Fell));
    }
    if !is_answer(alloc, schema, points, parsed, next)? {
        return Ok(Some(Why::Wrong));
    }
    marks.seen = marks.seen.max(seen);
    marks.told = marks.told.max(told);
    Ok(None)
}

/// Tests the first line of the text, which should answer what was asked.
pub fn test_next<'a>(
    alloc: Global,
    schema: &Schema,
    points: &[Point],
    marks: &mut Marks,
    parsed: &Parsed,
    text: &'a [u8],
) -> Result<Tested<'a>, NoMemory>
    requires few { length points.now < most_points }
    requires sound { All (λ p. IsTrue (sound schema.now p)) points.now }
    requires valid { IsTrue (asks_valid schema.now parsed.now) }
    ensures { IfOk result (Tests schema.now points.now marks.old marks.new parsed.now text.now) }
{
    let Some(next) = next_reply(alloc, text)? else {
        return Ok(Tested::Fails(Why::NotReply));
    };
    match reply_fault(alloc, schema, points, marks, parsed, &next)? {
        None => Ok(Tested::Agrees(next.rest, lacking(&next.reply))),
        Some(why) => Ok(Tested::Fails(why)),
    }
}
