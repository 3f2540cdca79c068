//! What is answered to a line.
ghost use Rattle.std.specs.Prelude.{◌≡◌, ◌+◌, ◌≤◌, List, true, false, IsTrue, IfOk, OnOk, OnErr};
ghost use Rattle.cube_view.specs.Points.{Point};
ghost use Rattle.cube_view.specs.declared.schema.Schema.{Schema};
ghost use Rattle.cube_view.specs.declared.stat.Stat.{Stat};
ghost use Rattle.query_syntax.specs.Meaning.{asks_valid};
ghost use Rattle.reply_json.specs.Types.{ReplyFits};
ghost use Rattle.reply_json.specs.Validity.{is_valid_reply};
ghost use Rattle.session_core.specs.Answered.{basis};
ghost use Rattle.session_core.specs.Asked.{asks_look, asks_reply, reply_line};
ghost use Rattle.session_core.specs.Serving.{Serves, ServesOver, ServesWithin};

use cross_table::{best_answer, cross_answer};
use cube_view::CubeView;
use probe_core::Steps;
use query_syntax::{Parsed, Verb};
use reply_json::{Reply, print_reply_in};
use std::alloc::Global;
use std::mem::replace;
use std::sync::ledger::Ledger;
use texts::{List, NoMemory};
use tile_drill::answer;
use window_cover::window_answer;

/// What is answered to a line: nothing, the reply with its line feed, or the end of the session.
#[derive(Drop)]
pub enum Served {
    Skipped,
    Reply(List<u8>),
    Quit,
}

// The line of a reply, with its line feed, in the memory of `room`, which is taken.
#[tactic(auto, unfolding(crate::specs::Asked::reply_line))]
fn line_of(alloc: Global, reply: &Reply, room: &mut List<u8>) -> Result<Served, NoMemory>
    requires { IsTrue (is_valid_reply reply.now) }
    ensures line { IfOk result (λ served. served ≡ Served.Reply (reply_line reply.now)) }
    ensures fits { OnOk result (ReplyFits reply.now) }
{
    let mut line = print_reply_in(replace(room, List::new(alloc)), reply)?;
    line.add(b'\n')?;
    Ok(Served::Reply(line))
}

// The line of the structure's numbers.
#[tactic(auto, unfolding(reply_json::specs::Validity::is_valid_reply))]
fn serve_stat<V: CubeView>(alloc: Global, view: &V, room: &mut List<u8>) -> Result<Served, NoMemory>
    ensures line { IfOk result (λ served. served ≡ Served.Reply (reply_line (Reply.Stat (V.numbers view.now) (V.seen view.now)))) }
    ensures fits { OnOk result (ReplyFits (Reply.Stat (V.numbers view.now) (V.seen view.now))) }
{
    line_of(alloc, &Reply::Stat(view.stat(), view.seen()), room)
}

/// The answer to a line that asks for no look at a view, which is the same over any list of points; `told` is the told
/// length, and `room` is as for [`serve`]. `NoMemory` only where the line asks for a reply.
#[tactic(auto, unfolding(reply_json::specs::Validity::is_valid_reply))]
pub fn serve_unseen(
    alloc: Global,
    told: u64,
    parsed: &Parsed,
    room: &mut List<u8>,
) -> Result<Served, NoMemory>
    requires { asks_look parsed.now ≡ false }
    ensures served { (stat : Stat) (schema : Schema) (h : List Point) → IfOk result (Serves stat schema h told parsed.now) }
    ensures no_memory { OnErr result (asks_reply parsed.now ≡ true) }
{
    match parsed {
        Parsed::Skip => Ok(Served::Skipped),
        Parsed::Ask(query) => match query.verb {
            Verb::Told => line_of(alloc, &Reply::Told(told), room),
            Verb::Quit => Ok(Served::Quit),
            _ => unreachable!(),
        },
        Parsed::Fault(fault, word) => line_of(alloc, &Reply::Fault(*fault, *word), room),
    }
}

/// The answer to what a line means, over any list of points that the view counts; `told` is the told length. A table
/// takes at most the steps of its bound, every other line none. `NoMemory` only where the line asks for a reply.
///
/// A reply takes the memory of `room` for its line. The caller gives the line back there once it is put, so that the
/// next reply takes no further memory where it fits. What `room` holds is not looked at.
#[tactic(auto, unfolding(reply_json::specs::Validity::is_valid_reply))]
pub fn serve<V: CubeView, L: Ledger>(
    alloc: Global,
    view: &V,
    told: u64,
    parsed: &Parsed,
    steps: &mut Steps<L>,
    room: &mut List<u8>,
) -> Result<Served, NoMemory>
    requires valid { IsTrue (asks_valid (V.schema view.now) parsed.now) }
    ensures served { ServesOver (basis V.CubeView view.now told) parsed.now result }
    ensures cost { ServesWithin V.CubeView view.now parsed.now steps.old steps.new }
    ensures no_memory { OnErr result (asks_reply parsed.now ≡ true) }
{
    let Parsed::Ask(query) = parsed else {
        return serve_unseen(alloc, told, parsed, room);
    };
    match query.verb {
        Verb::Count | Verb::Hist(_) | Verb::Map(_) | Verb::Series { .. } => {
            let table = answer(alloc, view, query, steps)?;
            line_of(alloc, &Reply::Table(table), room)
        }
        Verb::Window(_) => {
            let table = window_answer(alloc, view, query, steps)?;
            line_of(alloc, &Reply::Table(table), room)
        }
        Verb::Cross(..) => {
            let table = cross_answer(alloc, view, query, steps)?;
            line_of(alloc, &Reply::Table(table), room)
        }
        Verb::Best { .. } => {
            let table = best_answer(alloc, view, query, steps)?;
            line_of(alloc, &Reply::Table(table), room)
        }
        Verb::Stat => serve_stat(alloc, view, room),
        Verb::Told | Verb::Quit => serve_unseen(alloc, told, parsed, room),
    }
}
