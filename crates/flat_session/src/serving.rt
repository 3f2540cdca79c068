//! What is answered to a line.
ghost use Rattle.std.specs.Prelude.{◌≡◌, true, IfOk, IsTrue, OnErr};
ghost use Rattle.flat_session.specs.Answers.{basis_of, no_cube_line, ServesFlat};
ghost use Rattle.flat_view.specs.Kept.{flat_points, flat_schema};
ghost use Rattle.query_syntax.specs.Meaning.{asks_valid};
ghost use Rattle.query_syntax.specs.Queries.{is_valid_query};
ghost use Rattle.query_syntax.specs.Tables.{has_table, table};
ghost use Rattle.session_core.specs.Asked.{asks_reply, reply_line};

use flat_tables::flat_answer;
use flat_view::FlatView;
use query_syntax::{Parsed, Query, Verb};
use reply_json::{Reply, print_reply_in};
use session_core::{Served, serve_unseen};
use std::alloc::Global;
use std::mem::replace;
use std::thread::Threads;
use texts::{List, NoMemory, put};

/// The line that answers `stat`.
const NO_CUBE_LINE: &str = "{\"fault\":\"NoCube\"}\n";

fn no_cube_line() -> &'static str
    ensures { result.now ≡ no_cube_line }
{
    NO_CUBE_LINE
}

/// The line that says that there is no cube, in the memory of `room`, which is taken.
fn serve_stat(alloc: Global, room: &mut List<u8>) -> Result<Served, NoMemory>
    ensures { IfOk result (λ served. served ≡ Served.Reply no_cube_line) }
{
    let mut line = replace(room, List::new(alloc)).into_vec();
    line.clear();
    put(&mut line, no_cube_line().as_bytes())?;
    Ok(Served::Reply(List::from_vec(line)))
}

/// The line of a query's table, in the memory of `room`, which is taken.
#[tactic(auto, unfolding(session_core::specs::Asked::reply_line))]
fn serve_table<R: Threads>(
    rt: &R,
    alloc: Global,
    view: &FlatView,
    query: &Query,
    room: &mut List<u8>,
) -> Result<Served, NoMemory>
    requires valid { IsTrue (is_valid_query (flat_schema view.now) query.now) }
    requires verb { IsTrue (has_table query.now.verb) }
    ensures { IfOk result (λ s. s ≡ Served.Reply (reply_line (Reply.Table (table (flat_schema view.now) query.now (flat_points view.now))))) }
{
    let table = flat_answer(rt, alloc, view, query)?;
    let mut line = print_reply_in(replace(room, List::new(alloc)), &Reply::Table(table))?;
    line.add(b'\n')?;
    Ok(Served::Reply(line))
}

/// The answer to a query.
fn serve_query<R: Threads>(
    rt: &R,
    alloc: Global,
    view: &FlatView,
    query: &Query,
    room: &mut List<u8>,
) -> Result<Served, NoMemory>
    requires { IsTrue (is_valid_query (flat_schema view.now) query.now) }
    ensures served { IfOk result (ServesFlat (basis_of view.now) (Parsed.Ask query.now)) }
    ensures no_memory { OnErr result (asks_reply (Parsed.Ask query.now) ≡ true) }
{
    match query.verb {
        Verb::Stat => serve_stat(alloc, room),
        Verb::Best { .. }
        | Verb::Count
        | Verb::Cross(_, _)
        | Verb::Hist(_)
        | Verb::Map(_)
        | Verb::Series { .. }
        | Verb::Window(_) => serve_table(rt, alloc, view, query, room),
        Verb::Told => {
            let told = view.points().len() as u64;
            serve_unseen(alloc, told, &Parsed::Ask(*query), room)
        }
        Verb::Quit => Ok(Served::Quit),
    }
}

/// The answer to what a line means, over all points of the view, each of which was told. `NoMemory` only where the line
/// asks for a reply.
///
/// An answer takes the memory of `room`. The caller gives the line back there once it is put, so that the next one
/// takes no further memory where it fits. What `room` holds is not looked at.
pub(crate) fn serve_flat<R: Threads>(
    rt: &R,
    alloc: Global,
    view: &FlatView,
    parsed: &Parsed,
    room: &mut List<u8>,
) -> Result<Served, NoMemory>
    requires { IsTrue (asks_valid (flat_schema view.now) parsed.now) }
    ensures served { IfOk result (ServesFlat (basis_of view.now) parsed.now) }
    ensures no_memory { OnErr result (asks_reply parsed.now ≡ true) }
{
    match parsed {
        Parsed::Ask(query) => serve_query(rt, alloc, view, query, room),
        Parsed::Skip => Ok(Served::Skipped),
        Parsed::Fault(..) => {
            let told = view.points().len() as u64;
            serve_unseen(alloc, told, parsed, room)
        }
    }
}
