//! Opened scripts become sessions. Nothing here takes memory: the room was taken before.
ghost use Rattle.std.specs.Prelude.{◌≡◌, ◌+◌, ◌≤◌, [], length, vec_len, vec_capacity, All};
ghost use Rattle.outer_io.specs.Cutting.{IsNew};
ghost use Rattle.plan_run.specs.Seated.{HasSeatsFor, sessions_of};

use crate::parts::RunParts;
use crate::rooms::Rooms;
use cube_crew::Jobs;
use feed_reader::FeedJob;
use live_session::Session;
use outer_io::{LineCutter, Sink, Source};
use run_files::ScriptParts;
use std::alloc::Global;
use texts::List;

/// The sessions over scripts and sinks, of which there are as many, in a list that has room for them.
pub(crate) fn seat_sessions<I: Source, O: Sink>(
    alloc: Global,
    mut scripts: Vec<LineCutter<I>>,
    mut sinks: Vec<O>,
    room: Vec<Session<I, O>>,
) -> Vec<Session<I, O>>
    requires new { All (λ script. IsNew script.source script) scripts.items }
    requires pairs { vec_len sinks ≡ vec_len scripts }
    requires room { (room.items ≡ []) × (vec_len scripts ≤ vec_capacity room) }
    ensures sessions { result.items ≡ sessions_of scripts.items sinks.items }
    ensures len { vec_len result ≡ vec_len scripts }
    ensures room { vec_capacity room ≤ vec_capacity result }
{
    let Some(script) = scripts.pop() else {
        scripts.destroy_empty();
        sinks.destroy_empty();
        return room;
    };
    let Some(sink) = sinks.pop() else {
        unreachable!()
    };
    let mut sessions = seat_sessions(alloc, scripts, sinks, room);
    sessions.push_reserved(Session::new(alloc, script, sink));
    sessions
}

/// The parts of a run, of feeds whose headers were read and of scripts with their sinks, in the room that was taken.
pub(crate) fn seat_parts<I: Source, O: Sink>(
    alloc: Global,
    feeds: List<FeedJob<I>>,
    scripts: ScriptParts<LineCutter<I>, O>,
    rooms: Rooms<I, O>,
) -> RunParts<I, O>
    requires new { All (λ script. IsNew script.source script) scripts.asks × All (λ script. IsNew script.source script) scripts.finals }
    requires pairs { (length scripts.ask_outputs ≡ length scripts.asks) × (length scripts.final_outputs ≡ length scripts.finals) }
    requires room { HasSeatsFor rooms (length scripts.asks) (length scripts.finals) }
    ensures feeds { result.jobs.feeds ≡ feeds }
    ensures asks { result.jobs.asks ≡ sessions_of scripts.asks scripts.ask_outputs }
    ensures finals { result.jobs.finals ≡ sessions_of scripts.finals scripts.final_outputs }
    ensures journal { result.journal ≡ scripts.journal }
    ensures room { result.room ≡ rooms.sinks }
{
    let Rooms {
        asks: ask_room,
        finals: final_room,
        sinks,
    } = rooms;
    let ScriptParts {
        asks,
        finals,
        ask_outputs,
        final_outputs,
        journal,
    } = scripts;
    let asks = seat_sessions(alloc, asks.into_vec(), ask_outputs.into_vec(), ask_room);
    let finals = seat_sessions(
        alloc,
        finals.into_vec(),
        final_outputs.into_vec(),
        final_room,
    );
    let jobs = Jobs {
        feeds,
        asks: List::from_vec(asks),
        finals: List::from_vec(finals),
    };
    RunParts {
        jobs,
        journal,
        room: sinks,
    }
}
