//! The end of a run: its journal, its parts and its report.
ghost use Rattle.std.specs.Prelude.{◌≡◌, ◌+◌, ◌≤◌, [], ℕ, List, map, length, IfOk, vec_len, vec_capacity};
ghost use Rattle.run_files.specs.Outside.{at, of_parts, of_place, of_sink};
ghost use Rattle.run_files.specs.Saying.{SaysText};
ghost use Rattle.plan_run.specs.Closing.{ClosesRun, ReturnsParts, ReturnsSink};
ghost use Rattle.plan_run.specs.Counted.{IsReportOf, script_counts};

use crate::counts::{RunCounts, all_counts};
use crate::ends::threads_end;
use crate::journal::write_journal;
use crate::returning::{give_back_fed, give_back_scripts};
use crate::saying::put_report;
use crew_feeder::FeedDone;
use cube_crew::Crewed;
use cube_schema::Plan;
use live_session::SessionDone;
use outer_io::{IoFault, Place, Sink};
use run_files::{Stop, give_back_sinks, joined_ends, write_end};
use std::alloc::Global;
use texts::{List, NoMemory};

/// Gives feeds and scripts back, the sources in order and then the sinks, which have room. It says what was counted of
/// them, where there is memory for it, and how giving back ended.
fn give_back_parts<P: Place>(
    alloc: Global,
    place: &mut P,
    feeds: List<FeedDone<P::In>>,
    asks: List<SessionDone<P::In, P::Out>>,
    finals: List<SessionDone<P::In, P::Out>>,
    room: Vec<P::Out>,
) -> (Result<RunCounts, NoMemory>, Result<(), Stop>)
    requires empty { (room.items ≡ []) × (vec_len room ≡ 0) }
    requires room { length asks + length finals ≤ vec_capacity room }
    ensures back { ReturnsParts (of_parts P.Place P.In.Source P.Out.Sink) place.old place.new feeds asks finals result.1 }
    ensures feeds { IfOk result.0 (λ counts. counts.feeds.items ≡ map (λ feed. feed.counts) feeds) }
    ensures asks { IfOk result.0 (λ counts. counts.asks.items ≡ map script_counts asks) }
    ensures finals { IfOk result.0 (λ counts. counts.finals.items ≡ map script_counts finals) }
{
    let feeds = give_back_fed(alloc, place, feeds.into_vec());
    let (sinks, asks) = give_back_scripts(alloc, place, asks.into_vec(), room);
    let (sinks, finals) = give_back_scripts(alloc, place, finals.into_vec(), sinks);
    let given = give_back_sinks(place, sinks);
    (all_counts(feeds, asks, finals), given)
}

/// Gives the journal's sink back.
pub(crate) fn give_back_journal<P: Place>(place: &mut P, sink: P::Out) -> Result<(), IoFault>
    ensures { ReturnsSink (of_place P.Place) (of_sink P.Out.Sink) place.old place.new sink result }
{
    place.give_back_out(sink)
}

/// Puts the report of what was counted in one put, unless the journal found no memory, or counting.
fn say_run<O: Sink>(
    alloc: Global,
    plan: &Plan,
    counts: Result<RunCounts, NoMemory>,
    closed: bool,
    count: u64,
    journal: Result<(), Stop>,
    out: &mut O,
) -> Result<(), Stop>
    ensures said { (text : List ℕ) → IsReportOf plan.now closed count counts text → SaysText (of_sink O.Sink) out.old out.new text result }
    ensures unsaid { journal ≡ Err Stop.NoMemory → result ≡ Err Stop.NoMemory }
{
    if let Err(Stop::NoMemory) = journal {
        return Err(Stop::NoMemory);
    }
    match counts {
        Ok(counts) => put_report(
            alloc,
            plan,
            counts.feeds.as_slice(),
            counts.asks.as_slice(),
            counts.finals.as_slice(),
            closed,
            count,
            out,
        ),
        Err(NoMemory) => Err(Stop::NoMemory),
    }
}

/// Writes the journal, gives all parts back in the order in which they were made, and puts the report in one put. A
/// failure stops none of the later steps, but without memory for the journal nothing is reported. `room` has nothing in
/// it, and room for the sinks of all scripts. The end is the first of all, in the order of [`Stop`].
pub(crate) fn close_run<P: Place, O: Sink>(
    alloc: Global,
    plan: &Plan,
    crewed: Crewed<P::In, P::Out>,
    mut journal: P::Out,
    room: Vec<P::Out>,
    place: &mut P,
    out: &mut O,
) -> Result<(), Stop>
    requires empty { (room.items ≡ []) × (vec_len room ≡ 0) }
    requires room { length crewed.asks + length crewed.finals ≤ vec_capacity room }
    ensures { ClosesRun plan.now crewed journal (of_parts P.Place P.In.Source P.Out.Sink) (of_sink O.Sink) (at place.old out.old) (at place.new out.new) result }
{
    let threads = threads_end(&crewed);
    let Crewed {
        feeds,
        asks,
        finals,
        journal: entries,
        drawn: _,
        mails: _,
        starved: _,
        closed,
    } = crewed;
    let wrote = write_journal(alloc, &plan.schema, entries.as_slice(), &mut journal);
    let count = entries.len() as u64;
    let (counts, given) = give_back_parts(alloc, place, feeds, asks, finals, room);
    let kept = give_back_journal(place, journal);
    let (wrote, kept) = (write_end(wrote), write_end(kept));
    let said = say_run(
        alloc,
        plan,
        counts,
        closed,
        count,
        joined_ends(wrote, kept),
        out,
    );
    let parts = joined_ends(joined_ends(threads, wrote), given);
    joined_ends(joined_ends(parts, kept), said)
}
