//! Sums of the replies of live runs, from their asks.
ghost use Rattle.std.specs.Prelude.{◌≡◌, ◌<◌, ◌-◌, ◌^◌, ℕ, Err, IfOk, OnErr, length};
ghost use Rattle.run_files.specs.Outside.{at, of_parts, of_sink};
ghost use Rattle.run_files.specs.Saying.{SaysText};
ghost use Rattle.share_replies.specs.Texts.{share_line};
ghost use Rattle.live_sums.specs.Ends.{LiveRuns, LiveEnds, RanSession, SaysEnd, SaysTurnFault, ended_with, session_names};
ghost use Rattle.live_sums.specs.Opening.{reply_names};
ghost use Rattle.live_sums.specs.Wrong.{wrong_share_text};
ghost use Rattle.live_sums.specs.declared.fault.WrongShare.{WrongShare};

use crate::fault::{TurnFault, WrongShare, share_name};
use crate::opening::{
    LiveNames, RunNames, create_asks, give_back_replies, open_questions, open_replies,
};
use crate::serving::{Served, serve};
use cube_view::Schema;
use outer_io::{LineCutter, Place, Sink};
use run_files::{Stop, ended_after, give_back_sinks, load_plan, put_text};
use share_replies::share_line;
use std::alloc::Global;

/// Whether the questions were answered to their end, or a run was refused.
#[derive(Clone, Copy, PartialEq, Eq, Debug)]
pub enum LiveOutcome {
    Ended,
    Refused(WrongShare),
}

/// Says which run is wrong.
fn refuse<O: Sink>(
    alloc: Global,
    name: &str,
    line: u64,
    why: WrongShare,
    out: &mut O,
) -> Result<LiveOutcome, Stop>
    ensures outcome { IfOk result (λ outcome. outcome ≡ LiveOutcome.Refused why) }
    ensures says { SaysText (of_sink O.Sink) out.old out.new (share_line name.now line (wrong_share_text why)) result }
{
    let Ok(text) = share_line(alloc, name, line, share_name(why)) else {
        return Err(Stop::NoMemory);
    };
    put_text(text.as_str().as_bytes(), out)?;
    Ok(LiveOutcome::Refused(why))
}

/// Says what ended the answers, of which so many were put.
fn say_fault<O: Sink>(
    alloc: Global,
    runs: &[RunNames<'_>],
    sums: u64,
    fault: TurnFault,
    out: &mut O,
) -> Result<LiveOutcome, Stop>
    requires run { (k : ℕ) (w : WrongShare) → fault ≡ TurnFault.Wrong k w → k < length runs.now }
    requires few { sums < 2 ^ 64 - 1 }
    ensures { SaysTurnFault (of_sink O.Sink) (reply_names runs.now) sums fault out.old out.new result }
{
    match fault {
        TurnFault::Stopped(stop) => Err(stop),
        TurnFault::Wrong(run, why) => refuse(alloc, runs[run].replies, sums + 1, why, out),
    }
}

/// Says how the answers ended, if a run is wrong.
fn say_end<O: Sink>(
    alloc: Global,
    runs: &[RunNames<'_>],
    served: Served,
    out: &mut O,
) -> Result<LiveOutcome, Stop>
    requires run { (k : ℕ) (w : WrongShare) → served.end ≡ Err (TurnFault.Wrong k w) → k < length runs.now }
    requires few { OnErr served.end (served.sums < 2 ^ 64 - 1) }
    ensures says { SaysEnd (of_sink O.Sink) (reply_names runs.now) served.sums served.end out.old out.new result }
{
    match served.end {
        Ok(()) => Ok(LiveOutcome::Ended),
        Err(fault) => say_fault(alloc, runs, served.sums, fault, out),
    }
}

/// Opens the replies of runs, answers the questions by these and the asks, and gives the replies back.
fn answer_runs<P: Place, O: Sink>(
    alloc: Global,
    schema: &Schema,
    names: &[RunNames<'_>],
    lines: &mut LineCutter<P::In>,
    asks: &mut [P::Out],
    place: &mut P,
    out: &mut O,
) -> Result<LiveOutcome, Stop>
    requires each { length asks.old ≡ length names.now }
    ensures { LiveRuns P.Place P.In.Source P.Out.Sink O.Sink schema.now names.now place.old lines.old asks.old out.old place.new lines.new asks.new out.new result }
{
    let Ok(mut runs) = Vec::with_capacity(alloc, names.len()) else {
        return Err(Stop::NoMemory);
    };
    match open_replies(alloc, names, place, &mut runs) {
        Ok(()) => {}
        Err(stop) => {
            give_back_replies(place, runs);
            return Err(stop);
        }
    }
    let served = serve(alloc, schema, lines, asks, runs.as_mut_slice(), out);
    give_back_replies(place, runs);
    say_end(alloc, names, served, out)
}

/// How a session ends whose asks were given back so.
fn ended_with(end: Result<LiveOutcome, Stop>, given: Result<(), Stop>) -> Result<LiveOutcome, Stop>
    ensures { result ≡ ended_with end given }
{
    match (end, given) {
        (Ok(outcome), Ok(())) => Ok(outcome),
        (Ok(_), Err(stop)) => Err(stop),
        (Err(stop), given) => Err(ended_after(stop, given)),
    }
}

/// Creates the asks of runs, answers the questions by the runs, and gives the asks back.
fn run_session<P: Place, O: Sink>(
    alloc: Global,
    schema: &Schema,
    names: &[RunNames<'_>],
    lines: &mut LineCutter<P::In>,
    place: &mut P,
    out: &mut O,
) -> Result<LiveOutcome, Stop>
    ensures { RanSession P.Place P.In.Source P.Out.Sink O.Sink schema.now names.now place.old lines.old out.old place.new lines.new out.new result }
{
    let Ok(mut asks) = Vec::with_capacity(alloc, names.len()) else {
        return Err(Stop::NoMemory);
    };
    match create_asks(names, place, &mut asks) {
        Ok(()) => {}
        Err(stop) => {
            let given = give_back_sinks(place, asks);
            return ended_with(Err(stop), given);
        }
    }
    let end = answer_runs(alloc, schema, names, lines, asks.as_mut_slice(), place, out);
    let given = give_back_sinks(place, asks);
    ended_with(end, given)
}

/// Answers questions by the sums of the replies of live runs.
///
/// The plan is read first. Then the questions are opened, the asks of all runs created, and their replies opened. A
/// question is put into each ask, and then one reply is read of each run and the line of their sum put, before the next
/// question is read. `quit` and the end of the questions end it, and are not sent. A run that is wrong is named on
/// `out`.
pub fn add_live_runs<P: Place, O: Sink>(
    alloc: Global,
    names: &LiveNames<'_>,
    place: &mut P,
    out: &mut O,
) -> Result<LiveOutcome, Stop>
    ensures { LiveEnds (of_parts P.Place P.In.Source P.Out.Sink) (of_sink O.Sink) (session_names names.now) (at place.old out.old) (at place.new out.new) result }
{
    let plan = load_plan(alloc, names.plan, place, out)?;
    let mut lines = open_questions(alloc, names.questions, place)?;
    let end = run_session(alloc, &plan.schema, names.runs, &mut lines, place, out);
    place.give_back_in(lines.into_source());
    end
}
