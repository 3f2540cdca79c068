//! A named script answered over points in path order.
ghost use Rattle.std.specs.Prelude.{◌≡◌};
ghost use Rattle.flat_run.specs.Answering.{AnswersNamed};
ghost use Rattle.flat_session.specs.Answers.{basis_of};
ghost use Rattle.run_files.specs.Answering.{script_end};
ghost use Rattle.run_files.specs.FaultCounts.{KeepsFaults};
ghost use Rattle.run_files.specs.Outside.{at, of_place, of_sink};

use flat_session::answer_flat;
use flat_view::FlatView;
use outer_io::{IoFault, Place, Sink};
use run_files::{Stop, joined_ends, stop_of_session};
use session_core::ScriptEnd;
use std::alloc::Global;
use std::thread::Threads;

/// How a call ends by the end of the answers to its script.
fn end_of_answers(answers: ScriptEnd) -> Result<(), Stop>
    ensures { result ≡ script_end answers }
{
    let ended = match answers.end {
        Err(fault) => Err(stop_of_session(fault)),
        Ok(()) => Ok(()),
    };
    if answers.lacked {
        return joined_ends(Err(Stop::NoMemory), ended);
    }
    ended
}

/// Answers the named script over the points, each of which was told. The script's source is given back.
pub(crate) fn answer_named<R: Threads, P: Place, O: Sink>(
    rt: &R,
    alloc: Global,
    view: &FlatView,
    script: &str,
    place: &mut P,
    out: &mut O,
) -> Result<(), Stop>
    ensures script { AnswersNamed (of_place P.Place) (of_sink O.Sink) (at place.old out.old) (at place.new out.new) (basis_of view.now) script.now result }
    ensures faults { KeepsFaults (of_place P.Place) (of_sink O.Sink) (at place.old out.old) (at place.new out.new) result }
{
    match place.open(script) {
        Err(IoFault::NoMemory) => Err(Stop::NoMemory),
        Err(IoFault::Failed) => Err(Stop::ReadFault),
        Ok(source) => {
            let (source, answers) = answer_flat(rt, alloc, view, source, out);
            place.give_back_in(source);
            end_of_answers(answers)
        }
    }
}
