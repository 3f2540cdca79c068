//! A script answered over a view.
ghost use Rattle.std.specs.Prelude.{◌≡◌};
ghost use Rattle.run_files.specs.Answering.{answers_end, lacking_end, script_end, AnswersFile};
ghost use Rattle.run_files.specs.FaultCounts.{KeepsFaults};
ghost use Rattle.run_files.specs.Views.{of_view};
ghost use Rattle.run_files.specs.Outside.{at, of_place, of_sink};

use crate::{Stop, joined_ends, stop_of_session};
use cube_view::CubeView;
use outer_io::{IoFault, Place, Sink};
use session_core::{ScriptEnd, SessionFault, answer_script};
use std::alloc::Global;

/// How a run ends whose script was answered so far, if that ends it.
fn answers_end(answers: Result<(), SessionFault>) -> Result<(), Stop>
    ensures { result ≡ answers_end answers }
{
    match answers {
        Ok(()) => Ok(()),
        Err(fault) => Err(stop_of_session(fault)),
    }
}

/// And where a reply was the line for want of memory.
fn lacking_end(lacked: bool) -> Result<(), Stop>
    ensures { result ≡ lacking_end lacked }
{
    if lacked { Err(Stop::NoMemory) } else { Ok(()) }
}

/// How a run ends by the end of the answers to its script.
fn script_end(answers: ScriptEnd) -> Result<(), Stop>
    ensures { result ≡ script_end answers }
{
    joined_ends(lacking_end(answers.lacked), answers_end(answers.end))
}

/// Answers the named script over the view, each point of which was told. The script's source is given back.
pub fn answer_file<V: CubeView, P: Place, O: Sink>(
    alloc: Global,
    view: &V,
    script: &str,
    place: &mut P,
    out: &mut O,
) -> Result<(), Stop>
    ensures file { AnswersFile (of_place P.Place) (of_sink O.Sink) (at place.old out.old) (at place.new out.new) (of_view V.CubeView view.now) script.now result }
    ensures faults { KeepsFaults (of_place P.Place) (of_sink O.Sink) (at place.old out.old) (at place.new out.new) result }
{
    match place.open(script) {
        Ok(source) => {
            let (source, answers) = answer_script(alloc, view, view.seen(), source, out);
            place.give_back_in(source);
            script_end(answers)
        }
        Err(IoFault::Failed) => Err(Stop::ReadFault),
        Err(IoFault::NoMemory) => Err(Stop::NoMemory),
    }
}
