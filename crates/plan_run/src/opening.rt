//! The stages before the threads.
ghost use Rattle.std.specs.Prelude.{IfOk};
ghost use Rattle.std.specs.Result.{result_err};
ghost use Rattle.cube_schema.specs.Files.{NamesFiles};
ghost use Rattle.run_files.specs.Headed.{AreHeaded};
ghost use Rattle.run_files.specs.Outside.{at, file_of, of_place, of_sink};
ghost use Rattle.run_files.specs.Planned.{IsPlanOf};
ghost use Rattle.run_files.specs.Scripted.{AreScriptParts};
ghost use Rattle.plan_run.specs.Opening.{AreFit, AreReady, OpensFiles, OpensRun, plan_in};

use crate::parts::RunParts;
use crate::rooms::Rooms;
use crate::seating::seat_parts;
use cube_schema::Plan;
use feed_reader::FeedJob;
use outer_io::{LineCutter, Place, Sink};
use run_files::{ScriptParts, Stop, give_back_feeds, load_plan, open_feeds, open_scripts};
use std::alloc::Global;
use texts::List;

/// The feeds of a plan with their headers read, and then its scripts with their outputs; or how the run ends, with all
/// given back.
fn open_files<P: Place, O: Sink>(
    alloc: Global,
    plan: &Plan,
    place: &mut P,
    out: &mut O,
) -> Result<(List<FeedJob<P::In>>, ScriptParts<LineCutter<P::In>, P::Out>), Stop>
    ensures opens { OpensFiles (of_place P.Place) (of_sink O.Sink) (at place.old out.old) (at place.new out.new) plan.now (result_err result) }
    ensures feeds { IfOk result (λ files. AreHeaded P.In.left P.In.faults plan.now.schema (P.files place.old) plan.now.feeds files.0) }
    ensures scripts { IfOk result (λ files. AreScriptParts P.In.left P.In.faults (of_sink P.Out.Sink) (P.files place.old) plan.now files.1) }
{
    let feeds = open_feeds(alloc, &plan.schema, plan.feeds.as_slice(), place, out)?;
    match open_scripts(alloc, plan, place) {
        Ok(scripts) => Ok((feeds, scripts)),
        Err(stop) => {
            give_back_feeds(place, feeds.into_vec());
            Err(stop)
        }
    }
}

/// The parts of a run of a plan, for which room is taken first; or how the run ends, with all given back.
fn open_parts<P: Place, O: Sink>(
    alloc: Global,
    plan: &Plan,
    place: &mut P,
    out: &mut O,
) -> Result<RunParts<P::In, P::Out>, Stop>
    requires { NamesFiles plan.now }
    ensures opens { OpensFiles (of_place P.Place) (of_sink O.Sink) (at place.old out.old) (at place.new out.new) plan.now (result_err result) }
    ensures ready { IfOk result (AreReady P.In.left P.In.faults (of_sink P.Out.Sink) (P.files place.old) plan.now) }
    ensures fit { IfOk result (AreFit plan.now.schema) }
{
    let mut rooms = Rooms::new(alloc);
    if let Err(_) = rooms.reserve(plan.asks.len(), plan.finals.len()) {
        rooms.let_go();
        return Err(Stop::NoMemory);
    }
    match open_files(alloc, plan, place, out) {
        Ok((feeds, scripts)) => Ok(seat_parts(alloc, feeds, scripts, rooms)),
        Err(stop) => {
            rooms.let_go();
            Err(stop)
        }
    }
}

/// Opens the plan of that name, its feeds and its scripts, and creates its outputs, each in order; or says how the run
/// ends, by the first trouble, with all parts given back. Of a plan or a header that is refused one line is put.
pub(crate) fn open_run<P: Place, O: Sink>(
    alloc: Global,
    name: &str,
    place: &mut P,
    out: &mut O,
) -> Result<(Plan, RunParts<P::In, P::Out>), Stop>
    ensures opens { OpensRun (of_place P.Place) (of_sink O.Sink) (at place.old out.old) (at place.new out.new) name.now (plan_in result) (result_err result) }
    ensures plan { IfOk result (λ run. IsPlanOf (file_of (P.files place.old) name.now) run.0) }
    ensures ready { IfOk result (λ run. AreReady P.In.left P.In.faults (of_sink P.Out.Sink) (P.files place.old) run.0 run.1) }
    ensures fit { IfOk result (λ run. AreFit run.0.schema run.1) }
{
    let plan = load_plan(alloc, name, place, out)?;
    let parts = open_parts(alloc, &plan, place, out)?;
    Ok((plan, parts))
}
