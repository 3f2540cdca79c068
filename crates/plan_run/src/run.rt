//! A run from its plan to its report.
ghost use Rattle.std.specs.Prelude.{◌≡◌, ◌≤◌, ◌+◌, [], IfOk, IfErr};
ghost use Rattle.cube_crew.specs.Begins.{MayRun};
ghost use Rattle.cube_crew.specs.Crewed.{IsCrewed};
ghost use Rattle.cube_store.specs.Numbers.{OwnsAllButRoot};
ghost use Rattle.live_session.specs.State.{ends_of};
ghost use Rattle.run_files.specs.Outside.{at, of_parts, of_place, of_sink};
ghost use Rattle.plan_run.specs.Ends.{RunEnds};
ghost use Rattle.plan_run.specs.Parts.{RunsParts};
ghost use Rattle.plan_run.specs.Opening.{AreFit};

use crate::closing::close_run;
use crate::cubes::empty_cubes;
use crate::opening::open_run;
use crate::parts::RunParts;
use crate::unrun::give_back_unrun;
use cube_crew::{Crewed, Jobs, run_crew};
use cube_schema::Plan;
use cube_view::Schema;
use feed_queue::journal_laws;
use feed_reader::accepted_laws;
use outer_io::{Place, Sink, Source};
use run_files::Stop;
use std::alloc::Global;
use std::sync::Wait;
use std::thread::Threads;
use texts::NoMemory;

/// Runs the jobs over two empty cubes. Where that finds no memory to begin with, they come back as they were.
fn run_jobs<R: Threads + Wait + Sync, I: Source + Send, O: Sink + Send>(
    rt: &R,
    alloc: Global,
    schema: &Schema,
    jobs: Jobs<I, O>,
) -> Result<Crewed<I, O>, Jobs<I, O>>
    requires { MayRun schema.now jobs }
    ensures crewed { IfOk result (IsCrewed (ends_of I.Source O.Sink) OwnsAllButRoot schema.now jobs) }
    ensures back { IfErr result (λ back. back ≡ jobs) }
{
    match empty_cubes(alloc, schema) {
        Ok((first, again)) => run_crew(rt, alloc, first, again, jobs),
        Err(NoMemory) => Err(jobs),
    }
}

/// Runs the opened parts and closes the run, or gives them back where they cannot begin for want of memory.
fn run_parts<R: Threads + Wait + Sync, P: Place, O: Sink>(
    rt: &R,
    alloc: Global,
    plan: &Plan,
    parts: RunParts<P::In, P::Out>,
    place: &mut P,
    out: &mut O,
) -> Result<(), Stop>
    requires { AreFit plan.now.schema parts }
    ensures { RunsParts (of_parts P.Place P.In.Source P.Out.Sink) (of_sink O.Sink) plan.now parts (at place.old out.old) (at place.new out.new) result }
{
    let RunParts {
        jobs,
        journal,
        room,
    } = parts;
    match run_jobs(rt, alloc, &plan.schema, jobs) {
        Ok(crewed) => close_run(alloc, plan, crewed, journal, room, place, out),
        Err(jobs) => {
            let parts = RunParts {
                jobs,
                journal,
                room,
            };
            give_back_unrun(place, parts);
            Err(Stop::NoMemory)
        }
    }
}

/// Runs the plan of that name over a place: opens its feeds and scripts and creates its outputs, loads the feeds by
/// threads while the asks are answered, answers the finals over all that was loaded, writes the journal, gives every
/// part back, and puts the report on `out`. A refused plan or header is one line on `out`. The end is the first cause
/// in the order of [`Stop`].
pub fn run_plan<R: Threads + Wait + Sync, P: Place, O: Sink>(
    rt: &R,
    alloc: Global,
    name: &str,
    place: &mut P,
    out: &mut O,
) -> Result<(), Stop>
    ensures { RunEnds (of_place P.Place) (of_sink O.Sink) (at place.old out.old) (at place.new out.new) name.now result }
{
    journal_laws();
    accepted_laws();
    let (plan, parts) = open_run(alloc, name, place, out)?;
    run_parts(rt, alloc, &plan, parts, place, out)
}
