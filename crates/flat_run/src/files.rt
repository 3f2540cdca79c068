//! A script answered over the records of a plan's feeds, from files.
ghost use Rattle.flat_run.specs.Ends.{FlatEnds};
ghost use Rattle.flat_run.specs.Names.{flat_names};
ghost use Rattle.run_files.specs.Outside.{at, of_place, of_sink};

use crate::answering::answer_named;
use crate::reading::read_points;
use flat_view::FlatView;
use outer_io::{Place, Sink};
use run_files::{Stop, load_plan, open_feeds};
use std::alloc::Global;
use std::mem;
use std::thread::Threads;

/// The names of the two files.
#[derive(Clone, Copy)]
pub struct FlatNames<'a> {
    pub plan: &'a str,
    pub script: &'a str,
}

/// Answers the script over the records of the plan's feeds. The plan is read first, then the header of each feed, and
/// then all feeds in the plan's order, before the script is opened; nothing is created. The first trouble ends the run:
/// a plan or a feed that is refused has its line, and a feed or a script of more than 2^30 bytes is refused without
/// one.
pub fn flat_files<R: Threads, P: Place, O: Sink>(
    rt: &R,
    alloc: Global,
    names: &FlatNames<'_>,
    place: &mut P,
    out: &mut O,
) -> Result<(), Stop>
    ensures { FlatEnds (of_place P.Place) (of_sink O.Sink) (at place.old out.old) (at place.new out.new) (flat_names names.now) result }
{
    let plan = load_plan(alloc, names.plan, place, out)?;
    let feeds = open_feeds(alloc, &plan.schema, plan.feeds.as_slice(), place, out)?;
    let points = read_points(alloc, &plan.schema, feeds, place)?;
    let view = FlatView::new(plan.schema, points.into_vec());
    let answered = answer_named(rt, alloc, &view, names.script, place, out);
    // The system takes the memory back as the program ends, at once.
    mem::forget(view);
    answered
}
