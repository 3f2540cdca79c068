//! The feeders and the builder on one thread, in turn.
ghost use Rattle.std.specs.Prelude.{true, All};
ghost use Rattle.std.specs.List.{AllZip};
ghost use Rattle.builder_core.specs.Built.{HasBuilt, IsBuilt, IsNewWork};
ghost use Rattle.crew_feeder.specs.Leaving.{HasFed};
ghost use Rattle.crew_feeder.specs.Taking.{IsReady};

use crate::opening::ROOM;
use builder_core::BuilderWork;
use crew_feeder::FeedWork;
use cube_view::{Grow, Schema};
use ghost_values::GhostValue;
use outer_io::Source;
use std::alloc::Global;
use std::sync::Wait;

/// How many lines a feeder takes in a turn. Its lane is empty then, and has room for an item of each and for the End.
const LINES: usize = ROOM - 1;

/// Runs one feeder after the other, in turn with the builder, which draws all that is queued before a feeder goes on.
/// So none of them waits for another.
pub(crate) fn run_in_turn<R: Wait, V: Grow, I: Source>(
    rt: &R,
    alloc: Global,
    schema: &Schema,
    works: &mut [FeedWork<I>],
    building: &mut BuilderWork<V>,
)
    requires ready { All (IsReady schema.now) works.old }
    requires new { IsNewWork building.old }
    ensures feeds { AllZip (HasFed I.left I.faults true) works.old works.new }
    ensures building { IsBuilt building.old building.new }
{
    let start = building.begun();
    for work in works.iter_mut() {
        run_feeder(rt, alloc, schema, work, building, &start);
    }
    building.run_rest(rt, &start);
}

/// Runs a feeder to its end, in turn with the builder, whose run began with a work as the carried one.
fn run_feeder<R: Wait, V: Grow, I: Source>(
    rt: &R,
    alloc: Global,
    schema: &Schema,
    work: &mut FeedWork<I>,
    building: &mut BuilderWork<V>,
    start: &GhostValue<BuilderWork<V>>,
)
    requires ready { IsReady schema.now work.old }
    requires building { HasBuilt start.now.value building.old }
    ensures fed { HasFed I.left I.faults true work.old work.new }
    ensures building { HasBuilt start.now.value building.new }
{
    let begun = work.begun(schema);
    for _ in rt.forever() {
        let ended = work.run_some(rt, alloc, schema, LINES, &begun);
        building.run_some(rt, start);
        if ended {
            return;
        }
    }
    unreachable!()
}
