//! Runs of the machine.
ghost use Rattle.std.specs.Prelude.{◌≡◌, ◌<◌, ◌≤◌, ◌^◌, length, All, IfOk, IsTrue};
ghost use Rattle.cube_view.specs.Validity.{valid};
ghost use Rattle.world_core.specs.Machine.{world_of};
ghost use Rattle.world_core.specs.Worlds.{KeepsOrder, LooksAreFresh};

use crate::machine::Machine;
use crate::{Event, World};
use cube_view::{Point, Schema};
use std::alloc::Global;
use texts::{List, NoMemory};

/// The world that the events make of the feeds, where the queue has so much room and there are so many
/// sessions. An event that isn't possible is noted by its number, from 0. `NoMemory` where the parts of
/// the world find no room.
pub fn run(
    alloc: Global,
    schema: &Schema,
    feeds: &[List<Point>],
    room: u32,
    sessions: u32,
    events: &[Event],
) -> Result<World, NoMemory>
    requires few { (1 ≤ length feeds.now) × (length feeds.now ≤ 8) }
    requires short { All (λ feed. length feed < 2 ^ 32) feeds.now }
    requires valid { All (All (λ p. IsTrue (valid schema.now p))) feeds.now }
    ensures world { IfOk result (λ world. world ≡ world_of schema.now feeds.now room sessions events.now) }
    ensures order { IfOk result (λ world. KeepsOrder feeds.now sessions world) }
    ensures looks { IfOk result (λ world. LooksAreFresh schema.now feeds.now room sessions events.now world) }
{
    let mut machine = Machine::new(alloc, feeds, sessions)?;
    for (number, event) in events.iter().enumerate() {
        machine.take_event(alloc, schema, feeds, room, number as u64, event)?;
    }
    machine.into_world(alloc)
}
