//! One step of a trail.
ghost use Rattle.std.specs.Prelude.{◌≡◌, ◌<◌, ◌+◌, ◌≤◌, length, IfOk, Some, None};
ghost use Rattle.cube_view.specs.Walks.{down};
ghost use Rattle.node_arena.specs.Slots.{IsNode, slot_of};
ghost use Rattle.proper_path.specs.Stepped.{IsStepped, LeadsInside, KeepsRoom};

use arena_undo::Work;
use node_arena::{Link, SlotId};
use probe_core::Steps;
use std::sync::ledger::Ledger;
use texts::NoMemory;

/// The child of a label is made the node's own, and given. For want of memory the changes so far are recorded.
pub fn step_down<L: Ledger>(
    work: &mut Work,
    at: SlotId,
    label: u8,
    steps: &mut Steps<L>,
) -> Result<SlotId, NoMemory>
    requires room { work.old.made + 2 ≤ work.old.room }
    requires in_range { at.0 < length work.old.slots }
    requires is_node { IsNode (slot_of work.old.slots at.0) }
    requires inside { LeadsInside work.old.slots at.0 (down label) }
    ensures stepped { IfOk result (λ to. IsStepped work.old.slots at.0 (down label) to.0 work.new.slots) }
    ensures changes { KeepsRoom 2 work.old work.new }
{
    match work.child(at, label, steps) {
        Some(link) => {
            if link.is_proper() {
                return Ok(link.to);
            }
            let copy = work.copy_slot(link.to)?;
            work.set_child(at, label, Link::proper(copy));
            Ok(copy)
        }
        None => {
            let to = work.add_node()?;
            work.put_child(at, label, Link::proper(to))?;
            Ok(to)
        }
    }
}
