//! Whether a node shares what it has to.
ghost use Rattle.std.specs.Prelude.{◌≡◌, ◌↔◌, ◌<◌, ◌==◌, ◌&&◌, not, length, IsTrue};
ghost use Rattle.node_arena.specs.Slots.{IsNode, slot_of, target};
ghost use Rattle.node_arena.specs.Stats.{is_proper};
ghost use Rattle.shape_test.specs.Sharing.{SharesAt, LeadsWithin};

use node_arena::{Arena, Link, SlotId};
use probe_core::Steps;
use std::sync::ledger::Ledger;

/// Whether a node shares its child's content, if it has one child.
pub fn shares_only<L: Ledger>(arena: &Arena, id: SlotId, steps: &mut Steps<L>) -> bool
    requires in_range { id.0 < length arena.now }
    requires is_node { IsNode (slot_of arena.now id.0) }
    requires within { LeadsWithin arena.now }
    ensures { IsTrue result ↔ SharesAt arena.now id.0 }
{
    let Some(child) = arena.only_child(id) else {
        return true;
    };
    if arena.is_table(child.to) {
        return false;
    }
    let Some(below) = arena.content(child.to, steps) else {
        return false;
    };
    match arena.content(id, steps) {
        Some(own) => is_shared_with(own, below),
        None => false,
    }
}

/// Whether a link is shared and leads where another does.
fn is_shared_with(own: Link, other: Link) -> bool
    ensures { result ≡ (not (is_proper own) && (target own == target other)) }
{
    !own.is_proper() && own.to.0 == other.to.0
}
