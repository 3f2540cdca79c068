//! Single looks at a slot: whether a table has a row, and where a step leads.
ghost use Rattle.std.specs.Prelude.{◌≡◌, ◌↔◌, ◌<◌, length, IsTrue};
ghost use Rattle.node_arena.specs.Slots.{IsTable, link_of, slot_of};
ghost use Rattle.shape_test.specs.Filled.{HasRow};
ghost use Rattle.shape_test.specs.Homes.{step_of};

use crate::home::Move;
use node_arena::{Arena, Link, SlotId};
use probe_core::Steps;
use std::sync::ledger::Ledger;

/// Whether a table has a row.
pub fn has_row<L: Ledger>(arena: &Arena, id: SlotId, steps: &mut Steps<L>) -> bool
    requires in_range { id.0 < length arena.now }
    requires is_table { IsTable (slot_of arena.now id.0) }
    ensures { IsTrue result ↔ HasRow arena.now id.0 }
{
    !arena.table(id, steps).is_empty()
}

/// Whether a slot is a table that has a row.
pub fn counts_any<L: Ledger>(arena: &Arena, id: SlotId, steps: &mut Steps<L>) -> bool
    requires { id.0 < length arena.now }
    ensures { IsTrue result ↔ HasRow arena.now id.0 }
{
    if !arena.is_table(id) {
        return false;
    }
    has_row(arena, id, steps)
}

/// The link that a step goes along.
pub fn link_along<L: Ledger>(
    arena: &Arena,
    id: SlotId,
    step: Move,
    steps: &mut Steps<L>,
) -> Option<Link>
    requires { id.0 < length arena.now }
    ensures { result ≡ link_of arena.now id.0 (step_of step) }
{
    if arena.is_table(id) {
        return None;
    }
    match step {
        Move::Down(label) => arena.child(id, label, steps),
        Move::Across => arena.content(id, steps),
    }
}
