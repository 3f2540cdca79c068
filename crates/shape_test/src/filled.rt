//! Whether a node has the links that each node of a cube has.
ghost use Rattle.std.specs.Prelude.{◌≡◌, ◌↔◌, ◌<◌, ◌==◌, ◌&&◌, ◌||◌, not, length, IsTrue};
ghost use Rattle.node_arena.specs.Slots.{IsNode, slot_of};
ghost use Rattle.shape_test.specs.Filled.{HasChild, IsFilledNode};
ghost use Rattle.shape_test.specs.Links.{HasSmallLabels};

use crate::children::first_child;
use node_arena::{Arena, SlotId};
use probe_core::Steps;
use std::sync::ledger::Ledger;

/// Whether a node has a content and, above its deepest level, a child; or is a root without links.
pub fn is_filled<L: Ledger>(
    arena: &Arena,
    id: SlotId,
    is_deepest: bool,
    steps: &mut Steps<L>,
) -> bool
    requires in_range { id.0 < length arena.now }
    requires is_node { IsNode (slot_of arena.now id.0) }
    requires labels { HasSmallLabels arena.now }
    ensures { IsTrue result ↔ IsFilledNode arena.now id.0 is_deepest }
{
    let has_child = has_child(arena, id);
    match arena.content(id, steps) {
        Some(_) => has_enough(is_deepest, has_child),
        None => is_bare_root(id, has_child),
    }
}

/// Whether a node has a child.
fn has_child(arena: &Arena, id: SlotId) -> bool
    requires in_range { id.0 < length arena.now }
    requires is_node { IsNode (slot_of arena.now id.0) }
    requires labels { HasSmallLabels arena.now }
    ensures { IsTrue result ↔ HasChild arena.now id.0 }
{
    match first_child(arena, id, arena.child_count(id), 0, 0) {
        Some(_) => true,
        None => false,
    }
}

/// Whether a node with a content has a child, if it needs one.
fn has_enough(is_deepest: bool, has_child: bool) -> bool
    ensures { result ≡ (is_deepest || has_child) }
{
    is_deepest || has_child
}

/// Whether a node without a content is a root without links.
fn is_bare_root(id: SlotId, has_child: bool) -> bool
    ensures { result ≡ ((id.0 == 0) && not has_child) }
{
    id.0 == 0 && !has_child
}
