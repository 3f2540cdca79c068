//! The children of a node, one after another.
ghost use Rattle.std.specs.Prelude.{◌≡◌, ◌+◌, ◌<◌, ◌≤◌, length, IfSome, MatchOption};
ghost use Rattle.probe_core.specs.Places.{IsPlace};
ghost use Rattle.node_arena.specs.Slots.{IsNode, IsRising, child_label, children_of, slot_of};
ghost use Rattle.shape_test.specs.Links.{HasSmallLabels, IsFirstLink, NoneFrom};

use node_arena::{Arena, Link, SlotId};

/// The first child from a label on, which stands at a place among so many children. The label is for contracts alone.
pub fn first_child(
    arena: &Arena,
    id: SlotId,
    count: usize,
    i: usize,
    from: u16,
) -> Option<(u8, Link)>
    requires in_range { id.0 < length arena.now }
    requires is_node { IsNode (slot_of arena.now id.0) }
    requires labels { HasSmallLabels arena.now }
    requires count { count ≡ length (children_of (slot_of arena.now id.0)) }
    requires in_order { IsRising (children_of (slot_of arena.now id.0)) }
    requires place { IsPlace child_label from (children_of (slot_of arena.now id.0)) i }
    ensures child { MatchOption result (NoneFrom arena.now id.0 from) (IsFirstLink arena.now id.0 from) }
    ensures place { IfSome result (λ c. IsPlace child_label (c.0 + 1) (children_of (slot_of arena.now id.0)) (i + 1)) }
{
    if i >= count {
        return None;
    }
    Some(arena.child_at(id, i))
}
