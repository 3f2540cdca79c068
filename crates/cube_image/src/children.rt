//! How many children a node has.
ghost use Rattle.std.specs.Prelude.{◌≡◌, ◌<◌, ◌≤◌, length};
ghost use Rattle.node_arena.specs.Slots.{IsNode, slot_of, children_of};
ghost use Rattle.cube_image.specs.Rest.{told_children};

use node_arena::{Arena, SlotId};

/// How many children a node has: at most 256. The label that it reads tells that all labels are bytes: none is greater
/// than the last.
pub fn child_count(arena: &Arena, id: SlotId) -> usize
    requires in_range { id.0 < length arena.now }
    requires is_node { IsNode (slot_of arena.now id.0) }
    ensures count { result ≡ length (told_children arena.now id.0) }
    ensures few { result ≤ 256 }
    ensures all { told_children arena.now id.0 ≡ children_of (slot_of arena.now id.0) }
{
    let count = arena.child_count(id);
    if count == 0 {
        return 0;
    }
    let (_label, _) = arena.child_at(id, count - 1);
    count
}
