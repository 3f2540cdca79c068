//! Whether the content of a node counts what the contents of its children count together, along all finest ways.
ghost use Rattle.std.specs.Prelude.{◌≡◌, ◌↔◌, ◌<◌, ◌≤◌, length, IsTrue, IfOk};
ghost use Rattle.node_arena.specs.Slots.{IsNode, slot_of};
ghost use Rattle.shape_test.specs.Sharing.{SharesAt};
ghost use Rattle.shape_test.specs.Agreeing.{MergesFrom, MergesOver};
ghost use Rattle.shape_test.specs.Parts.{ArePartsIn, PartsAgree};
ghost use Rattle.shape_test.specs.Places.{IsSchemaPlace};
ghost use Rattle.shape_test.specs.Testable.{AreReadable};

use crate::parts::{
    Part, add_content, add_parts, are_same_slots, end_of_label, next_label, parts_under,
};
use crate::place::{Place, deepest, time_dim};
use crate::remainder::ends_merge;
use crate::rows::Room;
use cube_view::Schema;
use node_arena::{Arena, SlotId};
use probe_core::Steps;
use std::sync::ledger::Ledger;
use texts::NoMemory;

/// Whether a whole, which is a part or none, counts what parts count together, through the categories that are left.
/// It is gone down once with all of them, value by value, and nothing is looked at below a slot that is both.
fn sums_agree<L: Ledger>(
    room: &mut Room,
    arena: &Arena,
    whole: &[Part],
    parts: &[Part],
    left: u8,
    steps: &mut Steps<L>,
) -> Result<bool, NoMemory>
    requires one { length whole.now ≤ 1 }
    requires within { ArePartsIn arena.now whole.now × ArePartsIn arena.now parts.now }
    requires readable { AreReadable arena.now }
    ensures { IfOk result (λ r. IsTrue r ↔ PartsAgree arena.now whole.now parts.now left) }
{
    if are_same_slots(whole, parts) {
        return Ok(true);
    }
    if left == 0 {
        return ends_merge(&mut room.left, &mut room.rows, arena, whole, parts, steps);
    }
    let own = parts_under(room.alloc, arena, whole, steps)?;
    let below = parts_under(room.alloc, arena, parts, steps)?;
    let mut i = 0;
    let mut at = 0;
    let mut from = 0;
    while let Some(label) = next_label(own.as_slice(), i, below.as_slice(), at, from) {
        let own_end = end_of_label(own.as_slice(), i, label);
        let end = end_of_label(below.as_slice(), at, label);
        if !sums_agree(
            room,
            arena,
            &own[i..own_end],
            &below[at..end],
            left - 1,
            steps,
        )? {
            return Ok(false);
        }
        i = own_end;
        at = end;
        from = u16::from(label) + 1;
    }
    Ok(true)
}

/// Whether the content of a node counts, through the categories that are left, what the contents of its children count
/// together.
fn parts_agree<L: Ledger>(
    room: &mut Room,
    arena: &Arena,
    id: SlotId,
    left: u8,
    steps: &mut Steps<L>,
) -> Result<bool, NoMemory>
    requires in_range { id.0 < length arena.now }
    requires readable { AreReadable arena.now }
    ensures { IfOk result (λ r. IsTrue r ↔ MergesOver arena.now id.0 left) }
{
    let mut whole = Vec::new(room.alloc);
    let mut parts = Vec::new(room.alloc);
    add_content(&mut whole, arena, 0, id, steps)?;
    add_parts(&mut parts, arena, id, steps)?;
    sums_agree(room, arena, whole.as_slice(), parts.as_slice(), left, steps)
}

/// Whether the content of a node counts, through the categories that are left, what the contents of its children count
/// together. The content of an only child is the node's own, so nothing is counted there.
fn contents_merge<L: Ledger>(
    room: &mut Room,
    arena: &Arena,
    id: SlotId,
    left: u8,
    steps: &mut Steps<L>,
) -> Result<bool, NoMemory>
    requires in_range { id.0 < length arena.now }
    requires shares { SharesAt arena.now id.0 }
    requires readable { AreReadable arena.now }
    ensures { IfOk result (λ r. IsTrue r ↔ MergesOver arena.now id.0 left) }
{
    if arena.is_table(id) || arena.only_child(id).is_some() {
        return Ok(true);
    }
    parts_agree(room, arena, id, left, steps)
}

/// Whether along each finest way from a node at a place its content counts what the contents of its children count
/// together.
pub fn node_merges<L: Ledger>(
    room: &mut Room,
    schema: &Schema,
    arena: &Arena,
    id: SlotId,
    place: Place,
    steps: &mut Steps<L>,
) -> Result<bool, NoMemory>
    requires in_range { id.0 < length arena.now }
    requires placed { IsSchemaPlace schema.now place }
    requires shares { SharesAt arena.now id.0 }
    requires readable { AreReadable arena.now }
    ensures { IfOk result (λ r. IsTrue r ↔ MergesFrom schema.now arena.now id.0 place) }
{
    if place.level >= deepest(schema, place.dim) {
        return Ok(true);
    }
    contents_merge(room, arena, id, time_dim(schema) - place.dim - 1, steps)
}
