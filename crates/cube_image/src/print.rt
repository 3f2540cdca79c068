//! The slots of an image as bytes.
ghost use Rattle.std.specs.Prelude.{◌≡◌, ◌<◌, ◌≤◌, ◌++◌, length, OnOk, Err, All};
ghost use Rattle.std.specs.List.{flat_map};
ghost use Rattle.node_arena.specs.Slots.{IsNode, slot_of, children_of, target};
ghost use Rattle.cube_image.specs.Bytes.{kind_byte, link_bytes, child_bytes, row_bytes, table_bytes, slot_bytes};
ghost use Rattle.cube_image.specs.Conditions.{CanPut};
ghost use Rattle.cube_image.specs.Image.{most_bytes};
ghost use Rattle.cube_image.specs.Order.{order_number, moved, moved_child, moved_link, in_order};
ghost use Rattle.cube_image.specs.Rest.{word_rows, told_children};

use crate::ahead::make_room;
use crate::bytes::{put_labelled, put_marked, put_pair, put_short};
use crate::children::child_count;
use crate::fault::SaveFault;
use crate::order::Order;
use crate::rows::read_rows;
use node_arena::{Arena, Link, SlotId};
use probe_core::Steps;
use std::alloc::Global;
use std::sync::ledger::Ledger;
use texts::{NoMemory, put_byte};
use time_table::TimeTable;

/// The most bytes that an image has.
pub const MOST_BYTES: u64 = 1 << 30;

/// Puts all slots in their order. `TooLong` comes exactly where there are more than 2^30 bytes then, unless memory was
/// wanted before.
pub fn put_slots<L: Ledger>(
    alloc: Global,
    out: &mut Vec<u8>,
    arena: &Arena,
    order: &Order,
    steps: &mut Steps<L>,
) -> Result<(), SaveFault>
    requires within { All (λ i. i < length arena.now) order.now.places }
    requires able { CanPut arena.now order.now.numbers.items }
    requires few { length out.old.items ≤ most_bytes }
    ensures put { OnOk result (out.new.items ≡ out.old.items ++ flat_map slot_bytes (in_order arena.now order.now.places)) }
    ensures fits { OnOk result (length out.new.items ≤ most_bytes) }
    ensures too_long { result ≡ Err SaveFault.TooLong → most_bytes < length (out.old.items ++ flat_map slot_bytes (in_order arena.now order.now.places)) }
{
    let mut rows = Vec::new(alloc);
    let count = order.places.len();
    for i in 0..count {
        make_room(out, arena, order.places.as_slice(), i)?;
        let place = *order.places.get(i);
        put_slot(out, arena, SlotId(place), order, &mut rows, steps)?;
        let size = out.len() as u64;
        if size > MOST_BYTES {
            return Err(SaveFault::TooLong);
        }
    }
    Ok(())
}

/// Puts a slot. The rows of a time table are read into a list that is there.
fn put_slot<L: Ledger>(
    out: &mut Vec<u8>,
    arena: &Arena,
    id: SlotId,
    order: &Order,
    rows: &mut Vec<(u32, u64)>,
    steps: &mut Steps<L>,
) -> Result<(), NoMemory>
    requires in_range { id.0 < length arena.now }
    requires able { CanPut arena.now order.now.numbers.items }
    ensures { OnOk result (out.new.items ≡ out.old.items ++ slot_bytes (moved order.now.places (slot_of arena.now id.0))) }
{
    if arena.is_table(id) {
        put_table(out, arena.table(id, steps), rows, steps)
    } else {
        put_node(out, arena, id, order, steps)
    }
}

/// Puts a node: its number of children, the children, and the content or a 0.
fn put_node<L: Ledger>(
    out: &mut Vec<u8>,
    arena: &Arena,
    id: SlotId,
    order: &Order,
    steps: &mut Steps<L>,
) -> Result<(), NoMemory>
    requires in_range { id.0 < length arena.now }
    requires is_node { IsNode (slot_of arena.now id.0) }
    requires able { CanPut arena.now order.now.numbers.items }
    ensures { OnOk result (out.new.items ≡ out.old.items ++ slot_bytes (moved order.now.places (slot_of arena.now id.0))) }
{
    let count = child_count(arena, id);
    put_short(out, 1, count as u16)?;
    put_children(out, arena, id, count, order)?;
    match arena.content(id, steps) {
        Some(link) => put_link(out, link, order),
        None => put_byte(out, 0),
    }
}

/// Puts the children of a node, which are so many.
fn put_children(
    out: &mut Vec<u8>,
    arena: &Arena,
    id: SlotId,
    count: usize,
    order: &Order,
) -> Result<(), NoMemory>
    requires in_range { id.0 < length arena.now }
    requires is_node { IsNode (slot_of arena.now id.0) }
    requires count { count ≡ length (told_children arena.now id.0) }
    requires all { told_children arena.now id.0 ≡ children_of (slot_of arena.now id.0) }
    requires able { CanPut arena.now order.now.numbers.items }
    ensures { OnOk result (out.new.items ≡ out.old.items ++ flat_map (λ c. child_bytes (moved_child order.now.places c)) (told_children arena.now id.0)) }
{
    for i in 0..count {
        let (label, link) = arena.child_at(id, i);
        put_child(out, label, link, order)?;
    }
    Ok(())
}

/// Puts a child: its label and its link.
fn put_child(out: &mut Vec<u8>, label: u8, link: Link, order: &Order) -> Result<(), NoMemory>
    requires { target link < length order.now.numbers.items }
    ensures { OnOk result (out.new.items ≡ out.old.items ++ child_bytes (moved_child order.now.places (label, link))) }
{
    put_labelled(out, label, kind_of(link), number_of(link, order))
}

/// Puts a link, which leads to a place in the order.
fn put_link(out: &mut Vec<u8>, link: Link, order: &Order) -> Result<(), NoMemory>
    requires { target link < length order.now.numbers.items }
    ensures { OnOk result (out.new.items ≡ out.old.items ++ link_bytes (moved_link order.now.places link)) }
{
    put_marked(out, kind_of(link), number_of(link, order))
}

/// The byte for the kind of a link.
fn kind_of(link: Link) -> u8
    ensures { result ≡ kind_byte link.kind }
{
    if link.is_proper() { 1 } else { 2 }
}

/// Where the target of a link stands in the order.
fn number_of(link: Link, order: &Order) -> u64
    requires { target link < length order.now.numbers.items }
    ensures { result ≡ order_number order.now.places (target link) }
{
    order.numbers[link.to.0 as usize] as u64
}

/// Puts a time table: its number of rows, and the rows.
fn put_table<L: Ledger>(
    out: &mut Vec<u8>,
    table: &TimeTable,
    rows: &mut Vec<(u32, u64)>,
    steps: &mut Steps<L>,
) -> Result<(), NoMemory>
    ensures { OnOk result (out.new.items ≡ out.old.items ++ table_bytes (word_rows table.now)) }
{
    read_rows(rows, table, steps)?;
    put_marked(out, 2, rows.len() as u64)?;
    put_rows(out, rows)
}

/// Puts rows.
fn put_rows(out: &mut Vec<u8>, rows: &[(u32, u64)]) -> Result<(), NoMemory>
    ensures { OnOk result (out.new.items ≡ out.old.items ++ flat_map row_bytes rows.now) }
{
    for row in rows {
        put_pair(out, row.0, row.1)?;
    }
    Ok(())
}
