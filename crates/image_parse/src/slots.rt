//! Slots at the front of bytes.
ghost use Rattle.std.specs.Prelude.{◌≡◌, ◌<◌, ◌≤◌, IfOk, OnOk};
ghost use Rattle.std.specs.FinMap.{from_sorted};
ghost use Rattle.time_table.specs.Rows.{AreRows};
ghost use Rattle.node_arena.specs.Slots.{node, table};
ghost use Rattle.image_parse.specs.Reading.{children_at, node_at, row_at, table_rows_at, table_at, slot_at};
ghost use Rattle.image_parse.specs.Views.{Gives, AreImageChildren, IsParsed, slot_parsed};

use crate::fault::ImageParseFault;
use crate::links::{take_child, take_content};
use crate::numbers::{take_byte, take_u16, take_u32, take_u64};
use node_arena::Link;

/// Lists for the children and the rows of a slot, kept from slot to slot so that no slot takes memory for what is read.
#[derive(Drop)]
pub struct Room {
    pub children: Vec<(u8, Link)>,
    pub rows: Vec<(u32, u64)>,
}

/// A slot: a node with its content, or a table. Its children in rising order of label, or its rows in rising order of
/// bin, are in a room.
#[derive(Clone, Copy)]
pub enum ParsedSlot {
    Node(Option<Link>),
    Table,
}

/// So many children, in rising order of label, in place of what a list had.
fn take_children<'a>(
    children: &mut Vec<(u8, Link)>,
    bytes: &'a [u8],
    slots: u32,
    next: &mut u32,
    count: u16,
) -> Result<&'a [u8], ImageParseFault>
    ensures read { Gives (λ x. (children.new.items, next.new, x.now)) result (children_at count slots 0 next.old bytes.now) }
    ensures fits { OnOk result (AreImageChildren children.new.items) }
{
    children.clear();
    let mut rest = bytes;
    let mut from = 0;
    for _ in 0..count {
        let (child, after) = take_child(rest, slots, next, from)?;
        children.push(child)?;
        from = u16::from(child.0) + 1;
        rest = after;
    }
    Ok(rest)
}

/// The content of a node, whose kind was taken, and its children in place of what a list had.
#[tactic(auto, unfolding(crate::specs::Reading::node_at))]
fn take_node<'a>(
    children: &mut Vec<(u8, Link)>,
    bytes: &'a [u8],
    slots: u32,
    next: &mut u32,
) -> Result<(Option<Link>, &'a [u8]), ImageParseFault>
    ensures read { Gives (λ x. (node children.new.items x.0, next.new, x.1.now)) result (node_at slots next.old bytes.now) }
    ensures fits { OnOk result (AreImageChildren children.new.items) }
{
    let (count, rest) = take_u16(bytes)?;
    let rest = take_children(children, rest, slots, next, count)?;
    take_content(rest, slots, next)
}

/// A row whose bin is `from` or later, and whose count isn't 0.
#[tactic(auto, unfolding(crate::specs::Reading::row_at))]
fn take_row(bytes: &[u8], from: u64) -> Result<((u32, u64), &[u8]), ImageParseFault>
    ensures { Gives (λ x. (x.0, x.1.now)) result (row_at from bytes.now) }
{
    let (bin, rest) = take_u32(bytes)?;
    let (count, rest) = take_u64(rest)?;
    if u64::from(bin) < from || count == 0 {
        return Err(ImageParseFault::NotImage);
    }
    Ok(((bin, count), rest))
}

/// So many rows, in rising order of bin, in place of what a list had.
fn take_rows<'a>(
    rows: &mut Vec<(u32, u64)>,
    bytes: &'a [u8],
    count: u64,
) -> Result<&'a [u8], ImageParseFault>
    ensures read { Gives (λ x. (rows.new.items, x.now)) result (table_rows_at count 0 bytes.now) }
    ensures fits { OnOk result (AreRows 0 rows.new.items) }
{
    rows.clear();
    let mut rest = bytes;
    let mut from = 0;
    for _ in 0..count {
        let (row, after) = take_row(rest, from)?;
        rows.push(row)?;
        from = u64::from(row.0) + 1;
        rest = after;
    }
    Ok(rest)
}

/// The rows of a table, whose kind was taken, in place of what a list had.
#[tactic(auto, unfolding(crate::specs::Reading::table_at))]
fn take_table<'a>(rows: &mut Vec<(u32, u64)>, bytes: &'a [u8]) -> Result<&'a [u8], ImageParseFault>
    ensures read { Gives (λ x. (table (from_sorted rows.new.items), x.now)) result (table_at bytes.now) }
    ensures fits { OnOk result (AreRows 0 rows.new.items) }
{
    let (count, rest) = take_u64(bytes)?;
    take_rows(rows, rest, count)
}

/// A slot.
#[tactic(auto, unfolding(crate::specs::Reading::slot_at))]
pub fn take_slot<'a>(
    room: &mut Room,
    bytes: &'a [u8],
    slots: u32,
    next: &mut u32,
) -> Result<(ParsedSlot, &'a [u8]), ImageParseFault>
    ensures read { Gives (λ x. (slot_parsed room.new x.0, next.new, x.1.now)) result (slot_at slots next.old bytes.now) }
    ensures fits { IfOk result (λ x. IsParsed room.new x.0) }
{
    let (kind, rest) = take_byte(bytes)?;
    match kind {
        1 => {
            let (content, rest) = take_node(&mut room.children, rest, slots, next)?;
            Ok((ParsedSlot::Node(content), rest))
        }
        2 => {
            let rest = take_table(&mut room.rows, rest)?;
            Ok((ParsedSlot::Table, rest))
        }
        _ => Err(ImageParseFault::NotImage),
    }
}
