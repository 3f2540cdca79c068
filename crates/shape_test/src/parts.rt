//! The contents of children, looked at as the parts of a whole.
ghost use Rattle.std.specs.Prelude.{◌≡◌, ◌++◌, ◌<◌, ◌≤◌, ◌↔◌, ◌+◌, length, map, IsTrue, IfOk, OnOk, option_to_list, slice_index_or, MatchOption};
ghost use Rattle.std.specs.List.Sorted.{IsNonDecreasingBy, IsPermutation};
ghost use Rattle.probe_core.specs.Places.{IsPlace};
ghost use Rattle.node_arena.specs.Slots.{IsRising, children_of, slot_of};
ghost use Rattle.shape_test.specs.Sharing.{LeadsWithin};
ghost use Rattle.shape_test.specs.Parts.{ArePartsIn, AreUnder, HaveCome, IsLeastLabel, content_part, part_label, part_slot, parts_of};

use crate::counts::link_along;
use crate::home::Move;
use node_arena::{Arena, SlotId};
use probe_core::Steps;
use std::alloc::Global;
use std::sync::ledger::Ledger;
use texts::NoMemory;

/// A content that a whole is made of, and the label of the child whose content it is.
#[derive(Clone, Copy)]
pub struct Part {
    pub label: u8,
    pub content: SlotId,
}

/// Adds the content of a slot at the end, if it has one.
pub fn add_content<L: Ledger>(
    parts: &mut Vec<Part>,
    arena: &Arena,
    label: u8,
    id: SlotId,
    steps: &mut Steps<L>,
) -> Result<(), NoMemory>
    requires { id.0 < length arena.now }
    ensures { OnOk result (parts.new.items ≡ parts.old.items ++ option_to_list (content_part arena.now label id.0)) }
{
    let Some(link) = link_along(arena, id, Move::Across, steps) else {
        return Ok(());
    };
    parts.push(Part {
        label,
        content: link.to,
    })?;
    Ok(())
}

/// Adds the contents of a slot's children at the end, in rising order of label: a table has none.
pub fn add_parts<L: Ledger>(
    parts: &mut Vec<Part>,
    arena: &Arena,
    id: SlotId,
    steps: &mut Steps<L>,
) -> Result<(), NoMemory>
    requires in_range { id.0 < length arena.now }
    requires within { LeadsWithin arena.now }
    ensures added { OnOk result (parts.new.items ≡ parts.old.items ++ parts_of arena.now id.0) }
    ensures rising { OnOk result (IsRising (children_of (slot_of arena.now id.0))) }
{
    if arena.is_table(id) {
        return Ok(());
    }
    for i in 0..arena.child_count(id) {
        let (label, child) = arena.child_at(id, i);
        add_content(parts, arena, label, child.to, steps)?;
    }
    Ok(())
}

/// Puts parts in order of label.
fn put_in_order(parts: &mut Vec<Part>)
    ensures same { IsPermutation parts.old.items parts.new.items }
    ensures ordered { IsNonDecreasingBy part_label parts.new.items }
{
    parts.sort_unstable_by_key(|part| part.label);
}

/// The contents of the children of all parts, in order of label.
pub fn parts_under<L: Ledger>(
    alloc: Global,
    arena: &Arena,
    parts: &[Part],
    steps: &mut Steps<L>,
) -> Result<Vec<Part>, NoMemory>
    requires parts { ArePartsIn arena.now parts.now }
    requires within { LeadsWithin arena.now }
    ensures { IfOk result (λ below. AreUnder arena.now parts.now below.items) }
{
    let mut below = Vec::new(alloc);
    for part in parts {
        add_parts(&mut below, arena, part.content, steps)?;
    }
    put_in_order(&mut below);
    Ok(below)
}

/// Whether parts are the same slots, one by one.
pub fn are_same_slots(whole: &[Part], parts: &[Part]) -> bool
    ensures { IsTrue result ↔ (map part_slot whole.now ≡ map part_slot parts.now) }
{
    if whole.len() != parts.len() {
        return false;
    }
    for i in 0..whole.len() {
        if whole[i].content.0 != parts[i].content.0 {
            return false;
        }
    }
    true
}

/// The least label of the parts that stand from a place on in both lists, which have come to a label. The label is for
/// contracts alone.
pub fn next_label(own: &[Part], i: usize, below: &[Part], at: usize, from: u16) -> Option<u8>
    requires ordered { IsNonDecreasingBy part_label own.now × IsNonDecreasingBy part_label below.now }
    requires come { HaveCome from own.now i below.now at }
    ensures { MatchOption result ((i ≡ length own.now) × (at ≡ length below.now)) (IsLeastLabel from own.now i below.now at) }
{
    if i >= own.len() {
        if at >= below.len() {
            return None;
        }
        return Some(below[at].label);
    }
    if at >= below.len() || own[i].label < below[at].label {
        return Some(own[i].label);
    }
    Some(below[at].label)
}

/// The place behind the parts of a label, which stand from a place on.
pub fn end_of_label(parts: &[Part], at: usize, label: u8) -> usize
    requires ordered { IsNonDecreasingBy part_label parts.now }
    requires place { IsPlace part_label label parts.now at }
    ensures place { IsPlace part_label (label + 1) parts.now result }
    ensures behind { at ≤ result }
{
    let mut end = at;
    while end < parts.len() && parts[end].label == label {
        end += 1;
    }
    end
}
