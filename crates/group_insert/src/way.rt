//! The way of a visit: the values that were gone down, and the slot at level 0 of each dimension.
ghost use Rattle.std.specs.Prelude.{◌≡◌, ℕ, Some, ◌+◌, ◌<◌, ◌≤◌, length, All, IfNone, IfSome, IfOk, IsTrue, OnOk};
ghost use Rattle.cube_view.specs.Places.{deepest, time_dim};
ghost use Rattle.cube_view.specs.Validity.{sound};
ghost use Rattle.node_arena.specs.Slots.{proper, link_of, slot_of, IsNode};
ghost use Rattle.cube_view.specs.Walks.{down};
ghost use Rattle.group_insert.specs.Entry.{root_at, root_level, turn_of, way_below, way_on, HasRoots, TurnsIn, MayTurn, HasNoTurn, HaveNoTurn, TellsShared, TellsPut};
ghost use Rattle.group_insert.specs.FinerWalk.{entry_of, LeadInside};
ghost use Rattle.group_insert.specs.Visiting.{AreEntries};
ghost use Rattle.group_insert.specs.Ways.{IsOpenIn};

use crate::parts::one_label;
use crate::put_off::{PutOffLink, finer};
use arena_undo::Work;
use cube_view::{Point, Schema};
use node_arena::SlotId;
use probe_core::Steps;
use std::sync::ledger::Ledger;
use texts::NoMemory;

/// By the number of a dimension, the value that was gone down there, and the slot at its level 0 or, of space, the
/// node.
/// `level` is that node's.
#[derive(Clone, Copy)]
pub struct Way {
    pub values: [Option<u8>; 6],
    pub roots: [SlotId; 6],
    pub level: u8,
}

// The level of the root of a dimension, where it is open below the root.
fn open_level(schema: &Schema, way: &Way, from: u8) -> Option<u8>
    requires { (1 ≤ from) × (from < time_dim schema.now) }
    ensures open_level { IfSome result (λ level. (level ≡ root_level way.now from) × (level < deepest schema.now from) × IsOpenIn way.now.values from) }
    ensures closed { IfNone result (IsOpenIn way.now.values from → root_level way.now from < deepest schema.now from → ⊥) }
{
    if from == 1 {
        if way.level < schema.depth {
            Some(way.level)
        } else {
            None
        }
    } else {
        match way.values[from as usize] {
            Some(_) => None,
            None => Some(0),
        }
    }
}

// The entry for a link whose walk turns off in a dimension by a label.
fn turning(way: &Way, node: SlotId, label: u8, dim: u8, from: u8, turn: u8) -> PutOffLink
    requires { (from < dim) × (dim < 6) }
    ensures is { entry_of result ≡ turn_of way.now node.0 label dim from turn }
    ensures parts { (result.turn ≡ turn) × (result.from + result.between < 6) }
{
    PutOffLink {
        node,
        base: way.roots[from as usize],
        label,
        turn,
        from,
        between: dim - from - 1,
        values: way.values,
    }
}

/// The entry for a link whose walk turns off in a dimension, where that may be: the dimension is open below its root,
/// all points of the part have one label there, and the old link leads where the walk does, or is none.
pub fn turn_in<L: Ledger>(
    work: &Work,
    schema: &Schema,
    part: &[Point],
    way: &Way,
    node: SlotId,
    label: u8,
    dim: u8,
    from: u8,
    old: Option<SlotId>,
    steps: &mut Steps<L>,
) -> Option<PutOffLink>
    requires some { 0 < length part.now }
    requires sound { All (λ p. IsTrue (sound schema.now p)) part.now }
    requires dims { (1 ≤ from) × (from < dim) × (dim < time_dim schema.now) }
    requires base { IsOpenIn way.now.values from → root_at way.now from < length work.now.slots }
    requires inside { LeadInside work.now.slots }
    ensures turns { IfSome result (λ p. TurnsIn schema.now work.now.slots part.now way.now node.0 label dim from old p) }
    ensures none { IfNone result (HasNoTurn schema.now work.now.slots part.now way.now node.0 label dim from old) }
{
    let level = open_level(schema, way, from)?;
    let turn = one_label(schema, part, from, level + 1)?;
    let entry = turning(way, node, label, dim, from, turn);
    let Some(to) = old else {
        return Some(entry);
    };
    // An old link has to lead where the finer walk ends: then the old points go down the turn too.
    match finer(work, &entry, steps) {
        Some(end) => { if end.0 == to.0 { Some(entry) } else { None } }
        None => None,
    }
}

/// The entry for a link, where it may be put off: its walk turns off in the first dimension in which that may be.
pub fn first_turn<L: Ledger>(
    work: &Work,
    schema: &Schema,
    part: &[Point],
    way: &Way,
    node: SlotId,
    label: u8,
    dim: u8,
    old: Option<SlotId>,
    steps: &mut Steps<L>,
) -> Option<PutOffLink>
    requires some { 0 < length part.now }
    requires sound { All (λ p. IsTrue (sound schema.now p)) part.now }
    requires dim { dim < time_dim schema.now }
    requires roots { HasRoots work.now.slots way.now dim }
    requires inside { LeadInside work.now.slots }
    ensures turns { IfSome result (λ p. MayTurn schema.now work.now.slots part.now way.now node.0 label dim old p) }
    ensures none { IfNone result (HaveNoTurn schema.now work.now.slots part.now way.now node.0 label dim old) }
{
    for from in 1..dim {
        let entry = turn_in(work, schema, part, way, node, label, dim, from, old, steps);
        if entry.is_some() {
            return entry;
        }
    }
    None
}

// Where the link of a label leads that is shared or none. For a proper link there is no answer.
fn not_own<L: Ledger>(
    work: &Work,
    node: SlotId,
    label: u8,
    steps: &mut Steps<L>,
) -> Option<Option<SlotId>>
    requires in_range { node.0 < length work.now.slots }
    requires is_node { IsNode (slot_of work.now.slots node.0) }
    ensures shared { IfSome result (λ old. TellsShared work.now.slots node.0 label old) }
    ensures owned { IfNone result ((to : ℕ) × (link_of work.now.slots node.0 (down label) ≡ Some (proper to))) }
{
    match work.child(node, label, steps) {
        Some(link) => {
            if link.is_proper() {
                None
            } else {
                Some(Some(link.to))
            }
        }
        None => Some(None),
    }
}

/// Puts the link of a label off, where it may be, and tells whether it did. At a node of one label it does not, and no
/// proper link is put off.
pub fn put_later<L: Ledger>(
    work: &Work,
    schema: &Schema,
    part: &[Point],
    put_off: &mut Vec<PutOffLink>,
    way: &Way,
    node: SlotId,
    label: u8,
    dim: u8,
    wide: bool,
    steps: &mut Steps<L>,
) -> Result<bool, NoMemory>
    requires part { (0 < length part.now) × All (λ p. IsTrue (sound schema.now p)) part.now }
    requires dim { dim < time_dim schema.now }
    requires node { (node.0 < length work.now.slots) × IsNode (slot_of work.now.slots node.0) }
    requires roots { HasRoots work.now.slots way.now dim }
    requires inside { LeadInside work.now.slots }
    requires within { AreEntries put_off.old.items }
    ensures put { IfOk result (λ x. TellsPut schema.now work.now.slots part.now way.now node.0 label dim wide put_off.old.items put_off.new.items x) }
    ensures still { OnOk result (AreEntries put_off.new.items) }
{
    // A node of one label shares its child's content at once, so that content has to be there.
    if !wide {
        return Ok(false);
    }
    let Some(old) = not_own(work, node, label, steps) else {
        return Ok(false);
    };
    match first_turn(work, schema, part, way, node, label, dim, old, steps) {
        Some(entry) => {
            put_off.push(entry)?;
            Ok(true)
        }
        None => Ok(false),
    }
}

/// The way one label further down. In space it gets to a node of the level.
pub fn below(way: &Way, dim: u8, level: u8, label: u8, child: SlotId) -> Way
    requires { dim < 6 }
    ensures { result ≡ way_below way.now dim level label child }
{
    let mut next = *way;
    if dim == 1 {
        next.roots[1] = child;
        next.level = level;
    } else {
        next.values[dim as usize] = Some(label);
    }
    next
}

/// The way on to the content of a node of the dimension.
pub fn on(way: &Way, dim: u8, content: SlotId) -> Way
    requires { dim + 1 < 6 }
    ensures { result ≡ way_on way.now dim content }
{
    let mut next = *way;
    next.values[dim as usize + 1] = None;
    next.roots[dim as usize + 1] = content;
    next
}
