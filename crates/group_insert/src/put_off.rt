//! Links of a group that are put off: each gets its target later, when a finer address has been visited.
ghost use Rattle.std.specs.Prelude.{◌≡◌, ◌+◌, ◌<◌, ◌≤◌, ◌++◌, ◌∷◌, [], Some, length, IsSome, OnOk};
ghost use Rattle.cube_view.specs.Paths.{value_step};
ghost use Rattle.cube_view.specs.Walks.{down, across};
ghost use Rattle.node_arena.specs.Slots.{follow, slot_of, walk_end, IsNode};
ghost use Rattle.point_insert.specs.Visited.{place_of};
ghost use Rattle.group_insert.specs.FinerWalk.{entry_of, finer_steps, IsSet, LeadInside};
ghost use Rattle.group_insert.specs.Settling.{entries, CanSettle, SettlesTo};
ghost use Rattle.group_insert.specs.Visiting.{AreEntries};
ghost use Rattle.group_insert.specs.Ways.{way_from};

use arena_undo::Work;
use node_arena::{Link, SlotId};
use probe_core::Steps;
use std::sync::ledger::Ledger;
use texts::NoMemory;

/// The link of a label at a node that is put off. Its target is found from the base, a slot of dimension `from`: down
/// the turn, and then across so many dimensions, down the value of each if there is one, and at last down the label.
#[derive(Clone, Copy)]
pub struct PutOffLink {
    pub node: SlotId,
    pub base: SlotId,
    pub label: u8,
    pub turn: u8,
    pub from: u8,
    pub between: u8,
    pub values: [Option<u8>; 6],
}

// Where the link of a label leads, if there is one.
fn child_at<L: Ledger>(work: &Work, at: SlotId, label: u8, steps: &mut Steps<L>) -> Option<SlotId>
    requires in_range { at.0 < length work.now.slots }
    ensures { place_of result ≡ follow work.now.slots (Some at.0) (down label) }
{
    if work.is_table(at) {
        return None;
    }
    match work.child(at, label, steps) {
        Some(link) => Some(link.to),
        None => None,
    }
}

// Where the link to the content leads, if there is one.
fn content_at<L: Ledger>(work: &Work, at: SlotId, steps: &mut Steps<L>) -> Option<SlotId>
    requires in_range { at.0 < length work.now.slots }
    ensures { place_of result ≡ follow work.now.slots (Some at.0) across }
{
    if work.is_table(at) {
        return None;
    }
    match work.content(at, steps) {
        Some(link) => Some(link.to),
        None => None,
    }
}

// Down a value, if there is one.
fn value_at<L: Ledger>(
    work: &Work,
    at: SlotId,
    value: Option<u8>,
    steps: &mut Steps<L>,
) -> Option<SlotId>
    requires in_range { at.0 < length work.now.slots }
    ensures { place_of result ≡ walk_end work.now.slots at.0 (value_step value []) }
{
    match value {
        Some(label) => child_at(work, at, label, steps),
        None => Some(at),
    }
}

// Where the finer walk of a link stands after so many dimensions.
fn way_end<L: Ledger>(
    work: &Work,
    p: &PutOffLink,
    between: u8,
    steps: &mut Steps<L>,
) -> Option<SlotId>
    requires base { p.now.base.0 < length work.now.slots }
    requires inside { LeadInside work.now.slots }
    requires within { p.now.from + between < 6 }
    ensures { place_of result ≡ walk_end work.now.slots p.now.base.0 (way_from p.now.values p.now.from between ++ across ∷ down p.now.turn ∷ []) }
{
    if between == 0 {
        let turned = child_at(work, p.base, p.turn, steps)?;
        return content_at(work, turned, steps);
    }
    let before = way_end(work, p, between - 1, steps)?;
    let below = value_at(work, before, p.values[(p.from + between) as usize], steps)?;
    content_at(work, below, steps)
}

/// Where the finer walk of a link that is put off ends.
pub fn finer<L: Ledger>(work: &Work, p: &PutOffLink, steps: &mut Steps<L>) -> Option<SlotId>
    requires base { p.now.base.0 < length work.now.slots }
    requires inside { LeadInside work.now.slots }
    requires within { p.now.from + p.now.between < 6 }
    ensures { place_of result ≡ walk_end work.now.slots p.now.base.0 (finer_steps (entry_of p.now)) }
{
    let node = way_end(work, p, p.between, steps)?;
    child_at(work, node, p.label, steps)
}

/// Sets a link that is put off to where its finer walk ends.
pub fn settle<L: Ledger>(
    work: &mut Work,
    p: &PutOffLink,
    steps: &mut Steps<L>,
) -> Result<(), NoMemory>
    requires in_range { p.now.node.0 < length work.old.slots }
    requires is_node { IsNode (slot_of work.old.slots p.now.node.0) }
    requires base { p.now.base.0 < length work.old.slots }
    requires inside { LeadInside work.old.slots }
    requires within { p.now.from + p.now.between < 6 }
    requires ends { IsSome (walk_end work.old.slots p.now.base.0 (finer_steps (entry_of p.now))) }
    ensures set { OnOk result (IsSet work.old.slots work.new.slots (entry_of p.now)) }
    ensures start { work.new.start ≡ work.old.start }
{
    work.reserve(1)?;
    // The walk always ends at a slot.
    let Some(to) = finer(work, p, steps) else {
        return Ok(());
    };
    let link = Link::proper(to).shared();
    match work.child(p.node, p.label, steps) {
        Some(old) => {
            // A link that leads there already is no change to undo.
            if old.is_proper() || old.to.0 != to.0 {
                work.set_child(p.node, p.label, link);
            }
            Ok(())
        }
        None => work.put_child(p.node, p.label, link),
    }
}

/// Settles the links that were put off since there were so many, the last one first.
pub fn settle_all<L: Ledger>(
    work: &mut Work,
    put_off: &mut Vec<PutOffLink>,
    kept: usize,
    steps: &mut Steps<L>,
) -> Result<(), NoMemory>
    requires kept { kept ≤ length put_off.old.items }
    requires within { AreEntries put_off.old.items }
    requires known { ∥ CanSettle work.old.slots (entries put_off.old.items) kept ∥₁ }
    ensures settled { OnOk result (SettlesTo kept work.old.slots work.new.slots (entries put_off.old.items) (entries put_off.new.items)) }
    ensures left { OnOk result ((length put_off.new.items ≡ kept) × AreEntries put_off.new.items) }
    ensures start { work.new.start ≡ work.old.start }
{
    // The last first: a finer walk may go over links that were put off later, and over none that were put off before.
    while put_off.len() > kept {
        let Some(p) = put_off.pop() else {
            return Ok(());
        };
        settle(work, &p, steps)?;
    }
    Ok(())
}
