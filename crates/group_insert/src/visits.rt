//! The visits of a group, each address that holds some of its points once: the content first, then label after label.
ghost use Rattle.std.specs.Prelude.{◌≡◌, ◌+◌, ◌<◌, ◌≤◌, Some, length, OnOk};
ghost use Rattle.cube_view.specs.Places.{deepest, time_dim};
ghost use Rattle.group_insert.specs.Labels.{TellsNextLabel};
ghost use Rattle.group_insert.specs.Visiting.{part_at, CanVisitPart, VisitsPart, CanPass, PassesTo, PassesContent, PassesLabels};
ghost use Rattle.group_insert.specs.Visiting.{CanShare, SharesOnly, CanVisitHere, AreEntries, IsLabelPart, IsPartedFrom};

use crate::count::count_part;
use crate::node::{only_label, own_child, own_content};
use crate::parts::{first_run, one_label, part_by_label};
use crate::put_off::{PutOffLink, settle_all};
use crate::way::{Way, below, on, put_later};
use arena_undo::Work;
use cube_view::{Point, Schema};
use node_arena::SlotId;
use point_insert::{is_time, only_child, share_content};
use probe_core::Steps;
use std::sync::ledger::Ledger;
use texts::NoMemory;

/// Where a part stands in the pile.
#[derive(Clone, Copy)]
pub struct Part {
    pub at: usize,
    pub end: usize,
}

/// What a visit is of: a node of a dimension, so many levels down in it, with its part and the way to it.
#[derive(Clone, Copy)]
pub struct Place {
    pub dim: u8,
    pub level: u8,
    pub at: SlotId,
    pub part: Part,
    pub way: Way,
}

/// How many levels a dimension has below level 0.
fn levels(schema: &Schema, dim: u8) -> u8
    requires { (1 ≤ dim) × (dim < time_dim schema.now) }
    ensures { result ≡ deepest schema.now dim }
{
    if dim == 1 { schema.depth } else { 1 }
}

/// One level further down.
fn one_below(schema: &Schema, dim: u8, level: u8) -> u8
    requires dim { (1 ≤ dim) × (dim < time_dim schema.now) }
    requires level { level < deepest schema.now dim }
    ensures { result ≡ level + 1 }
{
    // The test always holds. It shows that the sum is a byte.
    if level < levels(schema, dim) {
        level + 1
    } else {
        level
    }
}

/// A node that has one child shares its content.
fn share_only<L: Ledger>(work: &mut Work, at: SlotId, steps: &mut Steps<L>) -> Result<(), NoMemory>
    requires { ∥ CanShare work.old.slots at.0 ∥₁ }
    ensures shared { OnOk result (SharesOnly work.old.slots work.new.slots at.0) }
    ensures start { work.new.start ≡ work.old.start }
{
    work.reserve(1)?;
    if let Some(child) = only_child(work, at) {
        share_content(work, at, child, steps);
    }
    Ok(())
}

/// Visits a node and all below it. A node of space settles the links that were put off below it. For want of memory the
/// arena holds the changes that were recorded.
#[cycle(visiting)]
pub fn visit<L: Ledger>(
    work: &mut Work,
    schema: &Schema,
    pile: &mut Vec<Point>,
    put_off: &mut Vec<PutOffLink>,
    place: &Place,
    steps: &mut Steps<L>,
) -> Result<(), NoMemory>
    requires here { CanVisitHere schema.now place.now pile.old.items put_off.old.items }
    requires known { ∥ CanVisitPart schema.now work.old.slots place.now pile.old.items put_off.old.items ∥₁ }
    ensures visited { OnOk result (VisitsPart schema.now work.old.slots work.new.slots place.now pile.old.items put_off.old.items put_off.new.items) }
    ensures settled { OnOk result (place.now.dim ≡ 1 → length put_off.new.items ≡ length put_off.old.items) }
    ensures pile { OnOk result ((pile.new.items ≡ pile.old.items) × AreEntries put_off.new.items) }
    ensures start { work.new.start ≡ work.old.start }
{
    let kept = put_off.len();
    visit_node(work, schema, pile, put_off, place, steps)?;
    // All that is finer in space has been visited by now, so each link that was put off below has its target.
    if place.dim == 1 {
        return settle_all(work, put_off, kept, steps);
    }
    Ok(())
}

/// Visits a node and all below it, and settles no link at the node itself.
#[cycle(visiting)]
fn visit_node<L: Ledger>(
    work: &mut Work,
    schema: &Schema,
    pile: &mut Vec<Point>,
    put_off: &mut Vec<PutOffLink>,
    place: &Place,
    steps: &mut Steps<L>,
) -> Result<(), NoMemory>
    requires here { CanVisitHere schema.now place.now pile.old.items put_off.old.items }
    requires known { ∥ CanVisitPart schema.now work.old.slots place.now pile.old.items put_off.old.items ∥₁ }
    ensures visited { OnOk result (VisitsPart schema.now work.old.slots work.new.slots place.now pile.old.items put_off.old.items put_off.new.items) }
    ensures pile { OnOk result ((pile.new.items ≡ pile.old.items) × AreEntries put_off.new.items) }
    ensures start { work.new.start ≡ work.old.start }
{
    if place.level == levels(schema, place.dim) {
        return visit_content(work, schema, pile, put_off, place, steps);
    }
    let below = one_below(schema, place.dim, place.level);
    let points = &pile[place.part.at..place.part.end];
    match only_label(work, schema, points, place.dim, below, place.at, steps) {
        // Case 1: the child first, since its content is what the node shares.
        Some(_) => {
            visit_labels(work, schema, pile, put_off, place, false, steps)?;
            share_only(work, place.at, steps)
        }
        // The content first: it is copied as it was before the group, and no set of updated contents is needed.
        None => {
            visit_content(work, schema, pile, put_off, place, steps)?;
            visit_labels(work, schema, pile, put_off, place, true, steps)
        }
    }
}

/// Visits the content of a node, made its own: a time table counts the part.
#[cycle(visiting)]
fn visit_content<L: Ledger>(
    work: &mut Work,
    schema: &Schema,
    pile: &mut Vec<Point>,
    put_off: &mut Vec<PutOffLink>,
    place: &Place,
    steps: &mut Steps<L>,
) -> Result<(), NoMemory>
    requires here { CanVisitHere schema.now place.now pile.old.items put_off.old.items }
    requires known { ∥ CanVisitPart schema.now work.old.slots place.now pile.old.items put_off.old.items ∥₁ }
    ensures passed { OnOk result (PassesContent schema.now work.old.slots work.new.slots place.now pile.old.items put_off.old.items put_off.new.items) }
    ensures pile { OnOk result ((pile.new.items ≡ pile.old.items) × AreEntries put_off.new.items) }
    ensures start { work.new.start ≡ work.old.start }
{
    // Cases 2 to 4. Case 5 does not come: a shared content lies at a finer address, whose turn is later.
    let content = own_content(work, schema, place.dim, place.at, steps)?;
    if is_time(schema, place.dim + 1) {
        return count_part(work, schema, content, &pile[place.part.at..place.part.end]);
    }
    let next = Place {
        dim: place.dim + 1,
        level: 0,
        at: content,
        part: place.part,
        way: on(&place.way, place.dim, content),
    };
    visit(work, schema, pile, put_off, &next, steps)
}

/// Visits the children of all labels of a part, in their order. A `wide` node is one that does not have one label.
#[cycle(visiting)]
fn visit_labels<L: Ledger>(
    work: &mut Work,
    schema: &Schema,
    pile: &mut Vec<Point>,
    put_off: &mut Vec<PutOffLink>,
    place: &Place,
    wide: bool,
    steps: &mut Steps<L>,
) -> Result<(), NoMemory>
    requires here { CanVisitHere schema.now place.now pile.old.items put_off.old.items }
    requires level { place.now.level < deepest schema.now place.now.dim }
    requires known { ∥ CanPass schema.now work.old.slots place.now pile.old.items put_off.old.items wide 0 ∥₁ }
    ensures passed { OnOk result (PassesLabels schema.now work.old.slots work.new.slots place.now pile.old.items put_off.old.items put_off.new.items wide) }
    ensures pile { OnOk result ((pile.new.items ≡ pile.old.items) × AreEntries put_off.new.items) }
    ensures start { work.new.start ≡ work.old.start }
{
    let below = one_below(schema, place.dim, place.level);
    let part = place.part;
    // A part of one label is passed on as it stands.
    if let Some(label) = one_label(schema, &pile[part.at..part.end], place.dim, below) {
        return visit_label(
            work, schema, pile, put_off, place, wide, 0, label, &part, steps,
        );
    }
    // Another one stands behind the pile once more, label after label, while its labels are visited.
    let top = pile.len();
    part_by_label(schema, pile, part.at, part.end, place.dim, below)?;
    visit_runs(work, schema, pile, put_off, place, wide, top, steps)?;
    pile.truncate(top);
    Ok(())
}

/// Visits the children of all labels of a part whose points stand from a place on behind the pile, label after label.
#[cycle(visiting)]
fn visit_runs<L: Ledger>(
    work: &mut Work,
    schema: &Schema,
    pile: &mut Vec<Point>,
    put_off: &mut Vec<PutOffLink>,
    place: &Place,
    wide: bool,
    top: usize,
    steps: &mut Steps<L>,
) -> Result<(), NoMemory>
    requires here { CanVisitHere schema.now place.now pile.old.items put_off.old.items }
    requires level { place.now.level < deepest schema.now place.now.dim }
    requires parted { IsPartedFrom schema.now place.now pile.old.items top }
    requires known { ∥ CanPass schema.now work.old.slots place.now pile.old.items put_off.old.items wide 0 ∥₁ }
    ensures passed { OnOk result (PassesLabels schema.now work.old.slots work.new.slots place.now pile.old.items put_off.old.items put_off.new.items wide) }
    ensures pile { OnOk result ((pile.new.items ≡ pile.old.items) × AreEntries put_off.new.items) }
    ensures start { work.new.start ≡ work.old.start }
{
    let mut from = top;
    // One more than the last of 256 labels is no byte.
    let mut next: u16 = 0;
    let below = one_below(schema, place.dim, place.level);
    while from < pile.len() {
        let (label, len) = first_run(schema, &pile[from..], place.dim, below);
        let part = Part {
            at: from,
            end: from + len,
        };
        visit_label(
            work, schema, pile, put_off, place, wide, next, label, &part, steps,
        )?;
        next = u16::from(label) + 1;
        from = part.end;
    }
    Ok(())
}

/// Visits the child of a label, made the node's own, with the points of the label, or puts its link off.
#[cycle(visiting)]
fn visit_label<L: Ledger>(
    work: &mut Work,
    schema: &Schema,
    pile: &mut Vec<Point>,
    put_off: &mut Vec<PutOffLink>,
    place: &Place,
    wide: bool,
    from: u16,
    label: u8,
    part: &Part,
    steps: &mut Steps<L>,
) -> Result<(), NoMemory>
    requires here { CanVisitHere schema.now place.now pile.old.items put_off.old.items }
    requires level { place.now.level < deepest schema.now place.now.dim }
    requires next { TellsNextLabel schema.now place.now.dim (place.now.level + 1) from (part_at place.now pile.old.items) (Some label) }
    requires part { IsLabelPart schema.now place.now pile.old.items label part.now }
    requires known { ∥ CanPass schema.now work.old.slots place.now pile.old.items put_off.old.items wide from ∥₁ }
    ensures passed { OnOk result (PassesTo schema.now work.old.slots work.new.slots place.now pile.old.items put_off.old.items put_off.new.items wide from label) }
    ensures pile { OnOk result ((pile.new.items ≡ pile.old.items) × AreEntries put_off.new.items) }
    ensures start { work.new.start ≡ work.old.start }
{
    let level = one_below(schema, place.dim, place.level);
    let points = &pile[part.at..part.end];
    let later = put_later(
        work, schema, points, put_off, &place.way, place.at, label, place.dim, wide, steps,
    )?;
    // A finer address has the same points. What lies there is made when its turn comes, and is then shared.
    if later {
        return Ok(());
    }
    // From here on no other node sees what is written below the child.
    let child = own_child(work, place.at, label, steps)?;
    let next = Place {
        dim: place.dim,
        level,
        at: child,
        part: *part,
        way: below(&place.way, place.dim, level, label, child),
    };
    visit(work, schema, pile, put_off, &next, steps)
}
