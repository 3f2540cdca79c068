//! What the visit of a node calls: its only label, its own content and children, and the share of an only child's
//! content.
ghost use Rattle.std.specs.Prelude.{◌≡◌, ◌+◌, ◌<◌, ◌≤◌, [], Some, length, All, IsTrue, IfOk};
ghost use Rattle.cube_view.specs.Places.{deepest, time_dim};
ghost use Rattle.cube_view.specs.Validity.{sound};
ghost use Rattle.cube_view.specs.Walks.{down, across};
ghost use Rattle.node_arena.specs.Slots.{IsNode, slot_of};
ghost use Rattle.point_insert.specs.Visited.{IsFilled};
ghost use Rattle.proper_path.specs.Stepped.{IsStepped, LeadsInside};
ghost use Rattle.group_insert.specs.Labels.{TellsAlone, TellsOnlyLabel};

use crate::parts::one_label;
use arena_undo::Work;
use cube_view::{Point, Schema};
use node_arena::{Link, SlotId};
use point_insert::{copy_content, make_content, only_child};
use probe_core::Steps;
use proper_path::step_down;
use std::sync::ledger::Ledger;
use texts::NoMemory;

/// Whether no child is at another label.
pub fn is_alone<L: Ledger>(work: &Work, at: SlotId, label: u8, steps: &mut Steps<L>) -> bool
    requires in_range { at.0 < length work.now.slots }
    requires is_node { IsNode (slot_of work.now.slots at.0) }
    ensures { TellsAlone work.now.slots at.0 label result }
{
    match only_child(work, at) {
        Some(_) => work.child(at, label, steps).is_some(),
        None => work.next_child(at, 0, steps).is_none(),
    }
}

/// The label that all points of a part have and all children too, where there is one.
pub fn only_label<L: Ledger>(
    work: &Work,
    schema: &Schema,
    part: &[Point],
    dim: u8,
    level: u8,
    at: SlotId,
    steps: &mut Steps<L>,
) -> Option<u8>
    requires some { 0 < length part.now }
    requires sound { All (λ p. IsTrue (sound schema.now p)) part.now }
    requires dim { (1 ≤ dim) × (dim < time_dim schema.now) }
    requires level { (1 ≤ level) × (level ≤ deepest schema.now dim) }
    requires in_range { at.0 < length work.now.slots }
    requires is_node { IsNode (slot_of work.now.slots at.0) }
    ensures { TellsOnlyLabel schema.now dim level part.now work.now.slots at.0 result }
{
    let label = one_label(schema, part, dim, level)?;
    if is_alone(work, at, label, steps) {
        Some(label)
    } else {
        None
    }
}

/// The content of a node, made its own.
pub fn own_content<L: Ledger>(
    work: &mut Work,
    schema: &Schema,
    dim: u8,
    at: SlotId,
    steps: &mut Steps<L>,
) -> Result<SlotId, NoMemory>
    requires dim { (1 ≤ dim) × (dim < time_dim schema.now) }
    requires in_range { at.0 < length work.old.slots }
    requires is_node { IsNode (slot_of work.old.slots at.0) }
    requires inside { LeadsInside work.old.slots at.0 across }
    ensures filled { IfOk result (λ content. IsFilled (time_dim schema.now) (dim + 1) [] work.old.slots at.0 work.new.slots (Some content.0)) }
    ensures start { work.new.start ≡ work.old.start }
{
    work.reserve(2)?;
    let Some(link) = work.content(at, steps) else {
        return make_content(work, schema, dim, at);
    };
    if link.is_proper() {
        return Ok(link.to);
    }
    copy_content(work, at, link.to)
}

/// The child of a label, made the node's own.
pub fn own_child<L: Ledger>(
    work: &mut Work,
    at: SlotId,
    label: u8,
    steps: &mut Steps<L>,
) -> Result<SlotId, NoMemory>
    requires in_range { at.0 < length work.old.slots }
    requires is_node { IsNode (slot_of work.old.slots at.0) }
    requires inside { LeadsInside work.old.slots at.0 (down label) }
    ensures stepped { IfOk result (λ to. IsStepped work.old.slots at.0 (down label) to.0 work.new.slots) }
    ensures start { work.new.start ≡ work.old.start }
{
    work.reserve(2)?;
    step_down(work, at, label, steps)
}
