//! Adding a point to a dimension.
ghost use Rattle.std.specs.Prelude.{◌+◌, ◌*◌, ◌<◌, ◌≤◌, OnOk, IsTrue};
ghost use Rattle.cube_view.specs.Places.{time_dim};
ghost use Rattle.cube_view.specs.Validity.{sound};
ghost use Rattle.probe_core.specs.Blanks.{IsBlankOf};
ghost use Rattle.proper_path.specs.Paths.{point_path};
ghost use Rattle.proper_path.specs.Stepped.{KeepsRoom};
ghost use Rattle.point_insert.specs.Known.{CanAdd, CanFill};
ghost use Rattle.point_insert.specs.Room.{visits_from, allowance};
ghost use Rattle.point_insert.specs.Visited.{CanVisit, Enters, Visits, VisitsAll};

use crate::content::{is_time, only_child, own_content, share_content};
use crate::updated::Updated;
use arena_undo::Work;
use cube_view::{Point, Schema};
use node_arena::SlotId;
use probe_core::Steps;
use proper_path::trail;
use std::alloc::Global;
use std::marker::Brand;
use std::sync::ledger::{Blank, Ledger};
use texts::{List, NoMemory};

/// Adds a sound point to a dimension. `root` is a node at the dimension's level 0 whose home holds the point, and the
/// insertion invariant holds of all that comes before it. Afterwards it holds of all that is at or below the root too.
/// For want of memory the arena holds the changes that were recorded.
pub fn add(
    alloc: Global,
    work: &mut Work,
    schema: &Schema,
    point: &Point,
    dim: u8,
    root: SlotId,
    updated: &mut Updated,
) -> Result<(), NoMemory>
    requires { CanAdd schema.now point.now work.old updated.old dim root.0 }
    ensures all { OnOk result (VisitsAll (time_dim schema.now) (point_path schema.now point.now) work.old.slots work.new.slots updated.old updated.new dim root.0) }
    ensures changes { KeepsRoom (5 * visits_from schema.now dim) work.old work.new }
{
    add_counted::<Brand>(
        alloc,
        work,
        schema,
        point,
        dim,
        root,
        updated,
        Blank::new(1),
    )
}

/// The same, read in a ledger of its own.
fn add_counted<L: Ledger>(
    alloc: Global,
    work: &mut Work,
    schema: &Schema,
    point: &Point,
    dim: u8,
    root: SlotId,
    updated: &mut Updated,
    blank: Blank,
) -> Result<(), NoMemory>
    requires blank { IsBlankOf L.name L.parts blank }
    requires able { CanAdd schema.now point.now work.old updated.old dim root.0 }
    ensures all { OnOk result (VisitsAll (time_dim schema.now) (point_path schema.now point.now) work.old.slots work.new.slots updated.old updated.new dim root.0) }
    ensures changes { KeepsRoom (5 * visits_from schema.now dim) work.old work.new }
{
    let mut steps = Steps::<L>::new(blank);
    add_in(alloc, work, schema, point, dim, root, updated, &mut steps)
}

/// The trail is made, and its nodes are visited from the finest one up.
#[cycle(insertion)]
fn add_in<L: Ledger>(
    alloc: Global,
    work: &mut Work,
    schema: &Schema,
    point: &Point,
    dim: u8,
    root: SlotId,
    updated: &mut Updated,
    steps: &mut Steps<L>,
) -> Result<(), NoMemory>
    requires { CanAdd schema.now point.now work.old updated.old dim root.0 }
    ensures all { OnOk result (VisitsAll (time_dim schema.now) (point_path schema.now point.now) work.old.slots work.new.slots updated.old updated.new dim root.0) }
    ensures changes { KeepsRoom (5 * visits_from schema.now dim) work.old work.new }
{
    // The whole trail is made first: what the visits write is then seen from this root alone.
    let mut stack = List::new(alloc);
    trail(work, schema, point, dim, root, &mut stack)?;
    // The finest node first, so that a node that shares its only child's content finds that content updated.
    while let Some(at) = stack.pop() {
        visit(alloc, work, schema, point, dim, at, updated, steps)?;
    }
    Ok(())
}

/// The visit of a node: the first of the five cases that applies.
#[cycle(insertion)]
fn visit<L: Ledger>(
    alloc: Global,
    work: &mut Work,
    schema: &Schema,
    point: &Point,
    dim: u8,
    at: SlotId,
    updated: &mut Updated,
    steps: &mut Steps<L>,
) -> Result<(), NoMemory>
    requires sound { IsTrue (sound schema.now point.now) }
    requires dim { (1 ≤ dim) × (dim < time_dim schema.now) }
    requires known { ∥ CanVisit (time_dim schema.now) (point_path schema.now point.now) work.old.slots updated.old dim at.0 ∥₁ }
    requires room { work.old.made + (3 + 5 * visits_from schema.now (dim + 1)) ≤ work.old.room }
    ensures visited { OnOk result (Visits (time_dim schema.now) (point_path schema.now point.now) work.old.slots work.new.slots updated.old updated.new dim at.0) }
    ensures changes { KeepsRoom (3 + 5 * visits_from schema.now (dim + 1)) work.old work.new }
{
    // Case 1: what lies below the node lies below its child too, so their contents count the same.
    if let Some(child) = only_child(work, at) {
        share_content(work, at, child, steps);
        return Ok(());
    }
    match own_content(work, schema, dim, at, updated, steps)? {
        // Cases 2 to 4: the content is the node's own by now, and does not count the point yet.
        Some(content) => update(alloc, work, schema, point, dim + 1, content, updated, steps),
        // Case 5: the content counts the point already.
        None => Ok(()),
    }
}

/// The point is added to a content, which joins the updated set.
#[cycle(insertion)]
fn update<L: Ledger>(
    alloc: Global,
    work: &mut Work,
    schema: &Schema,
    point: &Point,
    dim: u8,
    slot: SlotId,
    updated: &mut Updated,
    steps: &mut Steps<L>,
) -> Result<(), NoMemory>
    requires { CanFill schema.now point.now work.old updated.old dim slot.0 }
    ensures done { OnOk result (Enters (time_dim schema.now) (point_path schema.now point.now) work.old.slots work.new.slots updated.old updated.new dim slot.0) }
    ensures changes { KeepsRoom (allowance schema.now dim) work.old work.new }
{
    fill(alloc, work, schema, point, dim, slot, updated, steps)?;
    // Only then: a content that is in the set counts the point.
    updated.put(slot)
}

/// The point's weight is added to a time table, or the point to the next dimension.
#[cycle(insertion)]
fn fill<L: Ledger>(
    alloc: Global,
    work: &mut Work,
    schema: &Schema,
    point: &Point,
    dim: u8,
    slot: SlotId,
    updated: &mut Updated,
    steps: &mut Steps<L>,
) -> Result<(), NoMemory>
    requires { CanFill schema.now point.now work.old updated.old dim slot.0 }
    ensures all { OnOk result (VisitsAll (time_dim schema.now) (point_path schema.now point.now) work.old.slots work.new.slots updated.old updated.new dim slot.0) }
    ensures changes { KeepsRoom (allowance schema.now dim) work.old work.new }
{
    if is_time(schema, dim) {
        work.table_add_many(slot, point.spot.bin, point.weight as u64)
    } else {
        add_in(alloc, work, schema, point, dim, slot, updated, steps)
    }
}
