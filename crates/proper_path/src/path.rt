//! The trail of a point in a dimension.
ghost use Rattle.std.specs.Prelude.{◌≡◌, ◌<◌, ◌+◌, ◌*◌, ◌≤◌, [], length, OnOk, IsTrue};
ghost use Rattle.cube_view.specs.Places.{deepest, time_dim};
ghost use Rattle.cube_view.specs.Validity.{sound};
ghost use Rattle.probe_core.specs.Blanks.{IsBlankOf};
ghost use Rattle.proper_path.specs.Paths.{point_path};
ghost use Rattle.proper_path.specs.Rooted.{HasRoot, MadeTrail, places_of};
ghost use Rattle.proper_path.specs.Stepped.{KeepsRoom};

use crate::step::step_down;
use arena_undo::Work;
use cube_view::{Point, Schema, label};
use node_arena::SlotId;
use probe_core::Steps;
use std::marker::Brand;
use std::sync::ledger::{Blank, Ledger};
use texts::{List, NoMemory};

/// How many levels a dimension has below level 0.
fn levels(schema: &Schema, dim: u8) -> u8
    requires { (1 ≤ dim) × (dim < time_dim schema.now) }
    ensures { result ≡ deepest schema.now dim }
{
    if dim == 1 { schema.depth } else { 1 }
}

/// Takes all items off.
fn clear(stack: &mut List<SlotId>)
    ensures { stack.new ≡ [] }
{
    while let Some(_id) = stack.pop() {}
}

/// The trail of a sound point in a dimension. `root` is a slot at the dimension's level 0 whose home holds the point.
/// Afterwards `stack` holds the nodes from the root to the finest one, each on a proper link from the one before, and
/// the insertion invariant holds where it held. For want of memory the arena holds the changes that were recorded.
pub fn trail(
    work: &mut Work,
    schema: &Schema,
    point: &Point,
    dim: u8,
    root: SlotId,
    stack: &mut List<SlotId>,
) -> Result<(), NoMemory>
    requires sound { IsTrue (sound schema.now point.now) }
    requires dim { (1 ≤ dim) × (dim < time_dim schema.now) }
    requires root { ∥ HasRoot (time_dim schema.now) (point_path schema.now point.now) work.old.slots dim root.0 ∥₁ }
    requires room { work.old.made + 2 * deepest schema.now dim ≤ work.old.room }
    ensures trail { OnOk result (MadeTrail (time_dim schema.now) (point_path schema.now point.now) work.old.slots work.new.slots dim root.0 (places_of stack.new)) }
    ensures changes { KeepsRoom (2 * deepest schema.now dim) work.old work.new }
{
    clear(stack);
    trail_in::<Brand>(work, schema, point, dim, root, stack, Blank::new(1))
}

/// The trail, read in a ledger of its own.
fn trail_in<L: Ledger>(
    work: &mut Work,
    schema: &Schema,
    point: &Point,
    dim: u8,
    root: SlotId,
    stack: &mut List<SlotId>,
    blank: Blank,
) -> Result<(), NoMemory>
    requires blank { IsBlankOf L.name L.parts blank }
    requires sound { IsTrue (sound schema.now point.now) }
    requires dim { (1 ≤ dim) × (dim < time_dim schema.now) }
    requires root { ∥ HasRoot (time_dim schema.now) (point_path schema.now point.now) work.old.slots dim root.0 ∥₁ }
    requires room { work.old.made + 2 * deepest schema.now dim ≤ work.old.room }
    requires empty { stack.old ≡ [] }
    ensures trail { OnOk result (MadeTrail (time_dim schema.now) (point_path schema.now point.now) work.old.slots work.new.slots dim root.0 (places_of stack.new)) }
    ensures changes { KeepsRoom (2 * deepest schema.now dim) work.old work.new }
{
    let mut steps = Steps::<L>::new(blank);
    let mut at = root;
    stack.add(root)?;
    for above in 0..levels(schema, dim) {
        let next = label(schema, point, dim, above + 1);
        at = step_down(work, at, next, &mut steps)?;
        stack.add(at)?;
    }
    Ok(())
}
