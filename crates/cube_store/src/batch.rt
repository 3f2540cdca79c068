//! How a cube takes the points of a batch: as one group, all or none.
ghost use Rattle.std.specs.Prelude.{◌≡◌, ◌+◌, ◌≤◌, length, All, IsTrue, IfOk, IfErr, OnOk};
ghost use Rattle.std.specs.List.Sorted.{IsNonDecreasingBy, IsPermutation};
ghost use Rattle.cube_view.specs.Bag.{most_points};
ghost use Rattle.cube_view.specs.Points.{spot_of};
ghost use Rattle.cube_view.specs.Validity.{sound};
ghost use Rattle.arena_undo.specs.Worked.{Worked};
ghost use Rattle.cube_store.specs.Counted.{AddsLeast, AddsPoints, HasPoints};

use crate::cube::tell_length;
use arena_undo::Work;
use cube_view::{Point, Schema};
use group_insert::add_group;
use node_arena::{Arena, SlotId};
use std::alloc::Global;
use texts::NoMemory;

/// The points in rising order of bin: a part of a group has its points in the order of the group, and a time table
/// takes bins that rise at its end.
pub fn in_order(alloc: Global, points: &[Point]) -> Result<Vec<Point>, NoMemory>
    ensures points { IfOk result (λ sorted. IsPermutation points.now sorted.items) }
    ensures order { IfOk result (λ sorted. IsNonDecreasingBy (λ p. (spot_of p).bin) sorted.items) }
{
    let mut sorted = Vec::from_slice(alloc, points)?;
    sorted.sort_by_key(|point| point.spot.bin)?;
    Ok(sorted)
}

/// Contracts learn that the spots have four values. It does nothing more when run.
fn tell_lengths(points: &[Point])
    ensures { All (λ p. length (spot_of p).values ≡ 4) points.now }
{
    for point in points {
        tell_length(&point.spot.values);
    }
}

/// Adds points behind those that are counted, as one group. For want of memory the arena holds the changes that were
/// recorded.
fn add_all(
    alloc: Global,
    work: &mut Work,
    schema: &Schema,
    points: &[Point],
    root: SlotId,
    size: u64,
) -> Result<(), NoMemory>
    requires sound { All (λ p. IsTrue (sound schema.now p)) points.now }
    requires few { size + length points.now ≤ most_points }
    requires counted { HasPoints schema.now work.old.slots root.0 size }
    ensures added { OnOk result (AddsPoints schema.now root.0 size points.now work.old.slots work.new.slots) }
    ensures least { OnOk result (AddsLeast schema.now root.0 size points.now work.old.slots work.new.slots) }
    ensures start { work.new.start ≡ work.old.start }
{
    if points.is_empty() {
        return Ok(());
    }
    tell_lengths(points);
    add_group(alloc, work, schema, points, root)
}

/// The arena with the points of a group, or the arena as it was where memory is wanted.
pub fn insert_group(
    alloc: Global,
    arena: Arena,
    schema: &Schema,
    points: &[Point],
    root: SlotId,
    size: u64,
) -> Result<Arena, Arena>
    requires sound { All (λ p. IsTrue (sound schema.now p)) points.now }
    requires few { size + length points.now ≤ most_points }
    requires counted { HasPoints schema.now arena root.0 size }
    ensures added { IfOk result (λ again. AddsPoints schema.now root.0 size points.now arena again) }
    ensures least { IfOk result (λ again. AddsLeast schema.now root.0 size points.now arena again) }
    ensures back { IfErr result (λ again. again ≡ arena) }
{
    // Room for changes is taken visit by visit: a bound for a whole group is far more than is changed.
    let mut work = Work::begin(alloc, arena, 0)?;
    match add_all(alloc, &mut work, schema, points, root, size) {
        Ok(()) => Ok(work.keep()),
        Err(_) => Err(work.undo()),
    }
}
