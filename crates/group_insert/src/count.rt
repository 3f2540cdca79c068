//! A time table takes the points of a part.
ghost use Rattle.std.specs.Prelude.{◌≡◌, ◌+◌, ◌<◌, ◌≤◌, ◌^◌, length, take, slice_index_or, All, IsTrue, OnOk};
ghost use Rattle.cube_view.specs.Points.{spot_of, weight_of_point};
ghost use Rattle.cube_view.specs.Validity.{sound};
ghost use Rattle.node_arena.specs.Calls.{table_add_many, table_add_run};
ghost use Rattle.time_table.specs.Counts.{IsBinRun, run_total, total_count};
ghost use Rattle.node_arena.specs.Slots.{IsTable, slot_of, counts_of};
ghost use Rattle.proper_path.specs.Changes.{IsAdded};
ghost use Rattle.group_insert.specs.Added.{IsOneBin, IsRunOf, amount_in, part_weight};

use arena_undo::Work;
use cube_view::{Point, Schema};
use node_arena::SlotId;
use texts::NoMemory;

/// Counts a point in a time table.
fn count_point(
    work: &mut Work,
    schema: &Schema,
    table: SlotId,
    point: &Point,
) -> Result<(), NoMemory>
    requires sound { IsTrue (sound schema.now point.now) }
    requires in_range { table.0 < length work.old.slots }
    requires is_table { IsTable (slot_of work.old.slots table.0) }
    requires fits { total_count (counts_of (slot_of work.old.slots table.0)) + weight_of_point point.now ≤ 2 ^ 63 }
    ensures counted { OnOk result (work.new.slots ≡ table_add_many work.old.slots table.0 (spot_of point.now).bin (weight_of_point point.now)) }
    ensures start { work.new.start ≡ work.old.start }
{
    work.reserve(1)?;
    work.table_add_many(table, point.spot.bin, u64::from(point.weight))
}

/// Counts a run in a time table.
fn count_run(work: &mut Work, table: SlotId, run: &[(u32, u64)]) -> Result<(), NoMemory>
    requires in_range { table.0 < length work.old.slots }
    requires is_table { IsTable (slot_of work.old.slots table.0) }
    requires run { IsBinRun run.now }
    requires fits { total_count (counts_of (slot_of work.old.slots table.0)) + run_total run.now ≤ 2 ^ 63 }
    ensures counted { OnOk result (work.new.slots ≡ table_add_run work.old.slots table.0 run.now) }
    ensures start { work.new.start ≡ work.old.start }
{
    work.reserve(run.len())?;
    work.table_add_run(table, run)
}

/// Where the points end that have the bin of the one at a place, and how much they weigh.
fn one_bin(schema: &Schema, part: &[Point], from: usize) -> (usize, u64)
    requires sound { All (λ p. IsTrue (sound schema.now p)) part.now }
    requires within { from < length part.now }
    requires light { part_weight part.now ≤ 2 ^ 63 }
    ensures { (d : Point) → IsOneBin part.now from result.0 (spot_of (slice_index_or part.now from d)).bin result.1 }
{
    let first = part[from];
    let mut amount = u64::from(first.weight);
    for i in from + 1..part.len() {
        let point = part[i];
        if point.spot.bin != first.spot.bin {
            return (i, amount);
        }
        amount += u64::from(point.weight);
    }
    (part.len(), amount)
}

/// Gathers the points from a place on as a run, as far as their bins rise and there is room. Gives where the points
/// end, and how long the run is.
fn gather_run(
    schema: &Schema,
    part: &[Point],
    from: usize,
    run: &mut [(u32, u64)],
) -> (usize, usize)
    requires sound { All (λ p. IsTrue (sound schema.now p)) part.now }
    requires within { from < length part.now }
    requires light { part_weight part.now ≤ 2 ^ 63 }
    requires room { 0 < length run.old }
    ensures within { result.1 ≤ length run.new }
    ensures gathered { IsRunOf part.now from result.0 (take result.1 run.new) }
{
    let mut place = from;
    let mut least = 0;
    for len in 0..run.len() {
        // A table takes a run in rising bins alone.
        if place == part.len() || u64::from(part[place].spot.bin) < least {
            return (place, len);
        }
        let bin = part[place].spot.bin;
        let (end, amount) = one_bin(schema, part, place);
        run[len] = (bin, amount);
        least = u64::from(bin) + 1;
        place = end;
    }
    (place, run.len())
}

/// Counts the points of a part in a time table, run after run, in runs as long as there is room. For want of memory the
/// runs before are counted.
fn count_runs(
    work: &mut Work,
    schema: &Schema,
    table: SlotId,
    part: &[Point],
    run: &mut [(u32, u64)],
) -> Result<(), NoMemory>
    requires sound { All (λ p. IsTrue (sound schema.now p)) part.now }
    requires in_range { table.0 < length work.old.slots }
    requires is_table { IsTable (slot_of work.old.slots table.0) }
    requires room { 0 < length run.old }
    requires fits { total_count (counts_of (slot_of work.old.slots table.0)) + part_weight part.now ≤ 2 ^ 63 }
    ensures added { OnOk result (IsAdded work.old.slots work.new.slots table.0 (λ bin. amount_in part.now bin)) }
    ensures start { work.new.start ≡ work.old.start }
{
    let mut from = 0;
    while from < part.len() {
        let (to, len) = gather_run(schema, part, from, run);
        count_run(work, table, &run[..len])?;
        from = to;
    }
    Ok(())
}

/// Counts the points of a part in a time table. The runs stand on the stack, so that gathering takes no memory.
pub fn count_part(
    work: &mut Work,
    schema: &Schema,
    table: SlotId,
    part: &[Point],
) -> Result<(), NoMemory>
    requires sound { All (λ p. IsTrue (sound schema.now p)) part.now }
    requires in_range { table.0 < length work.old.slots }
    requires is_table { IsTable (slot_of work.old.slots table.0) }
    requires fits { total_count (counts_of (slot_of work.old.slots table.0)) + part_weight part.now ≤ 2 ^ 63 }
    ensures added { OnOk result (IsAdded work.old.slots work.new.slots table.0 (λ bin. amount_in part.now bin)) }
    ensures start { work.new.start ≡ work.old.start }
{
    // Most parts have one point, which needs no run.
    if part.len() == 1 {
        return count_point(work, schema, table, &part[0]);
    }
    // 32 amounts are 512 bytes, and soon cleared.
    if part.len() <= 64 {
        return count_runs(work, schema, table, part, &mut [(0, 0); 32]);
    }
    count_runs(work, schema, table, part, &mut [(0, 0); 512])
}
