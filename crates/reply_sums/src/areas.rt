//! The rows of two maps, added tile by tile.
ghost use Rattle.std.specs.Prelude.{◌≡◌, ◌≢◌, ◌+◌, ◌^◌, ◌<◌, ◌≤◌, ◌++◌, [], ◌∷◌, true, false, Some, None, Err, IfOk, OnOk};
ghost use Rattle.query_syntax.specs.TileOrder.{tiles_below, tiles_inside};
ghost use Rattle.reply_sums.specs.Areas.{areas_of_both, is_none_left, left_after, sum_areas};
ghost use Rattle.reply_sums.specs.Numbers.{AreGreat, are_rows_great};

use crate::SumFault;
use crate::cursor::Cursor;
use crate::fault::fault_of_great;
use crate::totals::sum_totals;
use cube_view::{Tile, quadrant};
use query_syntax::RowOut;
use std::alloc::Global;
use texts::List;

/// Adds the row of the tile, if one of the two has it.
fn push_sum(
    sums: &mut List<RowOut>,
    rows: &mut Cursor<'_>,
    others: &mut Cursor<'_>,
    tile: Tile,
) -> Result<(), SumFault>
    ensures sums { OnOk result (sums.new ≡ sums.old ++ areas_of_both (tile ∷ []) rows.old others.old) }
    ensures rows { OnOk result (rows.new ≡ left_after (tile ∷ []) rows.old) }
    ensures others { OnOk result (others.new ≡ left_after (tile ∷ []) others.old) }
    ensures fits { OnOk result (are_rows_great sums.old ≡ false → are_rows_great sums.new ≡ false) }
    ensures great { result ≡ Err SumFault.TooMuch → are_rows_great (areas_of_both (tile ∷ []) rows.old others.old) ≡ true }
    ensures alike { result ≢ Err SumFault.OtherRows }
{
    let first = rows.take(&tile);
    let second = others.take(&tile);
    let total = sum_totals(first, second)?;
    if total == 0 {
        return Ok(());
    }
    sums.add(RowOut::Area(tile, total))?;
    Ok(())
}

/// Adds the rows of the tiles that are so many levels below the tile, inside it.
fn push_sums(
    sums: &mut List<RowOut>,
    rows: &mut Cursor<'_>,
    others: &mut Cursor<'_>,
    tile: Tile,
    levels: u8,
) -> Result<(), SumFault>
    requires deep { tile.z + levels ≤ 20 }
    requires tile { (tile.x < 2 ^ tile.z) × (tile.y < 2 ^ tile.z) }
    ensures sums { OnOk result (sums.new ≡ sums.old ++ areas_of_both (tiles_inside levels tile) rows.old others.old) }
    ensures rows { OnOk result (rows.new ≡ left_after (tiles_inside levels tile) rows.old) }
    ensures others { OnOk result (others.new ≡ left_after (tiles_inside levels tile) others.old) }
    ensures fits { OnOk result (are_rows_great sums.old ≡ false → are_rows_great sums.new ≡ false) }
    ensures great { result ≡ Err SumFault.TooMuch → are_rows_great (areas_of_both (tiles_inside levels tile) rows.old others.old) ≡ true }
    ensures alike { result ≢ Err SumFault.OtherRows }
{
    if levels == 0 {
        return push_sum(sums, rows, others, tile);
    }
    for label in 0..4 {
        let part = quadrant(&tile, label);
        push_sums(sums, rows, others, part, levels - 1)?;
    }
    Ok(())
}

/// Takes the rows of the tiles that are so many levels below the tile, inside it, off the front.
fn pass_over(rows: &mut Cursor<'_>, tile: Tile, levels: u8)
    requires deep { tile.z + levels ≤ 20 }
    requires tile { (tile.x < 2 ^ tile.z) × (tile.y < 2 ^ tile.z) }
    ensures { rows.new ≡ left_after (tiles_inside levels tile) rows.old }
{
    if levels == 0 {
        rows.take(&tile);
        return;
    }
    for label in 0..4 {
        let inner = quadrant(&tile, label);
        pass_over(rows, inner, levels - 1);
    }
}

/// Whether each of the rows is that of a tile that is so many levels below the region, in path order.
fn are_of_tiles(region: Tile, down: u8, rows: &[RowOut]) -> bool
    requires deep { region.z + down ≤ 20 }
    requires region { (region.x < 2 ^ region.z) × (region.y < 2 ^ region.z) }
    ensures { result ≡ is_none_left (left_after (tiles_below down region) rows.now) }
{
    let mut rows = Cursor::new(rows);
    pass_over(&mut rows, region, down);
    rows.is_done()
}

/// The rows of two maps of the tiles that are so many levels below the region, with their totals added.
pub(crate) fn sum_areas(
    alloc: Global,
    region: Tile,
    down: u8,
    rows: &[RowOut],
    others: &[RowOut],
) -> Result<List<RowOut>, SumFault>
    requires deep { region.z + down ≤ 20 }
    requires region { (region.x < 2 ^ region.z) × (region.y < 2 ^ region.z) }
    ensures sum { IfOk result (λ sums. sum_areas (tiles_below down region) rows.now others.now ≡ Some sums) }
    ensures fits { IfOk result (λ sums. are_rows_great sums ≡ false) }
    ensures none { result ≡ Err SumFault.OtherRows → sum_areas (tiles_below down region) rows.now others.now ≡ None }
    ensures great { result ≡ Err SumFault.TooMuch → AreGreat (sum_areas (tiles_below down region) rows.now others.now) }
{
    let mut sums = List::new(alloc);
    let mut left = Cursor::new(rows);
    let mut others_left = Cursor::new(others);
    match push_sums(&mut sums, &mut left, &mut others_left, region, down) {
        Ok(()) if left.is_done() && others_left.is_done() => Ok(sums),
        Ok(()) => Err(SumFault::OtherRows),
        // A row of no such tile is told first, also where it stands after a total that is too great.
        Err(SumFault::TooMuch) => {
            let is_first = are_of_tiles(region, down, rows);
            let is_second = are_of_tiles(region, down, others);
            Err(fault_of_great(is_first && is_second))
        }
        Err(fault) => Err(fault),
    }
}
