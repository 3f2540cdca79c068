//! The rows of a map.
ghost use Rattle.std.specs.Prelude.{◌≡◌, ◌+◌, ◌<◌, ◌≤◌, ◌^◌, ◌++◌, [], ◌∷◌, IfOk, OnOk};
ghost use Rattle.std.specs.List.{filter_map};
ghost use Rattle.cube_view.specs.Bag.{amount, anywhere};
ghost use Rattle.list_tables.specs.Areas.{area_in, IsSquare};
ghost use Rattle.query_syntax.specs.Tables.{area_row};
ghost use Rattle.query_syntax.specs.TileOrder.{tiles_below, tiles_inside};

use crate::cells::{Cells, place_in_square};
use crate::totals::totals_of;
use cube_view::{Point, Schema, Tile, quadrant};
use query_syntax::{Query, RowOut};
use std::alloc::Global;
use texts::{List, NoMemory};

/// The totals of the tiles so many levels below a region.
#[derive(Drop)]
struct Square {
    levels: u8,
    totals: List<u64>,
}

/// Adds the row of the tile, if its total isn't 0.
fn push_area(square: &Square, tile: Tile, rows: &mut List<RowOut>) -> Result<(), NoMemory>
    requires { IsSquare square.now }
    ensures { OnOk result (rows.new ≡ rows.old ++ filter_map (area_in square.now) (tile ∷ [])) }
{
    let total = square.totals.as_slice()[place_in_square(square.levels, tile.x, tile.y)];
    if total > 0 {
        rows.add(RowOut::Area(tile, total))?;
    }
    Ok(())
}

/// Adds the rows of the square's tiles inside a tile, which are so many levels below it.
fn push_areas(
    square: &Square,
    tile: Tile,
    levels: u8,
    rows: &mut List<RowOut>,
) -> Result<(), NoMemory>
    requires square { IsSquare square.now }
    requires deep { tile.z + levels ≤ 20 }
    requires tile { (tile.x < 2 ^ tile.z) × (tile.y < 2 ^ tile.z) }
    ensures { OnOk result (rows.new ≡ rows.old ++ filter_map (area_in square.now) (tiles_inside levels tile)) }
{
    if levels == 0 {
        return push_area(square, tile, rows);
    }
    for label in 0..4 {
        push_areas(square, quadrant(&tile, label), levels - 1, rows)?;
    }
    Ok(())
}

/// A row for each tile with points that is so many levels below the region, inside it.
pub(crate) fn area_rows(
    alloc: Global,
    schema: &Schema,
    query: &Query,
    levels: u8,
    points: &[Point],
) -> Result<List<RowOut>, NoMemory>
    requires deep { (levels ≤ 10) × (query.now.region.z + levels ≤ schema.now.depth) }
    requires region { (query.now.region.x < 2 ^ query.now.region.z) × (query.now.region.y < 2 ^ query.now.region.z) }
    requires light { amount anywhere points.now < 2 ^ 64 }
    ensures { IfOk result (λ rows. rows ≡ filter_map (area_row schema.now query.now points.now) (tiles_below levels query.now.region)) }
{
    let count = 1usize << (2 * levels);
    let totals = totals_of(alloc, schema, query, &Cells::Tiles(levels), count, points)?;
    let square = Square { levels, totals };
    let mut rows = List::new(alloc);
    push_areas(&square, query.region, levels, &mut rows)?;
    Ok(rows)
}
