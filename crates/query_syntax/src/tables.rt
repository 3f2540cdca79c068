//! The table of a query over a list of points: its definition as a program.
//!
//! Each row is counted by a look at every point, so this serves small lists, and to test what is faster.
ghost use Rattle.std.specs.Prelude.{◌≡◌, ◌+◌, ◌*◌, ◌^◌, ◌<◌, ◌≤◌, ◌++◌, ◌∷◌, [], length, map, IfOk, OnOk, IsTrue};
ghost use Rattle.std.specs.List.{filter_map, range_with_len};
ghost use Rattle.cube_view.specs.Bag.{amount, anywhere};
ghost use Rattle.cube_view.specs.Places.{longer_tile};
ghost use Rattle.query_syntax.specs.Boxes.{box, total};
ghost use Rattle.query_syntax.specs.Items.{values_at};
ghost use Rattle.query_syntax.specs.Queries.{is_valid_query};
ghost use Rattle.query_syntax.specs.Narrowing.{with_tile, with_bins};
ghost use Rattle.query_syntax.specs.Tables.{is_drill, value_row, area_row, bins_row, table, table_rows};
ghost use Rattle.query_syntax.specs.TileOrder.{tiles_below, tiles_inside};
ghost use Rattle.query_syntax.specs.Verbs.{bins, most_rows};

use crate::item::values_of;
use crate::totals::{total_of, total_with};
use crate::{Query, RowOut, Span, Table, Verb};
use cube_view::{Point, Schema, Tile, quadrant};
use std::alloc::Global;
use texts::{List, NoMemory};

/// The row of the total alone.
fn one_row(
    alloc: Global,
    schema: &Schema,
    query: &Query,
    points: &[Point],
) -> Result<List<RowOut>, NoMemory>
    requires region { query.now.region.z ≤ schema.now.depth }
    requires light { amount anywhere points.now < 2 ^ 64 }
    ensures { IfOk result (λ rows. rows ≡ RowOut.One (total schema.now (box query.now) points.now) ∷ []) }
{
    let mut rows = List::new(alloc);
    rows.add(RowOut::One(total_of(schema, query, points)))?;
    Ok(rows)
}

/// A row for each value of category `k`.
fn value_rows(
    alloc: Global,
    schema: &Schema,
    query: &Query,
    points: &[Point],
    k: usize,
) -> Result<List<RowOut>, NoMemory>
    requires region { query.now.region.z ≤ schema.now.depth }
    requires light { amount anywhere points.now < 2 ^ 64 }
    requires category { k < length schema.now.categories }
    ensures { IfOk result (λ rows. rows ≡ map (value_row schema.now query.now points.now k) (range_with_len 0 (length (values_at schema.now.categories k)))) }
{
    let mut rows = List::new(alloc);
    for (v, text) in values_of(schema, k).iter().enumerate() {
        let total = total_with(schema, query, points, k, v as u8);
        let text = text.copy(alloc)?;
        rows.add(RowOut::Value(text, total))?;
    }
    Ok(rows)
}

/// Adds the row of the tile, if its total isn't 0.
fn push_area(
    rows: &mut List<RowOut>,
    schema: &Schema,
    query: &Query,
    points: &[Point],
    tile: Tile,
) -> Result<(), NoMemory>
    requires level { tile.z ≤ schema.now.depth }
    requires light { amount anywhere points.now < 2 ^ 64 }
    ensures { OnOk result (rows.new ≡ rows.old ++ filter_map (area_row schema.now query.now points.now) (tile ∷ [])) }
{
    let total = total_of(schema, &query.with_region(tile), points);
    if total == 0 {
        return Ok(());
    }
    rows.add(RowOut::Area(tile, total))
}

/// Adds the rows of the tiles that are so many levels below the tile, inside it.
fn push_areas(
    rows: &mut List<RowOut>,
    schema: &Schema,
    query: &Query,
    points: &[Point],
    tile: Tile,
    levels: u8,
) -> Result<(), NoMemory>
    requires light { amount anywhere points.now < 2 ^ 64 }
    requires deep { tile.z + levels ≤ schema.now.depth }
    requires tile { (tile.x < 2 ^ tile.z) × (tile.y < 2 ^ tile.z) }
    ensures { OnOk result (rows.new ≡ rows.old ++ filter_map (area_row schema.now query.now points.now) (tiles_inside levels tile)) }
{
    if levels == 0 {
        return push_area(rows, schema, query, points, tile);
    }
    for label in 0..4 {
        let part = quadrant(&tile, label);
        push_areas(rows, schema, query, points, part, levels - 1)?;
    }
    Ok(())
}

/// A row for each tile with points that is so many levels below the region, inside it.
fn area_rows(
    alloc: Global,
    schema: &Schema,
    query: &Query,
    points: &[Point],
    down: u8,
) -> Result<List<RowOut>, NoMemory>
    requires light { amount anywhere points.now < 2 ^ 64 }
    requires deep { query.now.region.z + down ≤ schema.now.depth }
    requires region { (query.now.region.x < 2 ^ query.now.region.z) × (query.now.region.y < 2 ^ query.now.region.z) }
    ensures { IfOk result (λ rows. rows ≡ filter_map (area_row schema.now query.now points.now) (tiles_below down query.now.region)) }
{
    let mut rows = List::new(alloc);
    push_areas(&mut rows, schema, query, points, query.region, down)?;
    Ok(rows)
}

/// The row of the bins from one number on under another.
fn bin_row(schema: &Schema, query: &Query, points: &[Point], from: u64, to: u64) -> RowOut
    requires region { query.now.region.z ≤ schema.now.depth }
    requires light { amount anywhere points.now < 2 ^ 64 }
    ensures { result ≡ RowOut.Bin from (total schema.now (with_bins (box query.now) from to) points.now) }
{
    let in_bins = query.with_span(Span { from, to });
    RowOut::Bin(from, total_of(schema, &in_bins, points))
}

/// Rows of so many bins each.
fn bin_rows(
    alloc: Global,
    schema: &Schema,
    query: &Query,
    points: &[Point],
    from: u64,
    wide: u64,
    count: u32,
) -> Result<List<RowOut>, NoMemory>
    requires region { query.now.region.z ≤ schema.now.depth }
    requires light { amount anywhere points.now < 2 ^ 64 }
    requires from { from < bins }
    requires wide { wide ≤ bins }
    requires count { count ≤ most_rows }
    ensures { IfOk result (λ rows. rows ≡ map (bins_row schema.now query.now points.now from wide) (range_with_len 0 count)) }
{
    let mut rows = List::new(alloc);
    for i in 0..u64::from(count) {
        let row = bin_row(
            schema,
            query,
            points,
            from + i * wide,
            from + (i + 1) * wide,
        );
        rows.add(row)?;
    }
    Ok(rows)
}

/// The rows that the query asks for.
fn rows_of(
    alloc: Global,
    schema: &Schema,
    query: &Query,
    points: &[Point],
) -> Result<List<RowOut>, NoMemory>
    requires valid { IsTrue (is_valid_query schema.now query.now) }
    requires verb { IsTrue (is_drill query.now.verb) }
    requires light { amount anywhere points.now < 2 ^ 64 }
    ensures { IfOk result (λ rows. rows ≡ table_rows schema.now query.now points.now) }
{
    match query.verb {
        Verb::Count => one_row(alloc, schema, query, points),
        Verb::Hist(k) => value_rows(alloc, schema, query, points, usize::from(k)),
        Verb::Map(down) => area_rows(alloc, schema, query, points, down),
        Verb::Series { from, wide, rows } => {
            bin_rows(alloc, schema, query, points, from, wide, rows)
        }
        Verb::Window(_) | Verb::Cross(_, _) | Verb::Best { .. } => unreachable!(),
        Verb::Stat | Verb::Told | Verb::Quit => unreachable!(),
    }
}

/// The table that the query asks for over the points, which weigh less than 2^64 in all. `NoMemory` where its rows
/// find no room.
#[tactic(auto, unfolding(crate::specs::Tables::table))]
pub fn table_of(
    alloc: Global,
    schema: &Schema,
    query: &Query,
    points: &[Point],
) -> Result<Table, NoMemory>
    requires valid { IsTrue (is_valid_query schema.now query.now) }
    requires verb { IsTrue (is_drill query.now.verb) }
    requires light { amount anywhere points.now < 2 ^ 64 }
    ensures { IfOk result (λ t. t ≡ table schema.now query.now points.now) }
{
    let rows = rows_of(alloc, schema, query, points)?;
    Ok(Table {
        rows,
        seen: points.len() as u64,
    })
}
