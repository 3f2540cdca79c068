//! The rows of a query.
ghost use Rattle.std.specs.Prelude.{◌≡◌, ◌+◌, ◌<◌, ◌≤◌, ◌^◌, [], ◌∷◌, IfOk, IsTrue};
ghost use Rattle.cube_view.specs.Bag.{amount, anywhere};
ghost use Rattle.query_syntax.specs.Boxes.{box, total};
ghost use Rattle.query_syntax.specs.Queries.{is_valid_query};
ghost use Rattle.query_syntax.specs.Tables.{has_table, table_rows};
ghost use Rattle.query_syntax.specs.TopTiles.{top_rows};
ghost use Rattle.query_syntax.specs.Windows.{window_total};

use crate::areas::area_rows;
use crate::count::{count_box, count_window};
use crate::marks::ValueMarks;
use crate::pairs::pair_rows;
use crate::values::{bins_rows, value_rows};
use cross_table::first_by_total;
use cube_view::{Point, Schema};
use query_syntax::{Query, Rect, RowOut, Verb};
use std::alloc::Global;
use texts::{List, NoMemory};

/// The row of a total alone.
fn one_row(alloc: Global, total: u64) -> Result<List<RowOut>, NoMemory>
    ensures { IfOk result (λ rows. rows ≡ RowOut.One total ∷ []) }
{
    let mut rows = List::new(alloc);
    rows.add(RowOut::One(total))?;
    Ok(rows)
}

/// The row of a count.
fn count_rows(
    alloc: Global,
    schema: &Schema,
    query: &Query,
    points: &[Point],
) -> Result<List<RowOut>, NoMemory>
    requires region { query.now.region.z ≤ schema.now.depth }
    requires light { amount anywhere points.now < 2 ^ 64 }
    ensures { IfOk result (λ rows. rows ≡ RowOut.One (total schema.now (box query.now) points.now) ∷ []) }
{
    one_row(alloc, count_box(schema, query, points))
}

/// The row of a window.
#[tactic(auto, unfolding(query_syntax::specs::Windows::window_total))]
fn window_rows(
    alloc: Global,
    query: &Query,
    rect: &Rect,
    points: &[Point],
) -> Result<List<RowOut>, NoMemory>
    requires { amount anywhere points.now < 2 ^ 64 }
    ensures { IfOk result (λ rows. rows ≡ RowOut.One (window_total query.now rect.now points.now) ∷ []) }
{
    let marks = ValueMarks::new(&query.sets);
    one_row(alloc, count_window(query, &marks, rect, points))
}

/// The first so many rows of the tiles so many levels below the region, in the order of their totals.
fn best_rows(
    alloc: Global,
    schema: &Schema,
    query: &Query,
    levels: u8,
    count: u32,
    points: &[Point],
) -> Result<List<RowOut>, NoMemory>
    requires deep { (levels ≤ 10) × (query.now.region.z + levels ≤ schema.now.depth) }
    requires region { (query.now.region.x < 2 ^ query.now.region.z) × (query.now.region.y < 2 ^ query.now.region.z) }
    requires light { amount anywhere points.now < 2 ^ 64 }
    ensures { IfOk result (λ rows. rows ≡ top_rows schema.now query.now points.now levels count) }
{
    let areas = area_rows(alloc, schema, query, levels, points)?;
    let first = first_by_total(areas, count as usize)?;
    Ok(first)
}

/// The rows of the table that the query asks for over the points, which weigh less than 2^64 in all: one look at each
/// point, whichever the verb, and one at each row, where a map, or the best tiles, look at all tiles of their level in
/// the region. `NoMemory` where the rows, or a number for each, find no room.
pub fn list_rows(
    alloc: Global,
    schema: &Schema,
    query: &Query,
    points: &[Point],
) -> Result<List<RowOut>, NoMemory>
    requires valid { IsTrue (is_valid_query schema.now query.now) }
    requires verb { IsTrue (has_table query.now.verb) }
    requires light { amount anywhere points.now < 2 ^ 64 }
    ensures { IfOk result (λ rows. rows ≡ table_rows schema.now query.now points.now) }
{
    match query.verb {
        Verb::Count => count_rows(alloc, schema, query, points),
        Verb::Hist(k) => value_rows(alloc, schema, query, k, points),
        Verb::Map(levels) => area_rows(alloc, schema, query, levels, points),
        Verb::Series { from, wide, rows } => {
            bins_rows(alloc, schema, query, from, wide, rows, points)
        }
        Verb::Window(rect) => window_rows(alloc, query, &rect, points),
        Verb::Cross(first, second) => pair_rows(alloc, schema, query, first, second, points),
        Verb::Best { depth, rows } => best_rows(alloc, schema, query, depth, rows, points),
        Verb::Stat | Verb::Told | Verb::Quit => unreachable!(),
    }
}
