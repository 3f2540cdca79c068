//! The row of a table that a spot is of.
ghost use Rattle.std.specs.Prelude.{◌≡◌, ℕ, ◌+◌, ◌*◌, ◌^◌, ◌<◌, ◌≤◌, IfSome, IsTrue, slice_index_or};
ghost use Rattle.cube_view.specs.Places.{shifted};
ghost use Rattle.list_tables.specs.Cells.{cell_box, has_both, is_at, is_in_bins, place_in_square, IsRow, Shares};
ghost use Rattle.list_tables.specs.Marked.{marked_sets};
ghost use Rattle.query_syntax.specs.Boxes.{box, inside};

use crate::count::is_inside;
use crate::marks::ValueMarks;
use cube_view::{Schema, Spot};
use query_syntax::Query;

/// By what the rows of a table, numbered from 0, divide what a query counts.
#[derive(Clone, Copy)]
pub(crate) enum Cells {
    /// By the value of a category.
    Values(u8),
    /// By the values of two categories, the second of so many values, which are next to each other.
    Pairs { first: u8, second: u8, wide: usize },
    /// By bins: so many from a first one on.
    Bins { from: u64, wide: u64 },
    /// By tiles so many levels below the region, row by row.
    Tiles(u8),
}

/// The number of a tile's place among those of a square of 2^`levels` by as many.
pub(crate) fn place_in_square(levels: u8, x: u32, y: u32) -> usize
    requires { levels ≤ 10 }
    ensures place { result ≡ place_in_square levels x y }
    ensures within { result < 2 ^ levels * 2 ^ levels }
{
    let wide = 1usize << levels;
    let (x, y) = (x as usize, y as usize);
    y % wide * wide + x % wide
}

/// The value of category `k`.
fn value_of(values: &[u8; 4], k: u8) -> usize
    requires { k < 4 }
    ensures value { result ≡ slice_index_or values.now k 0 }
    ensures small { result < 256 }
{
    usize::from(values[usize::from(k)])
}

/// The place of a spot's tile in the square of tiles so many levels below a tile of level `z`.
fn place_of(depth: u8, z: u8, levels: u8, spot: &Spot) -> usize
    requires depth { depth ≤ 20 }
    requires levels { levels ≤ 10 }
    requires deep { z + levels ≤ depth }
    ensures { result ≡ place_in_square levels (shifted depth (z + levels) spot.now.x) (shifted depth (z + levels) spot.now.y) }
{
    let by = depth - (z + levels);
    place_in_square(levels, spot.x >> by, spot.y >> by)
}

/// The number of the row of two values, if the second category has its value.
fn pair_cell(values: &[u8; 4], first: u8, second: u8, wide: usize) -> Option<usize>
    requires categories { (first < 4) × (second < 4) }
    requires wide { (1 ≤ wide) × (wide ≤ 256) }
    ensures { (i : ℕ) → has_both (slice_index_or values.now first 0) (slice_index_or values.now second 0) wide i ≡ is_at result i }
{
    let other = value_of(values, second);
    if other >= wide {
        return None;
    }
    Some(value_of(values, first) * wide + other)
}

/// The number of the row of a bin, if it is not before the first.
fn bin_cell(bin: u64, from: u64, wide: u64) -> Option<usize>
    requires { 1 ≤ wide }
    ensures { (i : ℕ) → is_in_bins from wide i bin ≡ is_at result i }
{
    if bin < from {
        return None;
    }
    Some(((bin - from) / wide) as usize)
}

/// The number of the row that a spot inside the query's box is of, if there is one.
fn cell_inside(schema: &Schema, query: &Query, cells: &Cells, spot: &Spot) -> Option<usize>
    requires inside { IsTrue (inside schema.now (box query.now) spot.now) }
    requires shares { Shares schema.now query.now cells.now }
    ensures { (i : ℕ) → IsRow cells.now i → inside schema.now (cell_box query.now cells.now i) spot.now ≡ is_at result i }
{
    match *cells {
        Cells::Values(k) => Some(value_of(&spot.values, k)),
        Cells::Pairs {
            first,
            second,
            wide,
        } => pair_cell(&spot.values, first, second, wide),
        Cells::Bins { from, wide } => bin_cell(u64::from(spot.bin), from, wide),
        Cells::Tiles(levels) => Some(place_of(schema.depth, query.region.z, levels, spot)),
    }
}

/// The number of the row, of so many, that counts the spot, if there is one. The query has these marks.
pub(crate) fn cell_of(
    schema: &Schema,
    query: &Query,
    marks: &ValueMarks,
    cells: &Cells,
    count: usize,
    spot: &Spot,
) -> Option<usize>
    requires marks { marked_sets marks.now ≡ query.now.sets }
    requires region { query.now.region.z ≤ schema.now.depth }
    requires shares { Shares schema.now query.now cells.now }
    requires rows { (i : ℕ) → i < count → IsRow cells.now i }
    ensures row { (i : ℕ) → i < count → inside schema.now (cell_box query.now cells.now i) spot.now ≡ is_at result i }
    ensures within { IfSome result (λ found. found < count) }
{
    if !is_inside(schema, query, marks, spot) {
        return None;
    }
    let cell = cell_inside(schema, query, cells, spot)?;
    if cell >= count {
        return None;
    }
    Some(cell)
}
