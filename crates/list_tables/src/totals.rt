//! The totals of the rows of a table.
ghost use Rattle.std.specs.Prelude.{◌≡◌, ℕ, ◌<◌, ◌≤◌, ◌^◌, IfOk, IfSome, length, slice_index_or};
ghost use Rattle.cube_view.specs.Bag.{amount, anywhere};
ghost use Rattle.list_tables.specs.Cells.{IsRow, Shares};
ghost use Rattle.list_tables.specs.Marked.{marked_sets};
ghost use Rattle.list_tables.specs.Totals.{with_one_more, AreRowSums, HasPlace};

use crate::cells::{Cells, cell_of};
use crate::marks::ValueMarks;
use cube_view::{Point, Schema};
use query_syntax::Query;
use std::alloc::Global;
use texts::{List, NoMemory};

/// Adds a point's weight to the total of the row that was found for it, if one was.
fn add_weight(totals: &mut [u64], found: Option<usize>, weight: u32)
    requires { IfSome found (HasPlace totals.old weight) }
    ensures { totals.new ≡ with_one_more totals.old found weight }
{
    if let Some(row) = found {
        totals[row] += u64::from(weight);
    }
}

/// Adds the weight of each point to the total of its row. The query has these marks.
fn add_points(
    schema: &Schema,
    query: &Query,
    marks: &ValueMarks,
    cells: &Cells,
    points: &[Point],
    totals: &mut [u64],
)
    requires marks { marked_sets marks.now ≡ query.now.sets }
    requires region { query.now.region.z ≤ schema.now.depth }
    requires shares { Shares schema.now query.now cells.now }
    requires rows { (i : ℕ) → i < length totals.old → IsRow cells.now i }
    requires light { amount anywhere points.now < 2 ^ 64 }
    requires zeros { (i : ℕ) → i < length totals.old → slice_index_or totals.old i 0 ≡ 0 }
    ensures { AreRowSums schema.now query.now cells.now (length totals.old) points.now totals.new }
{
    for point in points {
        let found = cell_of(schema, query, marks, cells, totals.len(), &point.spot);
        add_weight(totals, found, point.weight);
    }
}

/// The totals of the first so many rows.
pub(crate) fn totals_of(
    alloc: Global,
    schema: &Schema,
    query: &Query,
    cells: &Cells,
    count: usize,
    points: &[Point],
) -> Result<List<u64>, NoMemory>
    requires region { query.now.region.z ≤ schema.now.depth }
    requires shares { Shares schema.now query.now cells.now }
    requires rows { (i : ℕ) → i < count → IsRow cells.now i }
    requires light { amount anywhere points.now < 2 ^ 64 }
    ensures { IfOk result (AreRowSums schema.now query.now cells.now count points.now) }
{
    let mut totals = vec![in alloc; 0; count]?;
    let marks = ValueMarks::new(&query.sets);
    add_points(schema, query, &marks, cells, points, totals.as_mut_slice());
    Ok(List::from_vec(totals))
}
