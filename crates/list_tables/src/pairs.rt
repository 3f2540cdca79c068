//! The rows of a cross table.
ghost use Rattle.std.specs.Prelude.{◌≡◌, ◌+◌, ◌<◌, ◌≤◌, ◌^◌, ◌++◌, IfOk, OnOk, length, map};
ghost use Rattle.std.specs.List.{range_with_len};
ghost use Rattle.cube_view.specs.Bag.{amount, anywhere};
ghost use Rattle.list_tables.specs.Pairs.{pair_row_of};
ghost use Rattle.query_syntax.specs.CrossTables.{cross_rows};

use crate::cells::Cells;
use crate::totals::totals_of;
use crate::values::value_texts;
use cube_view::{Point, Schema};
use query_syntax::{Query, RowOut};
use std::alloc::Global;
use texts::{List, NoMemory, Text};

/// Adds the rows within a value: one for each of the second category's texts, with its total of those from a first on.
fn push_rows_within(
    alloc: Global,
    first: &Text,
    seconds: &[Text],
    totals: &[u64],
    start: usize,
    rows: &mut List<RowOut>,
) -> Result<(), NoMemory>
    requires { start + length seconds.now ≤ length totals.now }
    ensures { OnOk result (rows.new ≡ rows.old ++ map (pair_row_of first.now seconds.now totals.now start) (range_with_len 0 (length seconds.now))) }
{
    for (value, second) in seconds.iter().enumerate() {
        let first = first.copy(alloc)?;
        let second = second.copy(alloc)?;
        rows.add(RowOut::Pair(first, second, totals[start + value]))?;
    }
    Ok(())
}

/// A row for each value of the first category and, within it, for each value of the second.
pub(crate) fn pair_rows(
    alloc: Global,
    schema: &Schema,
    query: &Query,
    first: u8,
    second: u8,
    points: &[Point],
) -> Result<List<RowOut>, NoMemory>
    requires region { query.now.region.z ≤ schema.now.depth }
    requires sets { length query.now.sets ≡ 4 }
    requires categories { (first < length schema.now.categories) × (second < length schema.now.categories) }
    requires light { amount anywhere points.now < 2 ^ 64 }
    ensures { IfOk result (λ rows. rows ≡ cross_rows schema.now query.now points.now first second) }
{
    let firsts = value_texts(schema, first);
    let seconds = value_texts(schema, second);
    let wide = seconds.len();
    let cells = Cells::Pairs {
        first,
        second,
        wide,
    };
    let found = totals_of(alloc, schema, query, &cells, wide * firsts.len(), points)?;
    let totals = found.as_slice();
    let mut rows = List::new(alloc);
    for (value, text) in firsts.iter().enumerate() {
        push_rows_within(alloc, text, seconds, totals, value * wide, &mut rows)?;
    }
    Ok(rows)
}
