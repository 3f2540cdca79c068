//! The rows of a histogram and of a series.
ghost use Rattle.std.specs.Prelude.{◌≡◌, ◌<◌, ◌≤◌, ◌^◌, IfOk, length, map, true};
ghost use Rattle.std.specs.List.{range_with_len};
ghost use Rattle.cube_view.specs.Bag.{amount, anywhere};
ghost use Rattle.query_syntax.specs.Items.{values_at};
ghost use Rattle.query_syntax.specs.Queries.{is_all_bins};
ghost use Rattle.query_syntax.specs.Tables.{bins_row, value_row};
ghost use Rattle.query_syntax.specs.Verbs.{bins, most_rows};

use crate::cells::Cells;
use crate::totals::totals_of;
use cube_view::{Point, Schema};
use query_syntax::{Query, RowOut};
use std::alloc::Global;
use texts::{List, NoMemory, Text};

/// The texts of a category's values, in order.
pub(crate) fn value_texts(schema: &Schema, k: u8) -> &[Text]
    requires { k < length schema.now.categories }
    ensures texts { result.now ≡ values_at schema.now.categories k }
    ensures few { (1 ≤ length result.now) × (length result.now ≤ 256) }
{
    schema.categories.get(usize::from(k)).values.as_slice()
}

/// A row for each value of category `k`.
pub(crate) fn value_rows(
    alloc: Global,
    schema: &Schema,
    query: &Query,
    k: u8,
    points: &[Point],
) -> Result<List<RowOut>, NoMemory>
    requires region { query.now.region.z ≤ schema.now.depth }
    requires sets { length query.now.sets ≡ 4 }
    requires category { k < length schema.now.categories }
    requires light { amount anywhere points.now < 2 ^ 64 }
    ensures { IfOk result (λ rows. rows ≡ map (value_row schema.now query.now points.now k) (range_with_len 0 (length (values_at schema.now.categories k)))) }
{
    let texts = value_texts(schema, k);
    let found = totals_of(alloc, schema, query, &Cells::Values(k), texts.len(), points)?;
    let totals = found.as_slice();
    let mut rows = List::new(alloc);
    for (value, text) in texts.iter().enumerate() {
        let text = text.copy(alloc)?;
        rows.add(RowOut::Value(text, totals[value]))?;
    }
    Ok(rows)
}

/// Rows of so many bins each.
pub(crate) fn bins_rows(
    alloc: Global,
    schema: &Schema,
    query: &Query,
    from: u64,
    wide: u64,
    count: u32,
    points: &[Point],
) -> Result<List<RowOut>, NoMemory>
    requires region { query.now.region.z ≤ schema.now.depth }
    requires time { is_all_bins query.now.time ≡ true }
    requires small { (from < bins) × (1 ≤ wide) × (wide ≤ bins) × (count ≤ most_rows) }
    requires light { amount anywhere points.now < 2 ^ 64 }
    ensures { IfOk result (λ rows. rows ≡ map (bins_row schema.now query.now points.now from wide) (range_with_len 0 count)) }
{
    let cells = Cells::Bins { from, wide };
    let found = totals_of(alloc, schema, query, &cells, count as usize, points)?;
    let totals = found.as_slice();
    let mut rows = List::new(alloc);
    for i in 0..count {
        let place = u64::from(i);
        rows.add(RowOut::Bin(from + place * wide, totals[i as usize]))?;
    }
    Ok(rows)
}
