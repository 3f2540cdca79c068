//! Cross tables.
ghost use Rattle.std.specs.Prelude.{◌≡◌, ℕ, ◌+◌, ◌<◌, ◌≤◌, [], ◌++◌, IsTrue, IfOk, OnOk, length};
ghost use Rattle.std.specs.List.{flat_map, range_with_len};
ghost use Rattle.cross_table.specs.Costs.{within_cost, pairs_cost, cross_cost};
ghost use Rattle.cross_table.specs.Pairs.{cost_of_both, row_of_both, rows_within_value, total_of_both};
ghost use Rattle.cross_table.specs.Values.{IsValue};
ghost use Rattle.cross_table.specs.Verbs.{is_cross};
ghost use Rattle.query_syntax.specs.Boxes.{box, total as total_of};
ghost use Rattle.query_syntax.specs.CrossTables.{text_of_value, cross_rows as cross_rows_of};
ghost use Rattle.query_syntax.specs.Items.{values_at};
ghost use Rattle.query_syntax.specs.Parts.{with_one_value};
ghost use Rattle.query_syntax.specs.Narrowing.{with_value};
ghost use Rattle.query_syntax.specs.Queries.{is_valid_query};
ghost use Rattle.query_syntax.specs.Tables.{table};
ghost use Rattle.query_walk.specs.Costs.{from_region_cost, region_cost};
ghost use Rattle.query_walk.specs.Views.{EachListOf, TakesUpTo};
ghost use Rattle.query_walk.specs.Walks.{HasBox, HasWalked};

use cube_view::{CubeView, Schema};
use probe_core::Steps;
use query_syntax::{Query, RowOut, Table, Verb};
use query_walk::{region_cursor, value_total};
use std::alloc::Global;
use std::sync::ledger::Ledger;
use texts::{List, NoMemory, Text};

/// A value of a category, each by its number from 0.
#[derive(Clone, Copy)]
struct CategoryValue {
    category: usize,
    value: u8,
}

/// The texts of a category's values, in order.
fn value_texts(schema: &Schema, category: usize) -> &[Text]
    requires { category < length schema.now.categories }
    ensures texts { result.now ≡ values_at schema.now.categories category }
    ensures few { length result.now ≤ 256 }
{
    schema.categories.get(category).values.as_slice()
}

/// A copy of the value's text.
fn text_of(alloc: Global, schema: &Schema, of: CategoryValue) -> Result<Text, NoMemory>
    requires { IsValue schema.now of.category of.value }
    ensures { IfOk result (λ text. text ≡ text_of_value schema.now of.category of.value) }
{
    let texts = value_texts(schema, of.category);
    texts[usize::from(of.value)].copy(alloc)
}

/// How much the bag has in the query's box that has both values, where the walk to the region has ended with that
/// cursor, or with none. `alone` is the query with the first value alone in its set, which all rows within that value
/// share.
fn total_of_pair<V: CubeView, L: Ledger>(
    view: &V,
    query: &Query,
    alone: &Query,
    first: CategoryValue,
    second: CategoryValue,
    region: Option<V::Cursor>,
    steps: &mut Steps<L>,
) -> u64
    requires walk { HasWalked (V.weight_at view.now) (V.seen view.now) (V.schema view.now) query.now (V.stands view.now) (V.address view.now) region }
    requires first { IsValue (V.schema view.now) first.category first.value }
    requires second { IsValue (V.schema view.now) second.category second.value }
    requires alone { alone.now ≡ with_one_value query.now first.category first.value }
    ensures total { EachListOf V.CubeView view.now (λ h. result ≡ total_of_both (V.schema view.now) query.now h first second) }
    ensures cost { TakesUpTo V.CubeView view.now steps.old steps.new (λ costs schema h. cost_of_both costs schema h query.now first second) }
{
    if !query.sets[first.category].has(first.value) {
        return 0;
    }
    value_total(view, alone, second.category, second.value, region, steps)
}

/// The row of both values, with `alone` as there.
fn row_of_pair<V: CubeView, L: Ledger>(
    alloc: Global,
    view: &V,
    query: &Query,
    alone: &Query,
    first: CategoryValue,
    second: CategoryValue,
    region: Option<V::Cursor>,
    steps: &mut Steps<L>,
) -> Result<RowOut, NoMemory>
    requires walk { HasWalked (V.weight_at view.now) (V.seen view.now) (V.schema view.now) query.now (V.stands view.now) (V.address view.now) region }
    requires first { IsValue (V.schema view.now) first.category first.value }
    requires second { IsValue (V.schema view.now) second.category second.value }
    requires alone { alone.now ≡ with_one_value query.now first.category first.value }
    ensures row { IfOk result (λ row. EachListOf V.CubeView view.now (λ h. row ≡ row_of_both (V.schema view.now) query.now h first second)) }
    ensures cost { TakesUpTo V.CubeView view.now steps.old steps.new (λ costs schema h. cost_of_both costs schema h query.now first second) }
{
    let total = total_of_pair(view, query, alone, first, second, region, steps);
    let first = text_of(alloc, view.schema(), first)?;
    let second = text_of(alloc, view.schema(), second)?;
    Ok(RowOut::Pair(first, second, total))
}

/// Adds the rows within a value: one for each value of another category.
fn push_rows_within<V: CubeView, L: Ledger>(
    alloc: Global,
    view: &V,
    query: &Query,
    first: CategoryValue,
    second: usize,
    region: Option<V::Cursor>,
    rows: &mut List<RowOut>,
    steps: &mut Steps<L>,
) -> Result<(), NoMemory>
    requires walk { HasWalked (V.weight_at view.now) (V.seen view.now) (V.schema view.now) query.now (V.stands view.now) (V.address view.now) region }
    requires first { IsValue (V.schema view.now) first.category first.value }
    requires second { second < length (V.schema view.now).categories }
    ensures rows { OnOk result (EachListOf V.CubeView view.now (λ h. rows.new ≡ rows.old ++ rows_within_value (V.schema view.now) query.now h first second)) }
    ensures cost { TakesUpTo V.CubeView view.now steps.old steps.new (λ costs schema h. within_cost costs schema h query.now first.category second first.value) }
{
    let mut alone = *query;
    alone.set_one_value(first.category, first.value);
    for value in 0..value_texts(view.schema(), second).len() {
        let other = CategoryValue {
            category: second,
            value: value as u8,
        };
        let row = row_of_pair(alloc, view, query, &alone, first, other, region, steps)?;
        rows.add(row)?;
    }
    Ok(())
}

/// No rows yet, with room for one of each value of the first category and each value of the second.
fn room_for_rows(
    alloc: Global,
    schema: &Schema,
    first: usize,
    second: usize,
) -> Result<List<RowOut>, NoMemory>
    requires first { first < length schema.now.categories }
    requires second { second < length schema.now.categories }
    ensures { IfOk result (λ rows. rows ≡ []) }
{
    let mut rows = List::new(alloc);
    rows.reserve(value_texts(schema, first).len() * value_texts(schema, second).len())?;
    Ok(rows)
}

/// The rows of a cross table: those within each value of the first category.
fn cross_rows<V: CubeView, L: Ledger>(
    alloc: Global,
    view: &V,
    query: &Query,
    first: usize,
    second: usize,
    steps: &mut Steps<L>,
) -> Result<List<RowOut>, NoMemory>
    requires has_box { HasBox (V.schema view.now) query.now }
    requires first { first < length (V.schema view.now).categories }
    requires second { second < length (V.schema view.now).categories }
    ensures rows { IfOk result (λ rows. EachListOf V.CubeView view.now (λ h. rows ≡ cross_rows_of (V.schema view.now) query.now h first second)) }
    ensures cost { TakesUpTo V.CubeView view.now steps.old steps.new (λ costs schema h. pairs_cost costs schema h query.now first second) }
{
    let mut rows = room_for_rows(alloc, view.schema(), first, second)?;
    let region = region_cursor(view, &query.region, steps);
    for value in 0..value_texts(view.schema(), first).len() {
        let one = CategoryValue {
            category: first,
            value: value as u8,
        };
        push_rows_within(alloc, view, query, one, second, region, &mut rows, steps)?;
    }
    Ok(rows)
}

/// The query's cross table, over any list of points that the view counts: a row for each value of the first category
/// and, within it, each value of the second. `NoMemory` where the rows find no room.
pub fn cross_answer<V: CubeView, L: Ledger>(
    alloc: Global,
    view: &V,
    query: &Query,
    steps: &mut Steps<L>,
) -> Result<Table, NoMemory>
    requires valid { IsTrue (is_valid_query (V.schema view.now) query.now) }
    requires verb { IsTrue (is_cross query.now.verb) }
    ensures table { EachListOf V.CubeView view.now (λ h. IfOk result (λ t. t ≡ table (V.schema view.now) query.now h)) }
    ensures cost { TakesUpTo V.CubeView view.now steps.old steps.new (λ costs schema h. cross_cost costs schema h query.now query.now.verb) }
{
    let Verb::Cross(first, second) = query.verb else {
        unreachable!()
    };
    let (first, second) = (usize::from(first), usize::from(second));
    let rows = cross_rows(alloc, view, query, first, second, steps)?;
    Ok(Table {
        rows,
        seen: view.seen(),
    })
}
