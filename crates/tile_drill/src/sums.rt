//! The one walk of a series.
ghost use Rattle.std.specs.Prelude.{◌≡◌, ℕ, ◌+◌, ◌<◌, ◌≤◌, length, slice_index_or};
ghost use Rattle.cube_view.specs.Places.{time_dim};
ghost use Rattle.query_syntax.specs.declared.query.Choice.TheVariants as choice;
ghost use Rattle.query_walk.specs.Views.{EachListOf, TakesUpTo};
ghost use Rattle.query_walk.specs.Walks.{IsAtCategory, HasChoicesFrom, AsksAtCategory};
ghost use Rattle.tile_drill.specs.Costs.{ends_cost};
ghost use Rattle.tile_drill.specs.Series.{row_at_value, row_left, row_under, FitsEach, GainsEach, HasSeriesRoom, rows_cost, row_cost_at};

use cube_view::CubeView;
use probe_core::Steps;
use query_syntax::{Choice, Query, ValueSet};
use std::sync::ledger::Ledger;

/// A query, and the rows that are counted of it: the first one's first bin, how many bins each has, and how many rows
/// there are.
#[derive(Clone, Copy)]
pub(crate) struct Series {
    pub(crate) query: Query,
    pub(crate) first: u64,
    pub(crate) wide: u64,
    pub(crate) rows: usize,
}

/// Adds to each row's sum what the bag has under the cursor, of time, in the row's bins. `ends` is room for the running
/// totals at the rows' ends.
fn add_rows<V: CubeView, L: Ledger>(
    view: &V,
    series: &Series,
    cursor: V::Cursor,
    ends: &mut [u64],
    sums: &mut [u64],
    steps: &mut Steps<L>,
)
    requires stands { V.stands view.now cursor }
    requires time { (V.address view.now cursor).dim ≡ time_dim (V.schema view.now) }
    requires room { HasSeriesRoom series.now ends.old sums.old }
    requires fits { EachListOf V.CubeView view.now (FitsEach (row_under (V.schema view.now) series.now (V.address view.now cursor)) sums.old) }
    ensures sums { EachListOf V.CubeView view.now (GainsEach (row_under (V.schema view.now) series.now (V.address view.now cursor)) sums.old sums.new) }
    ensures cost { steps.new ≤ steps.old + ends_cost (V.costs view.now) (series.now.rows + 1) (V.address view.now cursor) }
{
    view.before_each(cursor, series.first, series.wide, ends, steps);
    for i in 0..sums.len() {
        sums[i] += ends[i + 1] - ends[i];
    }
}

/// Adds to each row's sum what the bag has of it under the cursor, as far as the query says from category `k` on,
/// counted from 0. It takes no memory.
#[cycle(walk)]
pub(crate) fn add_from<V: CubeView, L: Ledger>(
    view: &V,
    series: &Series,
    cursor: V::Cursor,
    k: usize,
    ends: &mut [u64],
    sums: &mut [u64],
    steps: &mut Steps<L>,
)
    requires stands { V.stands view.now cursor }
    requires here { IsAtCategory (V.address view.now cursor) k }
    requires choices { HasChoicesFrom (V.schema view.now) series.now.query k }
    requires room { HasSeriesRoom series.now ends.old sums.old }
    requires fits { EachListOf V.CubeView view.now (FitsEach (row_left (V.schema view.now) series.now (V.address view.now cursor) k) sums.old) }
    ensures sums { EachListOf V.CubeView view.now (GainsEach (row_left (V.schema view.now) series.now (V.address view.now cursor) k) sums.old sums.new) }
    ensures cost { TakesUpTo V.CubeView view.now steps.old steps.new (λ costs schema h. rows_cost costs schema h series.now k (V.address view.now cursor)) }
{
    if k == view.schema().categories.len() {
        return add_rows(view, series, cursor, ends, sums, steps);
    }
    match series.query.sets[k] {
        Choice::All => match view.across(cursor, steps) {
            Some(next) => add_from(view, series, next, k + 1, ends, sums, steps),
            None => {}
        },
        Choice::Only(set) => add_in_set(view, series, cursor, k, &set, ends, sums, steps),
    }
}

/// The same, where category `k` has this set.
#[cycle(walk)]
fn add_in_set<V: CubeView, L: Ledger>(
    view: &V,
    series: &Series,
    cursor: V::Cursor,
    k: usize,
    set: &ValueSet,
    ends: &mut [u64],
    sums: &mut [u64],
    steps: &mut Steps<L>,
)
    requires stands { V.stands view.now cursor }
    requires walk { AsksAtCategory (V.schema view.now) series.now.query (V.address view.now cursor) k }
    requires set { slice_index_or series.now.query.sets k choice.All ≡ choice.Only set.now }
    requires wide { length set.now ≡ 256 }
    requires room { HasSeriesRoom series.now ends.old sums.old }
    requires fits { EachListOf V.CubeView view.now (FitsEach (row_left (V.schema view.now) series.now (V.address view.now cursor) k) sums.old) }
    ensures sums { EachListOf V.CubeView view.now (GainsEach (row_left (V.schema view.now) series.now (V.address view.now cursor) k) sums.old sums.new) }
    ensures cost { TakesUpTo V.CubeView view.now steps.old steps.new (λ costs schema h. rows_cost costs schema h series.now k (V.address view.now cursor)) }
{
    for value in 0..set.end() {
        if set.has(value as u8) {
            add_at_value(view, series, cursor, k, value as u8, ends, sums, steps);
        }
    }
}

/// The same, where category `k` has this value.
#[cycle(walk)]
fn add_at_value<V: CubeView, L: Ledger>(
    view: &V,
    series: &Series,
    cursor: V::Cursor,
    k: usize,
    value: u8,
    ends: &mut [u64],
    sums: &mut [u64],
    steps: &mut Steps<L>,
)
    requires stands { V.stands view.now cursor }
    requires walk { AsksAtCategory (V.schema view.now) series.now.query (V.address view.now cursor) k }
    requires room { HasSeriesRoom series.now ends.old sums.old }
    requires fits { EachListOf V.CubeView view.now (FitsEach (row_at_value (V.schema view.now) series.now (V.address view.now cursor) k value) sums.old) }
    ensures sums { EachListOf V.CubeView view.now (GainsEach (row_at_value (V.schema view.now) series.now (V.address view.now cursor) k value) sums.old sums.new) }
    ensures cost { TakesUpTo V.CubeView view.now steps.old steps.new (λ costs schema h. row_cost_at costs schema h series.now k (V.address view.now cursor) value) }
{
    let Some(deeper) = view.down(cursor, value, steps) else {
        return;
    };
    match view.across(deeper, steps) {
        Some(next) => add_from(view, series, next, k + 1, ends, sums, steps),
        None => {}
    }
}
