//! The rows of a series.
ghost use Rattle.std.specs.Prelude.{◌≡◌, ℕ, ◌+◌, ◌*◌, ◌<◌, ◌≤◌, ◌^◌, IfOk, length, replicate};
ghost use Rattle.query_syntax.specs.Tables.{rows_of_verb};
ghost use Rattle.query_syntax.specs.Verbs.{bins, most_rows};
ghost use Rattle.query_walk.specs.Views.{EachListOf, TakesUpTo};
ghost use Rattle.query_walk.specs.Walks.{HasBox};
ghost use Rattle.tile_drill.specs.Costs.{bins_cost};
ghost use Rattle.tile_drill.specs.Series.{AreRowTotals, HasSeriesRoom};

use crate::sums::{Series, add_from};
use cube_view::CubeView;
use probe_core::Steps;
use query_syntax::{Query, RowOut, Verb};
use query_walk::region_cursor;
use std::alloc::Global;
use std::sync::ledger::Ledger;
use texts::{List, NoMemory};

/// So many zeros.
fn zeros(alloc: Global, count: usize) -> Result<Vec<u64>, NoMemory>
    ensures { IfOk result (λ numbers. numbers.items ≡ replicate count 0) }
{
    Ok(vec![in alloc; 0; count]?)
}

/// Puts each row's total in the place of its zero. It takes no memory.
fn add_all<V: CubeView, L: Ledger>(
    view: &V,
    series: &Series,
    ends: &mut [u64],
    sums: &mut [u64],
    steps: &mut Steps<L>,
)
    requires has_box { HasBox (V.schema view.now) series.now.query }
    requires room { HasSeriesRoom series.now ends.old sums.old }
    requires zeros { sums.old ≡ replicate (series.now.rows) 0 }
    ensures totals { EachListOf V.CubeView view.now (AreRowTotals (V.schema view.now) series.now sums.new) }
    ensures cost { TakesUpTo V.CubeView view.now steps.old steps.new (λ costs schema h. bins_cost costs schema h series.now.query series.now.rows) }
{
    let Some(region) = region_cursor(view, &series.query.region, steps) else {
        return;
    };
    match view.across(region, steps) {
        Some(next) => add_from(view, series, next, 0, ends, sums, steps),
        None => {}
    }
}

/// The total of each row. `NoMemory` where there is no room for as many numbers twice.
fn row_totals<V: CubeView, L: Ledger>(
    alloc: Global,
    view: &V,
    series: &Series,
    steps: &mut Steps<L>,
) -> Result<List<u64>, NoMemory>
    requires has_box { HasBox (V.schema view.now) series.now.query }
    requires few { series.now.rows ≤ most_rows }
    requires small { series.now.first + series.now.wide * (series.now.rows + 1) < 2 ^ 64 }
    ensures totals { IfOk result (λ totals. EachListOf V.CubeView view.now (AreRowTotals (V.schema view.now) series.now totals)) }
    ensures long { IfOk result (λ totals. length totals ≡ series.now.rows) }
    ensures cost { TakesUpTo V.CubeView view.now steps.old steps.new (λ costs schema h. bins_cost costs schema h series.now.query series.now.rows) }
{
    let mut ends = zeros(alloc, series.rows + 1)?;
    let mut sums = zeros(alloc, series.rows)?;
    let places = ends.as_mut_slice();
    let totals = sums.as_mut_slice();
    add_all(view, series, places, totals, steps);
    Ok(List::from_vec(sums))
}

/// The rows of a series: from a first bin on, each of so many bins.
pub fn bins_rows<V: CubeView, L: Ledger>(
    alloc: Global,
    view: &V,
    query: &Query,
    first: u64,
    wide: u64,
    count: u32,
    steps: &mut Steps<L>,
) -> Result<List<RowOut>, NoMemory>
    requires has_box { HasBox (V.schema view.now) query.now }
    requires first { first < bins }
    requires wide { wide ≤ bins }
    requires count { count ≤ most_rows }
    ensures rows { IfOk result (λ rows. EachListOf V.CubeView view.now (λ h. rows ≡ rows_of_verb (V.schema view.now) query.now h (Verb.Series first wide count))) }
    ensures cost { TakesUpTo V.CubeView view.now steps.old steps.new (λ costs schema h. bins_cost costs schema h query.now count) }
{
    let series = Series {
        query: *query,
        first,
        wide,
        rows: count as usize,
    };
    let found = row_totals(alloc, view, &series, steps)?;
    let totals = found.as_slice();
    let mut rows = List::new(alloc);
    for i in 0..count {
        let place = u64::from(i);
        let total = totals[i as usize];
        rows.add(RowOut::Bin(first + place * wide, total))?;
    }
    Ok(rows)
}
