//! The table of a query.
ghost use Rattle.std.specs.Prelude.{◌≡◌, ℕ, ◌+◌, ◌≤◌, IsTrue, IfOk};
ghost use Rattle.query_syntax.specs.Queries.{is_valid_query};
ghost use Rattle.query_syntax.specs.Tables.{is_drill, table, rows_of_verb};
ghost use Rattle.query_walk.specs.Costs.{search_cost};
ghost use Rattle.query_walk.specs.Views.{EachListOf, TakesUpTo};
ghost use Rattle.tile_drill.specs.Costs.{table_cost};

use crate::bins::bins_rows;
use crate::values::value_rows;
use cube_view::CubeView;
use probe_core::Steps;
use query_syntax::{Query, RowOut, Table, Verb};
use query_walk::{area_rows, total};
use std::alloc::Global;
use std::sync::ledger::Ledger;
use texts::{List, NoMemory};

/// The row of a count.
fn total_row<V: CubeView, L: Ledger>(
    alloc: Global,
    view: &V,
    query: &Query,
    steps: &mut Steps<L>,
) -> Result<List<RowOut>, NoMemory>
    requires valid { IsTrue (is_valid_query (V.schema view.now) query.now) }
    ensures rows { IfOk result (λ rows. EachListOf V.CubeView view.now (λ h. rows ≡ rows_of_verb (V.schema view.now) query.now h Verb.Count)) }
    ensures cost { TakesUpTo V.CubeView view.now steps.old steps.new (λ costs schema h. search_cost costs schema h query.now) }
{
    let mut rows = List::new(alloc);
    rows.add(RowOut::One(total(view, query, steps)))?;
    Ok(rows)
}

/// The rows that the query asks for, along one dimension at most.
fn table_rows<V: CubeView, L: Ledger>(
    alloc: Global,
    view: &V,
    query: &Query,
    steps: &mut Steps<L>,
) -> Result<List<RowOut>, NoMemory>
    requires valid { IsTrue (is_valid_query (V.schema view.now) query.now) }
    requires verb { IsTrue (is_drill query.now.verb) }
    ensures rows { IfOk result (λ rows. EachListOf V.CubeView view.now (λ h. rows ≡ rows_of_verb (V.schema view.now) query.now h query.now.verb)) }
    ensures cost { TakesUpTo V.CubeView view.now steps.old steps.new (λ costs schema h. table_cost costs schema h query.now query.now.verb) }
{
    match query.verb {
        Verb::Count => total_row(alloc, view, query, steps),
        Verb::Hist(category) => value_rows(alloc, view, query, category, steps),
        Verb::Map(levels) => area_rows(alloc, view, query, levels, steps),
        Verb::Series { from, wide, rows } => bins_rows(alloc, view, query, from, wide, rows, steps),
        Verb::Window(_) | Verb::Cross(_, _) | Verb::Best { .. } => unreachable!(),
        Verb::Stat | Verb::Told | Verb::Quit => unreachable!(),
    }
}

/// The table that a count, a histogram, a map or a series asks for, over any list of points that the view counts.
pub fn answer<V: CubeView, L: Ledger>(
    alloc: Global,
    view: &V,
    query: &Query,
    steps: &mut Steps<L>,
) -> Result<Table, NoMemory>
    requires valid { IsTrue (is_valid_query (V.schema view.now) query.now) }
    requires verb { IsTrue (is_drill query.now.verb) }
    ensures table { EachListOf V.CubeView view.now (λ h. IfOk result (λ t. t ≡ table (V.schema view.now) query.now h)) }
    ensures cost { TakesUpTo V.CubeView view.now steps.old steps.new (λ costs schema h. table_cost costs schema h query.now query.now.verb) }
{
    let rows = table_rows(alloc, view, query, steps)?;
    Ok(Table {
        rows,
        seen: view.seen(),
    })
}
