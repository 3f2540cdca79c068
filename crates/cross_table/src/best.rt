//! The best tiles.
ghost use Rattle.std.specs.Prelude.{◌≡◌, ℕ, ◌+◌, ◌≤◌, IsTrue, IfOk, take};
ghost use Rattle.cross_table.specs.Costs.{best_cost};
ghost use Rattle.cross_table.specs.Ranking.{total_of_row, IsFirstByTotal};
ghost use Rattle.cross_table.specs.Verbs.{is_best};
ghost use Rattle.query_syntax.specs.Queries.{is_valid_query};
ghost use Rattle.query_syntax.specs.Tables.{table};
ghost use Rattle.query_walk.specs.Views.{EachListOf, TakesUpTo};

use cube_view::CubeView;
use probe_core::Steps;
use query_syntax::{Query, RowOut, Table, Verb};
use query_walk::area_rows;
use std::alloc::Global;
use std::cmp::Reverse;
use std::sync::ledger::Ledger;
use texts::{List, NoMemory};

/// The total of a row.
fn row_weight(row: &RowOut) -> u64
    ensures { result ≡ total_of_row row.now }
{
    match row {
        RowOut::One(total) => *total,
        RowOut::Value(_, total) => *total,
        RowOut::Area(_, total) => *total,
        RowOut::Bin(_, total) => *total,
        RowOut::Pair(_, _, total) => *total,
    }
}

/// The first so many rows in the order of their totals, the greatest first and equal ones as they stood. `NoMemory`
/// where the sort finds no room.
pub fn first_by_total(rows: List<RowOut>, count: usize) -> Result<List<RowOut>, NoMemory>
    ensures { IfOk result (λ first. IsFirstByTotal rows count first) }
{
    let mut rows = rows.into_vec();
    match rows.sort_by_key(|row| Reverse(row_weight(row))) {
        Ok(()) => {
            rows.truncate(count);
            Ok(List::from_vec(rows))
        }
        Err(_) => Err(NoMemory),
    }
}

/// The table of the tiles so many levels below the query's region that have the greatest totals, over any list of
/// points that the view counts: at most as many rows as the query says. `NoMemory` where the map's rows find no room.
pub fn best_answer<V: CubeView, L: Ledger>(
    alloc: Global,
    view: &V,
    query: &Query,
    steps: &mut Steps<L>,
) -> Result<Table, NoMemory>
    requires valid { IsTrue (is_valid_query (V.schema view.now) query.now) }
    requires verb { IsTrue (is_best query.now.verb) }
    ensures table { EachListOf V.CubeView view.now (λ h. IfOk result (λ t. t ≡ table (V.schema view.now) query.now h)) }
    ensures cost { TakesUpTo V.CubeView view.now steps.old steps.new (λ costs schema h. best_cost costs schema h query.now query.now.verb) }
{
    let Verb::Best { depth, rows } = query.verb else {
        unreachable!()
    };
    let found = area_rows(alloc, view, query, depth, steps)?;
    let first = first_by_total(found, rows as usize)?;
    Ok(Table {
        rows: first,
        seen: view.seen(),
    })
}
