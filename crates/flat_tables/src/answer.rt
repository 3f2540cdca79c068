//! The table of a query over points in path order.
ghost use Rattle.std.specs.Prelude.{◌≡◌, ◌&&◌, not, true, IfOk, IsTrue};
ghost use Rattle.flat_view.specs.Kept.{flat_points, flat_schema};
ghost use Rattle.query_syntax.specs.Queries.{is_valid_query};
ghost use Rattle.query_syntax.specs.Tables.{has_table, table};
ghost use Rattle.query_syntax.specs.Verbs.{is_window};
ghost use Rattle.query_syntax.specs.declared.query.Verb.TheVariants.{Count};

use crate::halves::box_total;
use crate::window::window_answer;
use flat_view::FlatView;
use list_tables::list_rows;
use query_syntax::{Query, RowOut, Table, Verb};
use std::alloc::Global;
use std::thread::Threads;
use texts::{List, NoMemory};

/// The table of the query's region: its rows over the points there alone, and how many points there are in all.
fn region_answer(alloc: Global, view: &FlatView, query: &Query) -> Result<Table, NoMemory>
    requires valid { IsTrue (is_valid_query (flat_schema view.now) query.now) }
    requires verb { has_table query.now.verb && not (is_window query.now.verb) ≡ true }
    ensures { IfOk result (λ t. t ≡ table (flat_schema view.now) query.now (flat_points view.now)) }
{
    let points = view.in_tile(&query.region);
    let rows = list_rows(alloc, view.schema(), query, points)?;
    let seen = view.points().len() as u64;
    Ok(Table { rows, seen })
}

/// The table of a count: its total, and how many points there are in all.
fn count_answer<R: Threads>(
    rt: &R,
    alloc: Global,
    view: &FlatView,
    query: &Query,
) -> Result<Table, NoMemory>
    requires valid { IsTrue (is_valid_query (flat_schema view.now) query.now) }
    requires verb { query.now.verb ≡ Count }
    ensures { IfOk result (λ t. t ≡ table (flat_schema view.now) query.now (flat_points view.now)) }
{
    let near = view.in_tile(&query.region);
    let mut rows = List::new(alloc);
    rows.add(RowOut::One(box_total(rt, view.schema(), query, near)))?;
    Ok(Table {
        rows,
        seen: view.points().len() as u64,
    })
}

/// The table of the query: of a window by its tiles, of each other verb by a pass over the points of its region. Many
/// points are counted by two threads. `NoMemory` where the rows find no room.
pub fn flat_answer<R: Threads>(
    rt: &R,
    alloc: Global,
    view: &FlatView,
    query: &Query,
) -> Result<Table, NoMemory>
    requires valid { IsTrue (is_valid_query (flat_schema view.now) query.now) }
    requires verb { IsTrue (has_table query.now.verb) }
    ensures { IfOk result (λ t. t ≡ table (flat_schema view.now) query.now (flat_points view.now)) }
{
    match query.verb {
        Verb::Window(_) => window_answer(rt, alloc, view, query),
        Verb::Count => count_answer(rt, alloc, view, query),
        _ => region_answer(alloc, view, query),
    }
}
