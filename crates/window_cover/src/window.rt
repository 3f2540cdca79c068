//! What a window counts.
ghost use Rattle.std.specs.Prelude.{◌≡◌, ℕ, ◌+◌, ◌≤◌, IsTrue, IfOk};
ghost use Rattle.cube_view.specs.Bag.{amount};
ghost use Rattle.cube_view.specs.Costs.{is_found};
ghost use Rattle.cube_view.specs.Places.{region_address};
ghost use Rattle.query_syntax.specs.Queries.{is_valid_query};
ghost use Rattle.query_syntax.specs.Tables.{table};
ghost use Rattle.query_syntax.specs.Tiles.{is_tile};
ghost use Rattle.query_syntax.specs.Verbs.{is_window};
ghost use Rattle.query_syntax.specs.Windows.{window_total as window_total_of};
ghost use Rattle.query_walk.specs.Views.{EachListOf, TakesUpTo};
ghost use Rattle.query_walk.specs.Walks.{HasBox};
ghost use Rattle.window_cover.specs.Costs.{window_cost};
ghost use Rattle.window_cover.specs.Ways.{HasComeTo, inside_cost, is_window_in};
ghost use Rattle.window_cover.specs.Windows.{rect_of_verb};

use crate::rect::{crosses, has_tile};
use cube_view::{CubeView, Tile, quadrant};
use probe_core::Steps;
use query_syntax::{Query, Rect, RowOut, Table, Verb};
use query_walk::total_in_tile;
use std::alloc::Global;
use std::sync::ledger::Ledger;
use texts::{List, NoMemory};

/// How much the bag has of the window in the tile at which the cursor stands.
fn total_inside<V: CubeView, L: Ledger>(
    view: &V,
    query: &Query,
    rect: &Rect,
    tile: &Tile,
    cursor: V::Cursor,
    steps: &mut Steps<L>,
) -> u64
    requires stands { V.stands view.now cursor }
    requires walk { HasComeTo (V.weight_at view.now) (V.seen view.now) (V.schema view.now) query.now (V.address view.now cursor) tile.now }
    ensures total { EachListOf V.CubeView view.now (λ h. result ≡ amount (is_window_in (V.schema view.now).depth query.now rect.now tile.now) h) }
    ensures cost { TakesUpTo V.CubeView view.now steps.old steps.new (λ costs schema h. inside_cost costs schema h query.now rect.now tile.now) }
{
    let depth = view.schema().depth;
    if has_tile(rect, depth, tile) {
        return total_in_tile(view, query, tile, cursor, steps);
    }
    if !crosses(rect, depth, tile) {
        return 0;
    }
    let mut sum = 0;
    for label in 0..4u8 {
        if let Some(deeper) = view.down(cursor, label, steps) {
            let below = quadrant(tile, label);
            sum += total_inside(view, query, rect, &below, deeper, steps);
        }
    }
    sum
}

/// How much the bag has in the query's window, over any list of points that the view counts. It takes no memory.
pub fn window_total<V: CubeView, L: Ledger>(view: &V, query: &Query, steps: &mut Steps<L>) -> u64
    requires valid { IsTrue (is_valid_query (V.schema view.now) query.now) }
    requires verb { IsTrue (is_window query.now.verb) }
    ensures total { EachListOf V.CubeView view.now (λ h. result ≡ window_total_of query.now (rect_of_verb query.now.verb) h) }
    ensures cost { TakesUpTo V.CubeView view.now steps.old steps.new (λ costs schema h. window_cost costs schema h query.now query.now.verb) }
{
    let Verb::Window(rect) = query.verb else {
        unreachable!()
    };
    if view.seen() == 0 {
        return 0;
    }
    let whole = Tile { z: 0, x: 0, y: 0 };
    total_inside(view, query, &rect, &whole, view.top(), steps)
}

/// The table of the query's window: its total, and how many points were counted in all. `NoMemory` where the row finds
/// no room.
pub fn window_answer<V: CubeView, L: Ledger>(
    alloc: Global,
    view: &V,
    query: &Query,
    steps: &mut Steps<L>,
) -> Result<Table, NoMemory>
    requires valid { IsTrue (is_valid_query (V.schema view.now) query.now) }
    requires verb { IsTrue (is_window query.now.verb) }
    ensures table { EachListOf V.CubeView view.now (λ h. IfOk result (λ t. t ≡ table (V.schema view.now) query.now h)) }
    ensures cost { TakesUpTo V.CubeView view.now steps.old steps.new (λ costs schema h. window_cost costs schema h query.now query.now.verb) }
{
    let mut rows = List::new(alloc);
    rows.add(RowOut::One(window_total(view, query, steps)))?;
    Ok(Table {
        rows,
        seen: view.seen(),
    })
}
