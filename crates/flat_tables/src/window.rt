//! What a window counts of points in path order.
ghost use Rattle.std.specs.Prelude.{◌≡◌, IfOk, IsTrue};
ghost use Rattle.cube_view.specs.Bag.{amount};
ghost use Rattle.flat_view.specs.Kept.{flat_points, flat_schema};
ghost use Rattle.list_tables.specs.Marked.{marked_sets};
ghost use Rattle.query_syntax.specs.Queries.{is_valid_query};
ghost use Rattle.query_syntax.specs.Tables.{table};
ghost use Rattle.query_syntax.specs.Tiles.{is_tile};
ghost use Rattle.query_syntax.specs.Verbs.{is_window};
ghost use Rattle.query_syntax.specs.Windows.{window_total as window_total_of};
ghost use Rattle.window_cover.specs.Ways.{is_window_in};
ghost use Rattle.window_cover.specs.Windows.{rect_of_verb};

use crate::halves::window_part;
use cube_view::{Tile, quadrant};
use flat_view::FlatView;
use list_tables::ValueMarks;
use query_syntax::{Query, Rect, RowOut, Table, Verb};
use std::alloc::Global;
use std::thread::Threads;
use texts::{List, NoMemory};
use window_cover::{crosses, has_tile};

/// How many points of a tile are counted one by one sooner than quadrant by quadrant.
const FEW: usize = 64;

/// How much of the points in the tile is in the window of the query, which has these marks.
fn total_inside<R: Threads>(
    rt: &R,
    view: &FlatView,
    query: &Query,
    marks: &ValueMarks,
    rect: &Rect,
    tile: &Tile,
) -> u64
    requires marks { marked_sets marks.now ≡ query.now.sets }
    requires tile { IsTrue (is_tile (flat_schema view.now).depth tile.now) }
    ensures { result ≡ amount (is_window_in (flat_schema view.now).depth query.now rect.now tile.now) (flat_points view.now) }
{
    let depth = view.schema().depth;
    let is_crossed = crosses(rect, depth, tile);
    if !is_crossed && !has_tile(rect, depth, tile) {
        return 0;
    }
    let points = view.in_tile(tile);
    if !is_crossed || points.len() < FEW {
        return window_part(rt, query, marks, rect, points);
    }
    let mut sum = 0;
    for label in 0..4u8 {
        sum += total_inside(rt, view, query, marks, rect, &quadrant(tile, label));
    }
    sum
}

/// How much of the points is in the query's window. It takes no memory.
pub fn window_total<R: Threads>(rt: &R, view: &FlatView, query: &Query) -> u64
    requires valid { IsTrue (is_valid_query (flat_schema view.now) query.now) }
    requires verb { IsTrue (is_window query.now.verb) }
    ensures { result ≡ window_total_of query.now (rect_of_verb query.now.verb) (flat_points view.now) }
{
    let Verb::Window(rect) = query.verb else {
        unreachable!()
    };
    let marks = ValueMarks::new(&query.sets);
    total_inside(rt, view, query, &marks, &rect, &Tile { z: 0, x: 0, y: 0 })
}

/// The table of the query's window: its total, and how many points there are in all. `NoMemory` where the row finds no
/// room.
pub fn window_answer<R: Threads>(
    rt: &R,
    alloc: Global,
    view: &FlatView,
    query: &Query,
) -> Result<Table, NoMemory>
    requires valid { IsTrue (is_valid_query (flat_schema view.now) query.now) }
    requires verb { IsTrue (is_window query.now.verb) }
    ensures { IfOk result (λ t. t ≡ table (flat_schema view.now) query.now (flat_points view.now)) }
{
    let mut rows = List::new(alloc);
    rows.add(RowOut::One(window_total(rt, view, query)))?;
    let seen = view.points().len() as u64;
    Ok(Table { rows, seen })
}
