//! The rows of a map.
ghost use Rattle.std.specs.Prelude.{◌≡◌, ℕ, ◌+◌, ◌*◌, ◌/◌, ◌%◌, ◌^◌, ◌<◌, ◌≤◌, ◌++◌, IfOk, OnOk};
ghost use Rattle.cube_view.specs.Places.{longer_tile, region_address};
ghost use Rattle.query_syntax.specs.Tables.{rows_of_verb};
ghost use Rattle.query_walk.specs.Areas.{areas_inside};
ghost use Rattle.query_walk.specs.Costs.{areas_cost, map_cost, onward_cost};
ghost use Rattle.query_walk.specs.Views.{EachListOf, TakesUpTo};
ghost use Rattle.query_walk.specs.Walks.{HasBox};

use crate::region::region_cursor;
use crate::tile::total_in_tile;
use cube_view::{CubeView, Tile, quadrant};
use probe_core::Steps;
use query_syntax::{Query, RowOut, Verb};
use std::alloc::Global;
use std::sync::ledger::Ledger;
use texts::{List, NoMemory};

/// Adds the row of the tile at which the cursor stands, if its total isn't 0.
fn push_area<V: CubeView, L: Ledger>(
    view: &V,
    query: &Query,
    tile: &Tile,
    cursor: V::Cursor,
    rows: &mut List<RowOut>,
    steps: &mut Steps<L>,
) -> Result<(), NoMemory>
    requires has_box { HasBox (V.schema view.now) query.now }
    requires stands { V.stands view.now cursor }
    requires place { V.address view.now cursor ≡ region_address tile.now }
    ensures rows { OnOk result (EachListOf V.CubeView view.now (λ h. rows.new ≡ rows.old ++ areas_inside (V.schema view.now) query.now h 0 tile.now)) }
    ensures cost { TakesUpTo V.CubeView view.now steps.old steps.new (λ costs schema h. onward_cost costs schema h query.now tile.now) }
{
    let total = total_in_tile(view, query, tile, cursor, steps);
    if total == 0 {
        return Ok(());
    }
    rows.add(RowOut::Area(*tile, total))
}

/// Adds the rows of the tiles so many levels below the tile at which the cursor stands.
fn drill<V: CubeView, L: Ledger>(
    view: &V,
    query: &Query,
    tile: &Tile,
    cursor: V::Cursor,
    levels: u8,
    rows: &mut List<RowOut>,
    steps: &mut Steps<L>,
) -> Result<(), NoMemory>
    requires has_box { HasBox (V.schema view.now) query.now }
    requires deep { tile.now.z + levels ≤ (V.schema view.now).depth }
    requires within { (tile.now.x < 2 ^ tile.now.z) × (tile.now.y < 2 ^ tile.now.z) }
    requires stands { V.stands view.now cursor }
    requires place { V.address view.now cursor ≡ region_address tile.now }
    ensures rows { OnOk result (EachListOf V.CubeView view.now (λ h. rows.new ≡ rows.old ++ areas_inside (V.schema view.now) query.now h levels tile.now)) }
    ensures cost { TakesUpTo V.CubeView view.now steps.old steps.new (λ costs schema h. areas_cost costs schema h query.now levels tile.now) }
{
    if levels == 0 {
        return push_area(view, query, tile, cursor, rows, steps);
    }
    for label in 0..4u8 {
        if let Some(deeper) = view.down(cursor, label, steps) {
            let below = quadrant(tile, label);
            drill(view, query, &below, deeper, levels - 1, rows, steps)?;
        }
    }
    Ok(())
}

/// The rows of a map: one for each tile so many levels below the query's region whose total isn't 0. `NoMemory` where
/// they find no room.
pub fn area_rows<V: CubeView, L: Ledger>(
    alloc: Global,
    view: &V,
    query: &Query,
    levels: u8,
    steps: &mut Steps<L>,
) -> Result<List<RowOut>, NoMemory>
    requires has_box { HasBox (V.schema view.now) query.now }
    requires deep { query.now.region.z + levels ≤ (V.schema view.now).depth }
    ensures rows { IfOk result (λ rows. EachListOf V.CubeView view.now (λ h. rows ≡ rows_of_verb (V.schema view.now) query.now h (Verb.Map levels))) }
    ensures cost { TakesUpTo V.CubeView view.now steps.old steps.new (λ costs schema h. map_cost costs schema h query.now levels) }
{
    let mut rows = List::new(alloc);
    if view.seen() == 0 {
        return Ok(rows);
    }
    if let Some(cursor) = region_cursor(view, &query.region, steps) {
        drill(view, query, &query.region, cursor, levels, &mut rows, steps)?;
    }
    Ok(rows)
}
