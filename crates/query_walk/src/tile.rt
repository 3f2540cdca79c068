//! The walk from a tile on.
ghost use Rattle.std.specs.Prelude.{◌≡◌, ℕ, ◌+◌, ◌≤◌};
ghost use Rattle.cube_view.specs.Places.{region_address};
ghost use Rattle.query_syntax.specs.Boxes.{box, total as total_of};
ghost use Rattle.query_syntax.specs.Narrowing.{with_tile};
ghost use Rattle.query_walk.specs.Costs.{from_region_cost, onward_cost};
ghost use Rattle.query_walk.specs.Views.{EachListOf, TakesUpTo};
ghost use Rattle.query_walk.specs.Walks.{HasBox, HasWalked};

use crate::categories::total_from;
use cube_view::{CubeView, Tile};
use probe_core::Steps;
use query_syntax::Query;
use std::sync::ledger::Ledger;

/// How much the bag has of what the query asks for in the tile at which the cursor stands, in place of the query's
/// region. It takes no memory.
pub fn total_in_tile<V: CubeView, L: Ledger>(
    view: &V,
    query: &Query,
    tile: &Tile,
    cursor: V::Cursor,
    steps: &mut Steps<L>,
) -> u64
    requires has_box { HasBox (V.schema view.now) query.now }
    requires stands { V.stands view.now cursor }
    requires place { V.address view.now cursor ≡ region_address tile.now }
    ensures total { EachListOf V.CubeView view.now (λ h. result ≡ total_of (V.schema view.now) (with_tile (box query.now) tile.now) h) }
    ensures cost { TakesUpTo V.CubeView view.now steps.old steps.new (λ costs schema h. onward_cost costs schema h query.now tile.now) }
{
    match view.across(cursor, steps) {
        Some(next) => total_from(view, query, next, 0, steps),
        None => 0,
    }
}

/// How much the bag has in the query's box, where the walk to its region has ended with that cursor, or with none. It
/// takes no memory.
pub fn total_in_region<V: CubeView, L: Ledger>(
    view: &V,
    query: &Query,
    region: Option<V::Cursor>,
    steps: &mut Steps<L>,
) -> u64
    requires walk { HasWalked (V.weight_at view.now) (V.seen view.now) (V.schema view.now) query.now (V.stands view.now) (V.address view.now) region }
    ensures total { EachListOf V.CubeView view.now (λ h. result ≡ total_of (V.schema view.now) (box query.now) h) }
    ensures cost { TakesUpTo V.CubeView view.now steps.old steps.new (λ costs schema h. from_region_cost costs schema h query.now) }
{
    match region {
        Some(cursor) => total_in_tile(view, query, &query.region, cursor, steps),
        None => 0,
    }
}
