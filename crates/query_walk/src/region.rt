//! The walk from all of space down to a tile.
ghost use Rattle.std.specs.Prelude.{◌≡◌, ℕ, ◌+◌, ◌<◌, ◌≤◌, ◌^◌, IfNone, IfSome, IsTrue};
ghost use Rattle.cube_view.specs.Costs.{is_found, space_cost};
ghost use Rattle.cube_view.specs.Places.{region_address};
ghost use Rattle.query_walk.specs.Views.{EachListOf, TakesUpTo};
ghost use Rattle.query_walk.specs.Walks.{HasNone};

use cube_view::{CubeView, Tile, tile_label};
use probe_core::Steps;
use std::sync::ledger::Ledger;

/// A cursor at the tile, if the bag has a spot in it. All of space has a cursor always.
pub fn region_cursor<V: CubeView, L: Ledger>(
    view: &V,
    tile: &Tile,
    steps: &mut Steps<L>,
) -> Option<V::Cursor>
    requires deep { tile.now.z ≤ (V.schema view.now).depth }
    requires within { (tile.now.x < 2 ^ tile.now.z) × (tile.now.y < 2 ^ tile.now.z) }
    ensures place { IfSome result (λ c. V.stands view.now c × (V.address view.now c ≡ region_address tile.now)) }
    ensures found { IfSome result (λ _. EachListOf V.CubeView view.now (λ h. IsTrue (is_found (V.schema view.now) h tile.now))) }
    ensures none { IfNone result (EachListOf V.CubeView view.now (HasNone (V.schema view.now) (region_address tile.now))) }
    ensures cost { TakesUpTo V.CubeView view.now steps.old steps.new (λ costs schema h. space_cost costs schema h tile.now tile.now.z) }
{
    let mut cursor = view.top();
    for level in 0..tile.z {
        cursor = view.down(cursor, tile_label(tile, level + 1), steps)?;
    }
    Some(cursor)
}
