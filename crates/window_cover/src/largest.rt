//! The cover of a rectangle: its largest tiles.
ghost use Rattle.std.specs.Prelude.{◌≡◌, ◌≤◌, ◌++◌, IsTrue, IfOk, OnOk};
ghost use Rattle.query_syntax.specs.Tiles.{is_tile};
ghost use Rattle.window_cover.specs.Covers.{cover as cover_of, IsLeastCover};
ghost use Rattle.window_cover.specs.Ways.{cover_inside};

use crate::rect::{crosses, has_tile};
use cube_view::{Schema, Tile, quadrant};
use query_syntax::Rect;
use std::alloc::Global;
use texts::{List, NoMemory};

/// Adds the largest tiles of the rectangle that are inside a tile, if they are not larger than it.
fn add_inside(depth: u8, rect: &Rect, tile: &Tile, tiles: &mut List<Tile>) -> Result<(), NoMemory>
    requires depth { depth ≤ 20 }
    requires tile { IsTrue (is_tile depth tile.now) }
    ensures { OnOk result (tiles.new ≡ tiles.old ++ cover_inside depth rect.now tile.now) }
{
    if has_tile(rect, depth, tile) {
        return tiles.add(*tile);
    }
    if crosses(rect, depth, tile) {
        for label in 0..4u8 {
            add_inside(depth, rect, &quadrant(tile, label), tiles)?;
        }
    }
    Ok(())
}

/// The largest tiles that lie inside the rectangle, in path order.
pub fn cover(alloc: Global, schema: &Schema, rect: &Rect) -> Result<List<Tile>, NoMemory>
    ensures tiles { IfOk result (λ tiles. tiles ≡ cover_of schema.now.depth rect.now) }
    ensures least { IfOk result (λ tiles. IsLeastCover schema.now.depth rect.now tiles) }
{
    let mut tiles = List::new(alloc);
    add_inside(schema.depth, rect, &Tile { z: 0, x: 0, y: 0 }, &mut tiles)?;
    Ok(tiles)
}
