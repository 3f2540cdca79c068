//! What a rectangle of finest tiles has of a tile.
ghost use Rattle.std.specs.Prelude.{◌≡◌, ◌<◌, ◌≤◌, IsTrue};
ghost use Rattle.query_syntax.specs.Tiles.{is_tile};
ghost use Rattle.window_cover.specs.Rects.{contains as contains_rect, is_crossed, is_inside, meets as meets_rect, overlap as overlap_of, tile_rect};

use cube_view::Tile;
use query_syntax::Rect;

/// The finest tiles of a tile, where there are so many levels.
fn rect_of_tile(depth: u8, tile: &Tile) -> Rect
    requires depth { depth ≤ 20 }
    requires tile { IsTrue (is_tile depth tile.now) }
    ensures { result ≡ tile_rect depth tile.now }
{
    let side = 1u32 << (depth - tile.z);
    Rect {
        x0: tile.x * side,
        y0: tile.y * side,
        x1: (tile.x + 1) * side,
        y1: (tile.y + 1) * side,
    }
}

/// Whether the other rectangle is inside this one.
fn contains(rect: &Rect, other: &Rect) -> bool
    ensures { result ≡ contains_rect rect.now other.now }
{
    rect.x0 <= other.x0 && other.x1 <= rect.x1 && rect.y0 <= other.y0 && other.y1 <= rect.y1
}

/// Whether some finest tile is in both rectangles.
fn meets(rect: &Rect, other: &Rect) -> bool
    ensures { result ≡ meets_rect rect.now other.now }
{
    overlap(rect.x0, rect.x1, other.x0, other.x1) && overlap(rect.y0, rect.y1, other.y0, other.y1)
}

/// Whether some number is from `a` on under `b`, and from `c` on under `d`.
fn overlap(a: u32, b: u32, c: u32, d: u32) -> bool
    ensures { result ≡ overlap_of a b c d }
{
    a < b && a < d && c < b && c < d
}

/// Whether the tile lies inside the rectangle, where there are so many levels.
pub fn has_tile(rect: &Rect, depth: u8, tile: &Tile) -> bool
    requires depth { depth ≤ 20 }
    requires tile { IsTrue (is_tile depth tile.now) }
    ensures { result ≡ is_inside depth rect.now tile.now }
{
    contains(rect, &rect_of_tile(depth, tile))
}

/// Whether some of the tile's finest tiles are in the rectangle and some are not. Such a tile has quadrants.
pub fn crosses(rect: &Rect, depth: u8, tile: &Tile) -> bool
    requires depth { depth ≤ 20 }
    requires tile { IsTrue (is_tile depth tile.now) }
    ensures crossed { result ≡ is_crossed depth rect.now tile.now }
    ensures quadrants { IsTrue result → tile.now.z < depth }
{
    let area = rect_of_tile(depth, tile);
    meets(rect, &area) && !contains(rect, &area)
}
