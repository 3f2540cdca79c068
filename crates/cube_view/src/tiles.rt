//! Tiles: their quadrants, and which spots lie in them.
ghost use Rattle.std.specs.Prelude.{◌≡◌, ℕ, ◌+◌, ◌-◌, ◌*◌, ◌/◌, ◌%◌, ◌^◌, ◌<◌, ◌≤◌};
ghost use Rattle.cube_view.specs.Places.{bit_at, in_tile, longer_tile, quadrant_at, tile_label as label_of_tile};

use crate::{Spot, Tile};

// The bit of a coordinate that the way to a level adds.
fn bit(depth: u8, level: u8, n: u32) -> u8
    requires depth { depth ≤ 20 }
    ensures bit { result ≡ bit_at depth level n }
    ensures small { result < 2 }
{
    (n >> depth.saturating_sub(level) & 1) as u8
}

/// The quadrant at a level, from 1 to `depth`, of two coordinates of `depth` bits.
pub(crate) fn quadrant_label(depth: u8, level: u8, x: u32, y: u32) -> u8
    requires depth { depth ≤ 20 }
    ensures label { result ≡ quadrant_at depth level x y }
    ensures small { result < 4 }
{
    2 * bit(depth, level, y) + bit(depth, level, x)
}

/// The label of the quadrant that the way to the tile takes at a level, from 1 to the tile's.
pub fn tile_label(tile: &Tile, level: u8) -> u8
    requires { tile.now.z ≤ 20 }
    ensures label { result ≡ label_of_tile tile.now level }
    ensures small { result < 4 }
{
    quadrant_label(tile.z, level, tile.x, tile.y)
}

/// The quadrant of a tile with the label: 2 times the bit of y plus the bit of x.
pub fn quadrant(tile: &Tile, label: u8) -> Tile
    requires level { tile.now.z < 20 }
    requires within { (tile.now.x < 2 ^ tile.now.z) × (tile.now.y < 2 ^ tile.now.z) }
    requires label { label < 4 }
    ensures quadrant { result ≡ longer_tile 1 tile.now label }
    ensures within { (result.x < 2 ^ result.z) × (result.y < 2 ^ result.z) }
{
    Tile {
        z: tile.z + 1,
        x: 2 * tile.x + u32::from(label % 2),
        y: 2 * tile.y + u32::from(label / 2),
    }
}

/// Whether the spot, of a schema of that depth, is in the tile.
pub fn lies_in(depth: u8, tile: Tile, spot: &Spot) -> bool
    requires depth { depth ≤ 20 }
    requires level { tile.z ≤ depth }
    ensures { result ≡ in_tile depth tile spot.now }
{
    let by = depth - tile.z;
    spot.x >> by == tile.x && spot.y >> by == tile.y
}
