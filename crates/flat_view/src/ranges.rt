//! The range of a tile's points among points in path order.
ghost use Rattle.std.specs.Prelude.{◌≡◌, ◌≤◌, ◌<◌, ◌-◌, ◌*◌, ◌^◌, IsTrue, length};
ghost use Rattle.std.specs.List.{filter};
ghost use Rattle.std.specs.List.Sorted.{IsNonDecreasingBy, IsPartitionPoint};
ghost use Rattle.cube_view.specs.Places.{in_tile};
ghost use Rattle.query_syntax.specs.Tiles.{is_tile};
ghost use Rattle.flat_view.specs.Paths.{path_number, point_number};
ghost use Rattle.flat_view.specs.Ranges.{AreOfDepth, IsRangeOf, points_of_range};

use crate::paths::Paths;
use cube_view::{Point, Tile};

/// Places of a list that stand side by side: from the first number on, under the second.
#[derive(Clone, Copy)]
pub(crate) struct Range {
    pub(crate) from: usize,
    pub(crate) to: usize,
}

/// How many points have a number under this one. They stand first.
fn count_under(paths: &Paths, points: &[Point], number: u64) -> usize
    requires { IsNonDecreasingBy point_number points.now }
    ensures bound { result ≤ length points.now }
    ensures point { IsPartitionPoint (λ p. point_number p < number) (λ p. number ≤ point_number p) points.now result }
{
    points.partition_point(|p| paths.number(p.spot.x, p.spot.y) < number)
}

/// How many numbers a tile of level `z` has, by so many levels.
fn tile_size(depth: u8, z: u8) -> u64
    requires { (z ≤ depth) × (depth ≤ 20) }
    ensures size { result ≡ 4 ^ (depth - z) }
    ensures small { result < 2 ^ 41 }
{
    1u64 << (2 * (depth - z))
}

/// The first number of the tile, by so many levels.
fn first_number(paths: &Paths, depth: u8, tile: &Tile) -> u64
    requires depth { depth ≤ 20 }
    requires tile { IsTrue (is_tile depth tile.now) }
    ensures first { result ≡ path_number tile.now.z tile.now.x tile.now.y * 4 ^ (depth - tile.now.z) }
    ensures small { result < 2 ^ 41 }
{
    paths.number(tile.x, tile.y) * tile_size(depth, tile.z)
}

/// The places of the points in the tile, of points of a depth in path order. It takes two searches.
pub(crate) fn range_of_tile(paths: &Paths, depth: u8, points: &[Point], tile: &Tile) -> Range
    requires depth { depth ≤ 20 }
    requires tile { IsTrue (is_tile depth tile.now) }
    requires ordered { IsNonDecreasingBy point_number points.now }
    requires fits { AreOfDepth depth points.now }
    ensures within { IsRangeOf points.now result }
    ensures points { points_of_range result points.now ≡ filter (λ p. in_tile depth tile.now p.spot) points.now }
{
    let first = first_number(paths, depth, tile);
    let from = count_under(paths, points, first);
    let to = count_under(paths, points, first + tile_size(depth, tile.z));
    Range { from, to }
}
