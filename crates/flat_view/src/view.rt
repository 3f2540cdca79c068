//! Points in path order.
ghost use Rattle.std.specs.Prelude.{◌≡◌, ◌≤◌, ◌<◌, All, IsTrue, length};
ghost use Rattle.std.specs.List.Sorted.{IsNonDecreasingBy};
ghost use Rattle.cube_view.specs.Bag.{most_points};
ghost use Rattle.cube_view.specs.Validity.{sound};
ghost use Rattle.flat_view.specs.Paths.{point_number};

use crate::paths::Paths;
use crate::ranges::range_of_tile;
use cube_view::{Point, Schema, Tile};

/// A schema, and at most 2^35 points that are sound for it, in path order.
#[derive(Drop)]
pub struct FlatView {
    schema: Schema,
    paths: Paths,
    points: Vec<Point>,
    ghost sound: { All (λ p. IsTrue (sound schema p)) points.items },
    ghost few: { length points.items ≤ most_points },
    ghost ordered: { IsNonDecreasingBy point_number points.items },
}

impl FlatView {
    ghost use Rattle.std.specs.List.{filter};
    ghost use Rattle.std.specs.List.Sorted.{IsPermutation};
    ghost use Rattle.cube_view.specs.Places.{in_tile};
    ghost use Rattle.query_syntax.specs.Tiles.{is_tile};
    ghost use Rattle.flat_view.specs.Kept.{flat_points, flat_schema};

    /// The view of the points, which are sound for the schema. They are put in order where they stand.
    pub fn new(schema: Schema, mut points: Vec<Point>) -> FlatView
        requires sound { All (λ p. IsTrue (sound schema p)) points.items }
        requires few { length points.items ≤ most_points }
        ensures schema { flat_schema result ≡ schema }
        ensures points { IsPermutation points.items (flat_points result) }
    {
        let paths = Paths::new();
        points.sort_unstable_by_key(|p| paths.number(p.spot.x, p.spot.y));
        FlatView {
            schema,
            paths,
            points,
        }
    }

    /// The schema of the points.
    pub fn schema(&self) -> &Schema
        ensures { result.now ≡ flat_schema self.now }
    {
        &self.schema
    }

    /// All points, in path order.
    pub fn points(&self) -> &[Point]
        ensures { result.now ≡ flat_points self.now }
    {
        self.points.as_slice()
    }

    /// The points whose finest tile is in the tile, which stand side by side. It takes two searches.
    pub fn in_tile(&self, tile: &Tile) -> &[Point]
        requires { IsTrue (is_tile (flat_schema self.now).depth tile.now) }
        ensures { result.now ≡ filter (λ p. in_tile (flat_schema self.now).depth tile.now p.spot) (flat_points self.now) }
    {
        let points = self.points.as_slice();
        let range = range_of_tile(&self.paths, self.schema.depth, points, tile);
        &points[range.from..range.to]
    }
}
