//! The total of a list of points in a query's box, by a look at each point.
ghost use Rattle.std.specs.Prelude.{◌≡◌, ◌≤◌, ◌<◌, ◌^◌, length, map};
ghost use Rattle.query_syntax.specs.Boxes.{box, chosen, are_in_sets, inside, total};
ghost use Rattle.cube_view.specs.Bag.{amount, anywhere};
ghost use Rattle.query_syntax.specs.Narrowing.{with_value};

use crate::{Choice, Query};
use cube_view::{Point, Schema, Spot, lies_in};

/// Whether each value is in the set of its category.
fn are_chosen(sets: &[Choice; 4], values: &[u8; 4]) -> bool
    ensures { result ≡ are_in_sets (map chosen sets.now) values.now }
{
    for k in 0..4 {
        if !sets[k].has(values[k]) {
            return false;
        }
    }
    true
}

/// Whether the spot is in the query's box.
#[tactic(auto, unfolding(crate::specs::Boxes::inside))]
fn is_inside(schema: &Schema, query: &Query, spot: &Spot) -> bool
    requires { query.now.region.z ≤ schema.now.depth }
    ensures { result ≡ inside schema.now (box query.now) spot.now }
{
    let bin = u64::from(spot.bin);
    lies_in(schema.depth, query.region, spot)
        && are_chosen(&query.sets, &spot.values)
        && query.time.from <= bin
        && bin < query.time.to
}

/// The total of the points in the query's box. All of them weigh less than 2^64.
pub fn total_of(schema: &Schema, query: &Query, points: &[Point]) -> u64
    requires region { query.now.region.z ≤ schema.now.depth }
    requires light { amount anywhere points.now < 2 ^ 64 }
    ensures { result ≡ total schema.now (box query.now) points.now }
{
    let mut total = 0;
    for point in points {
        if is_inside(schema, query, &point.spot) {
            total += u64::from(point.weight);
        }
    }
    total
}

/// The total of the points in the query's box that have the value of category `k`.
pub fn total_with(schema: &Schema, query: &Query, points: &[Point], k: usize, value: u8) -> u64
    requires region { query.now.region.z ≤ schema.now.depth }
    requires light { amount anywhere points.now < 2 ^ 64 }
    requires category { k < 4 }
    ensures { result ≡ total schema.now (with_value (box query.now) k value) points.now }
{
    if !query.sets[k].has(value) {
        return 0;
    }
    let mut alone = *query;
    alone.set_one_value(k, value);
    total_of(schema, &alone, points)
}
