//! What a window counts, and what a box has, in one pass.
ghost use Rattle.std.specs.Prelude.{◌≡◌, ◌≤◌, ◌<◌, ◌^◌, ◌&&◌, nat_le, nat_lt};
ghost use Rattle.cube_view.specs.Bag.{amount, anywhere};
ghost use Rattle.list_tables.specs.Marked.{marked_sets};
ghost use Rattle.query_syntax.specs.Boxes.{box, inside, total};
ghost use Rattle.query_syntax.specs.Windows.{has_place, is_asked, is_in_window};

use crate::marks::ValueMarks;
use cube_view::{Point, Schema, Spot, lies_in};
use query_syntax::{Query, Rect, Span};

/// Whether the finest tile of this column and row is in the rectangle.
fn has_place(rect: &Rect, x: u32, y: u32) -> bool
    ensures { result ≡ has_place rect.now x y }
{
    rect.x0 <= x && x < rect.x1 && rect.y0 <= y && y < rect.y1
}

/// Whether the bin is in the span.
fn is_in_span(span: &Span, bin: u32) -> bool
    ensures { result ≡ nat_le span.now.from bin && nat_lt bin span.now.to }
{
    let bin = u64::from(bin);
    span.from <= bin && bin < span.to
}

/// Whether the query, of these marks, asks for the spot.
fn is_asked(query: &Query, marks: &ValueMarks, spot: &Spot) -> bool
    requires { marked_sets marks.now ≡ query.now.sets }
    ensures { result ≡ is_asked query.now spot.now }
{
    marks.have(&spot.values) && is_in_span(&query.time, spot.bin)
}

/// How much of the points is in the window of the query, which has these marks.
pub fn count_window(query: &Query, marks: &ValueMarks, rect: &Rect, points: &[Point]) -> u64
    requires marks { marked_sets marks.now ≡ query.now.sets }
    requires light { amount anywhere points.now < 2 ^ 64 }
    ensures { result ≡ amount (is_in_window query.now rect.now) points.now }
{
    let mut sum = 0u64;
    for point in points {
        if has_place(rect, point.spot.x, point.spot.y) && is_asked(query, marks, &point.spot) {
            sum += u64::from(point.weight);
        }
    }
    sum
}

/// Whether the spot is in the box of the query, which has these marks. The marks tell most spots apart.
#[tactic(auto, unfolding(query_syntax::specs::Boxes::inside))]
pub(crate) fn is_inside(schema: &Schema, query: &Query, marks: &ValueMarks, spot: &Spot) -> bool
    requires region { query.now.region.z ≤ schema.now.depth }
    requires marks { marked_sets marks.now ≡ query.now.sets }
    ensures inside { result ≡ inside schema.now (box query.now) spot.now }
    ensures bin { spot.now.bin < 2 ^ 32 }
{
    let bin = spot.bin;
    marks.have(&spot.values)
        && is_in_span(&query.time, bin)
        && lies_in(schema.depth, query.region, spot)
}

/// How much of the points is in the query's box.
pub fn count_box(schema: &Schema, query: &Query, points: &[Point]) -> u64
    requires region { query.now.region.z ≤ schema.now.depth }
    requires light { amount anywhere points.now < 2 ^ 64 }
    ensures { result ≡ total schema.now (box query.now) points.now }
{
    let marks = ValueMarks::new(&query.sets);
    let mut sum = 0u64;
    for point in points {
        if is_inside(schema, query, &marks, &point.spot) {
            sum += u64::from(point.weight);
        }
    }
    sum
}
