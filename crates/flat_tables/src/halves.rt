//! What many points have, counted in halves side by side and added up.
ghost use Rattle.std.specs.Prelude.{◌≡◌, ◌≤◌, ◌<◌, ◌^◌};
ghost use Rattle.cube_view.specs.Bag.{amount, anywhere};
ghost use Rattle.list_tables.specs.Marked.{marked_sets};
ghost use Rattle.query_syntax.specs.Boxes.{box, total};
ghost use Rattle.query_syntax.specs.Windows.{is_in_window};

use cube_view::{Point, Schema};
use list_tables::{ValueMarks, count_box, count_window};
use query_syntax::{Query, Rect};
use std::thread::{Threads, join};

/// From how many points on two threads count sooner than one.
const MANY: usize = 262_144;

/// How much of the points is in the query's box, by a thread for each half where there are many points. Where a thread
/// cannot be made, this one counts both halves.
pub(crate) fn box_total<R: Threads>(rt: &R, schema: &Schema, query: &Query, points: &[Point]) -> u64
    requires region { query.now.region.z ≤ schema.now.depth }
    requires light { amount anywhere points.now < 2 ^ 64 }
    ensures { result ≡ total schema.now (box query.now) points.now }
{
    if points.len() < MANY {
        return count_box(schema, query, points);
    }
    let (front, back) = points.split_at(points.len() / 2);
    let (first, second) = join(
        rt,
        move || -> u64
            requires region { query.now.region.z ≤ schema.now.depth }
            requires light { amount anywhere front.now < 2 ^ 64 }
            ensures { result ≡ total schema.entry.now (box query.entry.now) front.entry.now }
        { count_box(schema, query, front) },
        move || -> u64
            requires region { query.now.region.z ≤ schema.now.depth }
            requires light { amount anywhere back.now < 2 ^ 64 }
            ensures { result ≡ total schema.entry.now (box query.entry.now) back.entry.now }
        { count_box(schema, query, back) },
    );
    first + second
}

/// How much of the points is in the window of the query, which has these marks, by a thread for each half where there
/// are many points. Where a thread cannot be made, this one counts both halves.
pub(crate) fn window_part<R: Threads>(
    rt: &R,
    query: &Query,
    marks: &ValueMarks,
    rect: &Rect,
    points: &[Point],
) -> u64
    requires marks { marked_sets marks.now ≡ query.now.sets }
    requires light { amount anywhere points.now < 2 ^ 64 }
    ensures { result ≡ amount (is_in_window query.now rect.now) points.now }
{
    if points.len() < MANY {
        return count_window(query, marks, rect, points);
    }
    let (front, back) = points.split_at(points.len() / 2);
    let (first, second) = join(
        rt,
        move || -> u64
            requires marks { marked_sets marks.now ≡ query.now.sets }
            requires light { amount anywhere front.now < 2 ^ 64 }
            ensures { result ≡ amount (is_in_window query.entry.now rect.entry.now) front.entry.now }
        { count_window(query, marks, rect, front) },
        move || -> u64
            requires marks { marked_sets marks.now ≡ query.now.sets }
            requires light { amount anywhere back.now < 2 ^ 64 }
            ensures { result ≡ amount (is_in_window query.entry.now rect.entry.now) back.entry.now }
        { count_window(query, marks, rect, back) },
    );
    first + second
}
