//! Totals of a cube, and plain counts over a list of points.
ghost use Rattle.probe_core.specs.Blanks.{IsBlankOf};

use cube_store::Cube;
use cube_view::{CubeView, Point, Tile};
use probe_core::Steps;
use query_syntax::{Choice, Query, Span, ValueSet, Verb, is_valid_query};
use query_walk::total;
use std::marker::Brand;
use std::process::Abort;
use std::sync::ledger::{Blank, Ledger};

/// How many levels a small cube has, at most 4, and how many values each category has: none past its categories.
#[derive(Clone, Copy)]
pub(crate) struct Shape {
    pub(crate) depth: u8,
    pub(crate) values: [u16; 4],
}

/// Whether the point lies in the query's tile and span, and has values of its sets.
fn lies_in(depth: u8, point: &Point, query: &Query) -> bool {
    let spot = &point.spot;
    let up = depth.saturating_sub(query.region.z).min(31);
    let bin = u64::from(spot.bin);
    spot.x >> up == query.region.x
        && spot.y >> up == query.region.y
        && query.time.from <= bin
        && bin < query.time.to
        && query
            .sets
            .iter()
            .zip(&spot.values)
            .all(|(set, value)| set.has(*value))
}

/// What the points that lie in the query weigh together.
fn plain_count(depth: u8, points: &[Point], query: &Query) -> u64 {
    let mut sum = 0u64;
    for point in points {
        if lies_in(depth, point, query) {
            sum = sum.wrapping_add(u64::from(point.weight));
        }
    }
    sum
}

/// The cube's total is the plain count.
fn same_at<L: Ledger>(
    rt: &impl Abort,
    cube: &Cube,
    points: &[Point],
    query: &Query,
    steps: &mut Steps<L>,
) {
    assert!(rt; is_valid_query(cube.schema(), query));
    assert_eq!(rt;
        total(cube, query, steps),
        plain_count(cube.schema.depth, points, query),
        "{query:?}"
    );
}

/// All bins, some of the four that drawn points have, and the later ones.
const SPANS: [Span; 3] = [
    Span {
        from: 0,
        to: 1 << 32,
    },
    Span { from: 1, to: 3 },
    Span {
        from: 2,
        to: 1 << 32,
    },
];

/// So it is in each span.
fn same_in_spans<L: Ledger>(
    rt: &impl Abort,
    cube: &Cube,
    points: &[Point],
    spans: &[Span],
    query: &Query,
    steps: &mut Steps<L>,
) {
    for span in spans {
        same_at(rt, cube, points, &query.with_span(*span), steps);
    }
}

/// The choice of that number: of each category one value, or all.
fn sets_at(values: &[u16; 4], number: u32) -> [Choice; 4] {
    let mut sets = [Choice::All; 4];
    let mut rest = number;
    for k in 0..4 {
        let count = u32::from(values[k].min(256));
        let drawn = rest % (count + 1);
        rest /= count + 1;
        if drawn < count {
            sets[k] = Choice::Only(ValueSet::one(drawn as u8));
        }
    }
    sets
}

/// How many choices there are.
fn choices(values: &[u16; 4]) -> u32 {
    let mut choices = 1u32;
    for count in values {
        choices = choices.wrapping_mul(u32::from((*count).min(256)) + 1);
    }
    choices
}

/// So it is at the tile, in each choice and span.
fn same_at_tile<L: Ledger>(
    rt: &impl Abort,
    cube: &Cube,
    points: &[Point],
    values: &[u16; 4],
    tile: Tile,
    steps: &mut Steps<L>,
) {
    for number in 0..choices(values) {
        let query = Query {
            verb: Verb::Count,
            region: tile,
            sets: sets_at(values, number),
            time: SPANS[0],
        };
        same_in_spans(rt, cube, points, &SPANS, &query, steps);
    }
}

/// The tile of that number: they are counted level by level from all of space on, down to level 4.
fn tile_at(number: u32) -> Tile {
    let mut rest = number;
    for z in 0..4u8 {
        let side = 1u32 << z;
        if rest < side * side {
            return Tile {
                z,
                x: rest % side,
                y: rest / side,
            };
        }
        rest -= side * side;
    }
    Tile {
        z: 4,
        x: rest % 16,
        y: rest / 16,
    }
}

/// How many tiles there are down to a level, at most 4.
fn tiles_down_to(depth: u8) -> u32 {
    match depth {
        0 => 1,
        1 => 5,
        2 => 21,
        3 => 85,
        _ => 341,
    }
}

/// So it is at every address.
fn same_everywhere<L: Ledger>(
    rt: &impl Abort,
    cube: &Cube,
    points: &[Point],
    shape: &Shape,
    blank: Blank,
)
    requires { IsBlankOf L.name L.parts blank }
{
    let mut steps = Steps::<L>::new(blank);
    for number in 0..tiles_down_to(shape.depth) {
        same_at_tile(rt, cube, points, &shape.values, tile_at(number), &mut steps);
    }
}

/// Each slot of the cube but the root has one proper link to it.
fn check_links(rt: &impl Abort, cube: &Cube) {
    let stat = cube.stat();
    assert_eq!(rt;
        stat.nodes.checked_add(stat.tables),
        stat.proper.checked_add(1)
    );
}

/// The totals of a small cube are the plain counts at every address.
pub(crate) fn check_totals(rt: &impl Abort, cube: &Cube, points: &[Point], shape: &Shape) {
    assert_eq!(rt; cube.size, points.len() as u64);
    check_links(rt, cube);
    same_everywhere::<Brand>(rt, cube, points, shape, Blank::new(1));
}

/// The choice of the point's own value of each category whose bit is set.
fn own_sets(point: &Point, categories: usize, bits: u32) -> [Choice; 4] {
    let mut sets = [Choice::All; 4];
    for k in 0..4 {
        if k < categories && bits >> k & 1 == 1 {
            sets[k] = Choice::Only(ValueSet::one(point.spot.values[k]));
        }
    }
    sets
}

/// So it is at the point's tile of a level, in each choice of its values, in all bins, up to its own and in its own.
fn same_over<L: Ledger>(
    rt: &impl Abort,
    cube: &Cube,
    points: &[Point],
    point: &Point,
    level: u8,
    steps: &mut Steps<L>,
) {
    let up = cube.schema.depth.saturating_sub(level).min(31);
    let (bin, all) = (u64::from(point.spot.bin), 1 << 32);
    let spans = [
        Span { from: 0, to: all },
        Span {
            from: 0,
            to: bin + 1,
        },
        Span {
            from: bin,
            to: bin + 1,
        },
    ];
    let region = Tile {
        z: level,
        x: point.spot.x >> up,
        y: point.spot.y >> up,
    };
    for bits in 0..16 {
        let sets = own_sets(point, cube.schema.categories.len(), bits);
        let query = Query {
            verb: Verb::Count,
            region,
            sets,
            time: spans[0],
        };
        same_in_spans(rt, cube, points, &spans, &query, steps);
    }
}

/// So it is at the tile of each level.
fn same_above<L: Ledger>(
    rt: &impl Abort,
    cube: &Cube,
    points: &[Point],
    point: &Point,
    steps: &mut Steps<L>,
) {
    for level in 0..=cube.schema.depth {
        same_over(rt, cube, points, point, level, steps);
    }
}

/// So it is above each of some points.
fn same_above_each<L: Ledger>(
    rt: &impl Abort,
    cube: &Cube,
    points: &[Point],
    some: &[Point],
    blank: Blank,
)
    requires { IsBlankOf L.name L.parts blank }
{
    let mut steps = Steps::<L>::new(blank);
    for point in some {
        same_above(rt, cube, points, point, &mut steps);
    }
}

/// The totals of a cube are the plain counts at each address above some of its points.
pub(crate) fn check_above(rt: &impl Abort, cube: &Cube, points: &[Point], some: &[Point]) {
    assert_eq!(rt; cube.size, points.len() as u64);
    check_links(rt, cube);
    same_above_each::<Brand>(rt, cube, points, some, Blank::new(1));
}
