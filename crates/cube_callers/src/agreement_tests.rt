//! Cubes and plain cubes of the same points: they answer alike at every address.
ghost use Rattle.std.specs.Prelude.{◌≡◌, ◌+◌, ◌^◌, ◌<◌, ◌≤◌, IfSome, length};
ghost use Rattle.cube_view.specs.Places.{time_dim};
ghost use Rattle.probe_core.specs.Blanks.{IsBlankOf};

use cube_store::Cube;
use cube_view::{CubeView, Grow, Point, Schema, Spot, Tile, is_sound};
use example_schemas::{point, schema_of_kinds, schema_of_two_categories, tile};
use plain_cube::PlainCube;
use probe_core::Steps;
use query_walk::region_cursor;
use std::alloc::Global;
use std::marker::Brand;
use std::process::Abort;
use std::sync::ledger::{Blank, Ledger};
use std::test::Fail;
use texts::NoMemory;

// The tile of that number: they are counted level by level from all of space on.
fn tile_of(number: u32) -> Tile
    ensures { (result.x < 2 ^ result.z) × (result.y < 2 ^ result.z) }
{
    match number {
        0 => tile(0, 0, 0),
        1..5 => tile(1, (number - 1) % 2, (number - 1) / 2 % 2),
        5..21 => tile(2, (number - 5) % 4, (number - 5) / 4 % 4),
        _ => tile(3, (number - 21) % 8, (number - 21) / 8 % 8),
    }
}

// What a view answers on a way: the next labels at the tile from three labels on, if it has quadrants and the view a
// spot in it, and the totals before four ends, if the view has a table on the way.
#[derive(Clone, Copy, PartialEq, Eq, Debug)]
struct Answers {
    labels: [Option<u8>; 3],
    totals: Option<[u64; 4]>,
}

fn value(choice: u32) -> Option<u8>
    requires { choice < 3 }
{
    if choice == 2 {
        None
    } else {
        Some(choice as u8)
    }
}

// The table on the way on from category k, by a value or none of each category that is left.
fn table_from<V: CubeView, L: Ledger>(
    view: &V,
    cursor: V::Cursor,
    k: usize,
    values: &[Option<u8>; 4],
    steps: &mut Steps<L>,
) -> Option<V::Cursor>
    requires stands { V.stands view.now cursor }
    requires here { ((V.address view.now cursor).dim ≡ k + 2) × ((V.address view.now cursor).level ≡ 0) }
    requires left { k ≤ length (V.schema view.now).categories }
    ensures { IfSome result (λ c. V.stands view.now c × ((V.address view.now c).dim ≡ time_dim (V.schema view.now))) }
{
    if k == view.schema().categories.len() {
        return Some(cursor);
    }
    let at_value = match values[k] {
        Some(value) => view.down(cursor, value, steps)?,
        None => cursor,
    };
    let next = view.across(at_value, steps)?;
    table_from(view, next, k + 1, values, steps)
}

// The totals before four ends at the table of these values below the tile, if the view has it.
fn totals_at<V: CubeView, L: Ledger>(
    view: &V,
    at_tile: V::Cursor,
    values: &[Option<u8>; 4],
    steps: &mut Steps<L>,
) -> Option<[u64; 4]>
    requires stands { V.stands view.now at_tile }
    requires space { (V.address view.now at_tile).dim ≡ 1 }
{
    let at_category = view.across(at_tile, steps)?;
    let at_table = table_from(view, at_category, 0, values, steps)?;
    Some([
        view.before(at_table, 1, steps),
        view.before(at_table, 2, steps),
        view.before(at_table, 3, steps),
        view.before(at_table, 1 << 32, steps),
    ])
}

fn answers_on<V: CubeView, L: Ledger>(
    view: &V,
    tile: &Tile,
    values: &[Option<u8>; 4],
    steps: &mut Steps<L>,
) -> Answers
    requires { (tile.now.x < 2 ^ tile.now.z) × (tile.now.y < 2 ^ tile.now.z) }
{
    let mut answers = Answers {
        labels: [None; 3],
        totals: None,
    };
    if tile.z > view.schema().depth {
        return answers;
    }
    let Some(at_tile) = region_cursor(view, tile, steps) else {
        return answers;
    };
    if tile.z < view.schema().depth {
        answers.labels = [
            view.next_label(at_tile, 0, steps),
            view.next_label(at_tile, 2, steps),
            view.next_label(at_tile, 3, steps),
        ];
    }
    answers.totals = totals_at(view, at_tile, values, steps);
    answers
}

// How many tiles a schema's space has up to the third level, and the choices of a value or none in its categories.
#[derive(Clone, Copy)]
struct Extent {
    tiles: u32,
    choices: u32,
}

fn same_at_tile<V: CubeView, W: CubeView, L: Ledger>(
    rt: &impl Abort,
    one: &V,
    other: &W,
    tile: &Tile,
    choices: u32,
    steps: &mut Steps<L>,
)
    requires { (tile.now.x < 2 ^ tile.now.z) × (tile.now.y < 2 ^ tile.now.z) }
{
    for choice in 0..choices {
        let values = [value(choice % 3), value(choice / 3 % 3), None, None];
        assert_eq!(rt;
            answers_on(one, tile, &values, steps),
            answers_on(other, tile, &values, steps)
        );
    }
}

fn same_answers<V: CubeView, W: CubeView, L: Ledger>(
    rt: &impl Abort,
    one: &V,
    other: &W,
    extent: Extent,
    steps: &mut Steps<L>,
) {
    for number in 0..extent.tiles {
        same_at_tile(rt, one, other, &tile_of(number), extent.choices, steps);
    }
}

fn insert<G: Grow>(rt: &impl Abort, view: &mut G, point: Point) -> Result<(), NoMemory> {
    assert!(rt; is_sound(view.schema(), &point));
    assert!(rt; view.seen() < 1 << 35);
    view.insert(point)
}

// A cube and a plain cube of the points of each group answer alike, and the cube has one proper link to each slot but
// the root.
fn check_in<L: Ledger>(
    rt: &impl Abort,
    alloc: Global,
    schema: &Schema,
    extent: Extent,
    points: &[Point],
    blank: Blank,
) -> Result<(), NoMemory>
    requires { IsBlankOf L.name L.parts blank }
{
    let mut steps = Steps::<L>::new(blank);
    let mut cube = Cube::new(alloc, schema.copy(alloc)?)?;
    let mut plain = PlainCube::new(alloc, schema.copy(alloc)?);
    for point in points {
        insert(rt, &mut cube, *point)?;
        insert(rt, &mut plain, *point)?;
    }
    assert_eq!(rt; cube.seen(), plain.seen());
    let stat = cube.stat();
    assert_eq!(rt;
        stat.nodes.checked_add(stat.tables),
        stat.proper.checked_add(1)
    );
    same_answers(rt, &cube, &plain, extent, &mut steps);
    Ok(())
}

fn check(
    rt: &impl Abort,
    alloc: Global,
    schema: &Schema,
    extent: Extent,
    points: &[Point],
) -> Result<(), NoMemory> {
    check_in::<Brand>(rt, alloc, schema, extent, points, Blank::new(1))
}

// Depth 3 and one category.
const KINDS: Extent = Extent {
    tiles: 85,
    choices: 3,
};

// Depth 1 and two categories.
const PAIRS: Extent = Extent {
    tiles: 5,
    choices: 9,
};

fn next_random(seed: u32) -> u32 {
    seed.wrapping_mul(1_664_525).wrapping_add(1_013_904_223)
}

// A point of a tile of `side` by `side`, of two values in each of `categories`, in one of four bins.
fn random_point(seed: u32, side: u32, categories: u32) -> Point
    requires { (0 < side) × (categories ≤ 2) }
{
    let n = next_random(seed) / 256;
    let second = if categories == 2 {
        (n / 128 % 2) as u8
    } else {
        0
    };
    let spot = Spot {
        x: n % side,
        y: n / 8 % side,
        values: [(n / 64 % 2) as u8, second, 0, 0],
        bin: n / 256 % 4,
    };
    Point {
        spot,
        weight: n / 1024 % 5 + 1,
    }
}

fn random_points(seed: u32, side: u32, categories: u32) -> [Point; 40]
    requires { (0 < side) × (categories ≤ 2) }
{
    let mut points = [point(0, 0, 0, 0); 40];
    let mut state = seed;
    for i in 0..40 {
        state = next_random(state);
        points[i] = random_point(state, side, categories);
    }
    points
}

#[test]
fn random_cubes_answer_as_plain_cubes(rt: HostRuntime) -> Result<(), Fail> {
    let kinds = schema_of_kinds(rt.alloc())?;
    let pairs = schema_of_two_categories(rt.alloc())?;
    for seed in 0..150 {
        check(&rt, rt.alloc(), &kinds, KINDS, &random_points(seed, 8, 1))?;
        check(&rt, rt.alloc(), &pairs, PAIRS, &random_points(seed, 2, 2))?;
    }
    Ok(())
}

#[test]
fn points_that_differ_in_one_dimension_are_told_apart(rt: HostRuntime) -> Result<(), Fail> {
    let points = [
        point(2, 5, 0, 1),
        point(3, 5, 0, 1),
        point(2, 4, 0, 1),
        point(6, 5, 0, 1),
        point(2, 1, 0, 1),
        point(2, 5, 1, 1),
        point(2, 5, 0, 0),
        point(2, 5, 0, 4_294_967_295),
    ];
    let schema = schema_of_kinds(rt.alloc())?;
    check(&rt, rt.alloc(), &schema, KINDS, &points)?;
    Ok(())
}
