//! Covers that were drawn by hand.
use cube_view::{Schema, Tile};
use example_schemas::{schema_of_kinds, tile};
use query_syntax::Rect;
use std::alloc::Global;
use std::test::Fail;
use texts::{List, NoMemory};
use window_cover::cover;

fn rect(x0: u32, y0: u32, x1: u32, y1: u32) -> Rect {
    Rect { x0, y0, x1, y1 }
}

/// How many tiles cover the rectangle, and the first and the last of them.
fn ends_of(
    alloc: Global,
    schema: &Schema,
    rect: Rect,
) -> Result<(usize, Option<Tile>, Option<Tile>), NoMemory> {
    let tiles = cover(alloc, schema, &rect)?;
    let tiles = tiles.as_slice();
    Ok((tiles.len(), tiles.first().copied(), tiles.last().copied()))
}

#[test]
fn covers_all_but_the_first_column(rt: HostRuntime) -> Result<(), Fail> {
    let schema = schema_of_kinds(rt.alloc())?;
    let ends = ends_of(rt.alloc(), &schema, rect(1, 0, 8, 8));
    assert_eq!(rt; ends, Ok((14, Some(tile(3, 1, 0)), Some(tile(1, 1, 1)))));
    Ok(())
}

/// Whether these tiles cover the rectangle, in this order.
fn is_covered(alloc: Global, schema: &Schema, rect: Rect, wanted: &[Tile]) -> bool {
    match cover(alloc, schema, &rect) {
        Ok(tiles) => tiles.as_slice() == wanted,
        Err(NoMemory) => false,
    }
}

/// Whether a strip has its tiles in path order, the world has one, and each of three rectangles without area none.
fn cover_eight_by_eight(alloc: Global, schema: &Schema) -> [bool; 5] {
    let strip = [tile(3, 3, 2), tile(3, 3, 3), tile(2, 2, 1), tile(2, 3, 1)];
    [
        is_covered(alloc, schema, rect(3, 2, 8, 4), &strip),
        is_covered(alloc, schema, rect(0, 0, 8, 8), &[tile(0, 0, 0)]),
        is_covered(alloc, schema, rect(3, 0, 3, 8), &[]),
        is_covered(alloc, schema, rect(0, 8, 8, 8), &[]),
        is_covered(alloc, schema, rect(5, 5, 5, 5), &[]),
    ]
}

#[test]
fn covers_in_path_order_and_no_area_by_no_tile(rt: HostRuntime) -> Result<(), Fail> {
    let schema = schema_of_kinds(rt.alloc())?;
    assert_eq!(rt; cover_eight_by_eight(rt.alloc(), &schema), [true; 5]);
    Ok(())
}

/// A half of the deepest level's columns, and its last one.
const HALF: u32 = 1 << 19;

const LAST: u32 = (1 << 20) - 1;

/// Whether the corner, the world and its right half have these covers.
fn cover_deepest(alloc: Global, schema: &Schema) -> [bool; 3] {
    let corner = rect(LAST, LAST, LAST + 1, LAST + 1);
    let world = rect(0, 0, LAST + 1, LAST + 1);
    let half = rect(HALF, 0, LAST + 1, LAST + 1);
    [
        is_covered(alloc, schema, corner, &[tile(20, LAST, LAST)]),
        is_covered(alloc, schema, world, &[tile(0, 0, 0)]),
        is_covered(alloc, schema, half, &[tile(1, 1, 0), tile(1, 1, 1)]),
    ]
}

#[test]
fn covers_at_the_deepest_level(rt: HostRuntime) {
    let schema = Schema::new(20, List::new(rt.alloc()), 0, 1, 1, None);
    assert_eq!(rt; cover_deepest(rt.alloc(), &schema), [true; 3]);
}
