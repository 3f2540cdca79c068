//! Small cubes of drawn points, each made in several batchings.
use crate::batches::insert_in;
use crate::counts::{Shape, check_totals};
use crate::draws::{Draws, draw_point, draw_shape};
use crate::schemas::schema_of;
use cube_store::Cube;
use cube_view::{Point, Schema};
use std::alloc::Global;
use std::process::Abort;
use std::test::Fail;
use texts::{List, NoMemory};

/// How many points are inserted together, by turns: one, groups of one size, all, and single points and groups by
/// turns.
const BATCHINGS: [&[usize]; 8] = [
    &[1],
    &[2],
    &[3],
    &[7],
    &[64],
    &[1, 4],
    &[1, 1, 1, 6, 6],
    &[5, 1, 2, 1],
];

/// A drawn point: often one of the first of those before.
fn next_point(draws: &mut Draws, shape: &Shape, points: &[Point]) -> Point {
    match points.get(draws.under(24) as usize) {
        Some(earlier) if draws.one_of(2) => *earlier,
        _ => draw_point(draws, shape.depth.min(4), &shape.values, 4),
    }
}

/// So many drawn points.
fn draw_points(
    alloc: Global,
    draws: &mut Draws,
    shape: &Shape,
    count: u32,
) -> Result<List<Point>, NoMemory> {
    let mut points = List::new(alloc);
    for _ in 0..count {
        let point = next_point(draws, shape, points.as_slice());
        points.add(point)?;
    }
    Ok(points)
}

/// In batches of these sizes the points make a cube with their totals.
fn check_batching(
    rt: &impl Abort,
    alloc: Global,
    schema: &Schema,
    points: &[Point],
    sizes: &[usize],
    shape: &Shape,
) -> Result<(), NoMemory> {
    let mut cube = Cube::new(alloc, schema.copy(alloc)?)?;
    insert_in(rt, &mut cube, points, sizes)?;
    check_totals(rt, &cube, points, shape);
    Ok(())
}

/// So it is in each batching, for drawn points.
fn check_cube(rt: &impl Abort, alloc: Global, depth: u8, seed: u64) -> Result<(), NoMemory> {
    let mut draws = Draws { state: seed };
    let shape = draw_shape(&mut draws, depth);
    let schema = schema_of(alloc, depth, &shape.values)?;
    let count = draws.under(25);
    let points = draw_points(alloc, &mut draws, &shape, count)?;
    for sizes in BATCHINGS {
        check_batching(rt, alloc, &schema, points.as_slice(), sizes, &shape)?;
    }
    Ok(())
}

/// So it is for so many cubes.
fn check_cubes(rt: &impl Abort, alloc: Global, depth: u8, count: u64) -> Result<(), NoMemory> {
    for seed in 0..count {
        check_cube(rt, alloc, depth, seed)?;
    }
    Ok(())
}

// The deeper a cube, the more addresses it has, so there are fewer of these: 3,000 cubes in all.

#[test]
fn cubes_of_one_level_count_plainly_in_each_batching(rt: HostRuntime) -> Result<(), Fail> {
    check_cubes(&rt, rt.alloc(), 1, 1300)?;
    Ok(())
}

#[test]
fn cubes_of_two_levels_count_plainly_in_each_batching(rt: HostRuntime) -> Result<(), Fail> {
    check_cubes(&rt, rt.alloc(), 2, 1000)?;
    Ok(())
}

#[test]
fn cubes_of_three_levels_count_plainly_in_each_batching(rt: HostRuntime) -> Result<(), Fail> {
    check_cubes(&rt, rt.alloc(), 3, 600)?;
    Ok(())
}

#[test]
fn cubes_of_four_levels_count_plainly_in_each_batching(rt: HostRuntime) -> Result<(), Fail> {
    check_cubes(&rt, rt.alloc(), 4, 100)?;
    Ok(())
}
