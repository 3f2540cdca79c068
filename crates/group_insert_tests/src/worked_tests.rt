//! Groups at their limits: the largest batch, a table of many blocks, the deepest space, and memory that is refused.
use crate::batches::{insert_group, insert_in};
use crate::counts::check_above;
use crate::draws::{Draws, draw_point};
use crate::schemas::schema_of;
use cube_store::Cube;
use cube_view::{CubeView, Point};
use example_schemas::point;
use std::alloc::Global;
use std::process::Abort;
use std::test::Fail;
use texts::{List, NoMemory};

/// How many levels a cube has, and how many values each category.
#[derive(Clone, Copy)]
struct Space {
    depth: u8,
    values: [u16; 4],
}

/// Three levels and one category of two values.
const SMALL: Space = Space {
    depth: 3,
    values: [2, 0, 0, 0],
};

/// All levels, and all values of all categories.
const LARGEST: Space = Space {
    depth: 20,
    values: [256, 256, 256, 256],
};

/// In batches of these sizes the points make a cube that counts them plainly above each point of a front.
fn check(
    rt: &impl Abort,
    alloc: Global,
    space: &Space,
    points: &[Point],
    sizes: &[usize],
    front: usize,
) -> Result<(), NoMemory> {
    let schema = schema_of(alloc, space.depth, &space.values)?;
    let mut cube = Cube::new(alloc, schema)?;
    insert_in(rt, &mut cube, points, sizes)?;
    check_above(rt, &cube, points, &points[..front.min(points.len())]);
    Ok(())
}

/// Drawn points of a space, in one of so many bins.
fn drawn(alloc: Global, space: &Space, count: usize, bins: u32) -> Result<List<Point>, NoMemory> {
    let mut draws = Draws { state: 1 };
    let mut points = List::new(alloc);
    for _ in 0..count {
        points.add(draw_point(&mut draws, space.depth.min(20), &space.values, bins.max(1)))?;
    }
    Ok(points)
}

#[test]
fn groups_go_on_after_groups_and_single_points(rt: HostRuntime) -> Result<(), Fail> {
    let points = drawn(rt.alloc(), &SMALL, 60, 8)?;
    let batchings: [&[usize]; 4] = [&[1, 1, 1, 10, 10, 10], &[20, 1], &[1, 30, 2], &[59, 1]];
    for sizes in batchings {
        check(&rt, rt.alloc(), &SMALL, points.as_slice(), sizes, 60)?;
    }
    Ok(())
}

#[test]
fn a_batch_of_equal_points_is_counted(rt: HostRuntime) -> Result<(), Fail> {
    let mut points = List::new(rt.alloc());
    for _ in 0..65_536 {
        points.add(point(5, 2, 1, 9))?;
    }
    check(&rt, rt.alloc(), &SMALL, points.as_slice(), &[65_536], 1)?;
    Ok(())
}

#[test]
fn a_batch_fills_blocks_of_a_table(rt: HostRuntime) -> Result<(), Fail> {
    // The first 200 are of even bins, and the later ones of odd bins between them.
    let mut points = List::new(rt.alloc());
    for bin in 0..400 {
        points.add(point(5, 2, 1, bin % 200 * 2 + bin / 200))?;
    }
    let batchings: [&[usize]; 4] = [&[400], &[200], &[64, 1], &[63, 137]];
    for sizes in batchings {
        check(&rt, rt.alloc(), &SMALL, points.as_slice(), sizes, 400)?;
    }
    Ok(())
}

#[test]
fn the_largest_space_counts_plainly(rt: HostRuntime) -> Result<(), Fail> {
    let points = drawn(rt.alloc(), &LARGEST, 300, 1 << 20)?;
    let batchings: [&[usize]; 3] = [&[300], &[100, 1], &[64]];
    for sizes in batchings {
        check(&rt, rt.alloc(), &LARGEST, points.as_slice(), sizes, 300)?;
    }
    Ok(())
}

// Each allocation of the last group is made to fail in turn by hand. Then the cube is as before, and takes the group
// when it is asked again.
#[test]
fn a_refused_group_changes_nothing(rt: HostRuntime) -> Result<(), Fail> {
    let points = drawn(rt.alloc(), &SMALL, 264, 30)?;
    let all = points.as_slice();
    assert!(&rt; all.len() == 264);
    let (known, group) = all.split_at(200);
    let mut cube = Cube::new(rt.alloc(), schema_of(rt.alloc(), 3, &SMALL.values)?)?;
    insert_in(&rt, &mut cube, known, &[7, 1])?;
    let before = cube.stat();
    if insert_group(&rt, &mut cube, group).is_err() {
        assert_eq!(&rt; cube.stat(), before);
        check_above(&rt, &cube, known, known);
        insert_group(&rt, &mut cube, group)?;
    }
    check_above(&rt, &cube, all, all);
    Ok(())
}
