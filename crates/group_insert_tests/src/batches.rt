//! Points that a cube takes in batches.
use cube_store::Cube;
use cube_view::{Point, are_sound};
use std::process::Abort;
use texts::NoMemory;

/// Inserts the points as one group.
pub(crate) fn insert_group(
    rt: &impl Abort,
    cube: &mut Cube,
    points: &[Point],
) -> Result<(), NoMemory> {
    assert!(rt; are_sound(&cube.schema, points));
    assert!(rt; cube.size + points.len() as u64 <= 1 << 35);
    cube.insert_all(points)
}

/// How many points the batch of that number has: the sizes come by turns.
fn size_at(sizes: &[usize], number: usize) -> usize {
    match sizes.get(number % sizes.len().max(1)) {
        Some(size) => *size,
        None => 1,
    }
}

/// Inserts the points in batches of these sizes, by turns.
pub(crate) fn insert_in(
    rt: &impl Abort,
    cube: &mut Cube,
    points: &[Point],
    sizes: &[usize],
) -> Result<(), NoMemory> {
    let mut rest = points;
    for number in 0..points.len() {
        if rest.is_empty() {
            return Ok(());
        }
        let (group, later) = rest.split_at(size_at(sizes, number).min(rest.len()));
        insert_group(rt, cube, group)?;
        rest = later;
    }
    Ok(())
}
