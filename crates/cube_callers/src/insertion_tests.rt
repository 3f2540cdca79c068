//! Cubes of a few points against numbers that were counted by hand, or by a simulation of the insertion.
ghost use Rattle.std.specs.Prelude.{◌≡◌, codes, IfOk};
ghost use Rattle.example_schemas.specs.Examples.{named_category};

use cube_store::Cube;
use cube_view::{Category, CubeView, Point, Schema, Spot, Stat, are_sound, is_sound};
use example_schemas::{point, schema_of_kinds, schema_of_two_categories};
use std::alloc::Global;
use std::process::Abort;
use std::test::Fail;
use texts::{List, NoMemory, Text};

/// A point, and the numbers of nodes, proper links, shared links and tables after it.
#[derive(Clone, Copy)]
struct Added {
    point: Point,
    stat: [u64; 4],
}

fn check(rt: &impl Abort, alloc: Global, schema: Schema, steps: &[Added]) -> Result<(), NoMemory> {
    let mut cube = Cube::new(alloc, schema)?;
    for added in steps {
        assert!(rt; is_sound(&cube.schema, &added.point));
        assert!(rt; cube.size < 1 << 35);
        cube.insert(added.point)?;
        let [nodes, proper, shared, tables] = added.stat;
        let want = Stat {
            nodes,
            tables,
            proper,
            shared,
        };
        assert_eq!(rt; cube.stat(), want);
    }
    assert_eq!(rt; cube.size, steps.len() as u64);
    Ok(())
}

fn after(point: Point, stat: [u64; 4]) -> Added {
    Added { point, stat }
}

#[test]
fn shares_contents_until_two_points_part(rt: HostRuntime) -> Result<(), Fail> {
    let schema = schema_of_kinds(rt.alloc())?;
    let steps = [
        after(point(0, 0, 0, 0), [6, 6, 4, 1]),
        after(point(7, 7, 1, 0), [13, 16, 7, 4]),
        after(point(0, 0, 0, 1), [14, 17, 7, 4]),
    ];
    check(&rt, rt.alloc(), schema, &steps)?;
    Ok(())
}

/// The point with that weight.
fn weighing(point: Point, weight: u32) -> Point {
    Point {
        spot: point.spot,
        weight,
    }
}

#[test]
fn weights_change_no_number_of_the_structure(rt: HostRuntime) -> Result<(), Fail> {
    let schema = schema_of_kinds(rt.alloc())?;
    let steps = [
        after(weighing(point(0, 0, 0, 0), 5), [6, 6, 4, 1]),
        after(weighing(point(7, 7, 1, 1), 2), [13, 16, 7, 4]),
    ];
    check(&rt, rt.alloc(), schema, &steps)?;
    Ok(())
}

// The third point lies at a slot that it shares, and which is copied before it is counted there.
#[test]
fn copies_a_shared_slot_that_holds_the_point(rt: HostRuntime) -> Result<(), Fail> {
    let schema = schema_of_two_categories(rt.alloc())?;
    let there = Spot {
        x: 1,
        y: 0,
        values: [0, 1, 0, 0],
        bin: 0,
    };
    let other = Point {
        spot: there,
        weight: 1,
    };
    let steps = [
        after(point(0, 0, 0, 0), [6, 6, 3, 1]),
        after(other, [15, 18, 6, 4]),
        after(point(0, 0, 0, 0), [16, 19, 6, 4]),
    ];
    check(&rt, rt.alloc(), schema, &steps)?;
    Ok(())
}

#[test]
fn counts_a_point_again_in_the_slots_that_it_has(rt: HostRuntime) -> Result<(), Fail> {
    let schema = schema_of_kinds(rt.alloc())?;
    let once = point(5, 2, 1, 7);
    let heaviest = Point {
        spot: once.spot,
        weight: 268_435_455,
    };
    let steps = [
        after(once, [6, 6, 4, 1]),
        after(once, [6, 6, 4, 1]),
        after(heaviest, [6, 6, 4, 1]),
    ];
    check(&rt, rt.alloc(), schema, &steps)?;
    Ok(())
}

#[test]
fn gives_tables_to_tiles_where_there_is_no_category(rt: HostRuntime) -> Result<(), Fail> {
    let schema = Schema::new(1, List::new(rt.alloc()), 0, 1, 1, None);
    let steps = [
        after(point(0, 0, 0, 0), [2, 2, 1, 1]),
        after(point(1, 0, 0, 0), [3, 5, 0, 3]),
    ];
    check(&rt, rt.alloc(), schema, &steps)?;
    Ok(())
}

fn category(alloc: Global, name: &str) -> Result<Category, NoMemory>
    ensures { IfOk result (λ category. category ≡ named_category name.now (codes "u") (codes "v")) }
{
    let name = Text::copy_of(alloc, name)?;
    let mut values = List::new(alloc);
    values.add(Text::copy_of(alloc, "u")?)?;
    values.add(Text::copy_of(alloc, "v")?)?;
    Ok(Category { name, values })
}

// The deepest space and as many categories as there may be.
fn deepest_schema(alloc: Global) -> Result<Schema, NoMemory> {
    let mut categories = List::new(alloc);
    categories.add(category(alloc, "a")?)?;
    categories.add(category(alloc, "b")?)?;
    categories.add(category(alloc, "c")?)?;
    categories.add(category(alloc, "d")?)?;
    Ok(Schema::new(20, categories, 0, 1, 1, None))
}

fn corner(edge: u32, value: u8) -> Point {
    let spot = Spot {
        x: edge,
        y: edge,
        values: [value; 4],
        bin: u32::from(value),
    };
    Point { spot, weight: 1 }
}

#[test]
fn counts_the_corners_of_the_deepest_schema(rt: HostRuntime) -> Result<(), Fail> {
    let schema = deepest_schema(rt.alloc())?;
    let steps = [
        after(corner(0, 0), [29, 29, 24, 1]),
        after(corner(1_048_575, 1), [77, 83, 56, 7]),
        after(corner(0, 0), [81, 87, 56, 7]),
    ];
    check(&rt, rt.alloc(), schema, &steps)?;
    Ok(())
}

// Each allocation of the last insertion is made to fail in turn by hand. Then the cube is as before, and takes the
// point when it is asked again.
#[test]
fn a_refused_insertion_changes_nothing(rt: HostRuntime) -> Result<(), Fail> {
    let mut cube = Cube::new(rt.alloc(), schema_of_kinds(rt.alloc())?)?;
    for known in [point(0, 0, 0, 0), point(7, 7, 1, 0), point(0, 0, 0, 1)] {
        assert!(&rt; is_sound(&cube.schema, &known));
        assert!(&rt; cube.size < 1 << 35);
        cube.insert(known)?;
    }
    let (before, last) = (cube.stat(), point(7, 0, 1, 2));
    assert!(&rt; is_sound(&cube.schema, &last));
    assert!(&rt; cube.size < 1 << 35);
    if cube.insert(last).is_err() {
        assert_eq!(&rt; cube.stat(), before);
        assert_eq!(&rt; cube.size, 3);
        cube.insert(last)?;
    }
    assert_eq!(&rt; cube.size, 4);
    Ok(())
}

// Space has the root and a chain of three nodes for each corner, 7 nodes. Each of the three contents has a node of
// kinds, and the two of the corners have a value's node: 5 nodes. A table counts each content, 3. All slots but the
// root have a proper link, 14. Shared are the contents of the upper two nodes of each chain and those of the corners'
// kinds, 6, and at the root the two values, each of which is in one corner alone. One by one these points leave others.
#[test]
fn takes_a_batch_as_one_group(rt: HostRuntime) -> Result<(), Fail> {
    let mut cube = Cube::new(rt.alloc(), schema_of_kinds(rt.alloc())?)?;
    let batch = [point(0, 0, 0, 0), point(7, 7, 1, 0), point(0, 0, 0, 1)];
    assert!(&rt; are_sound(&cube.schema, &batch));
    assert!(&rt; cube.size + 3 <= 1 << 35);
    cube.insert_all(&batch)?;
    let want = Stat {
        nodes: 12,
        tables: 3,
        proper: 14,
        shared: 8,
    };
    assert_eq!(&rt; cube.stat(), want);
    assert_eq!(&rt; cube.size, 3);
    Ok(())
}

// As with one point: each allocation of the second batch is made to fail in turn by hand.
#[test]
fn a_refused_batch_changes_nothing(rt: HostRuntime) -> Result<(), Fail> {
    let mut cube = Cube::new(rt.alloc(), schema_of_kinds(rt.alloc())?)?;
    let known = [point(0, 0, 0, 0), point(7, 7, 1, 0), point(0, 0, 0, 1)];
    assert!(&rt; are_sound(&cube.schema, &known));
    assert!(&rt; cube.size + 3 <= 1 << 35);
    cube.insert_all(&known)?;
    let (before, batch) = (cube.stat(), [point(7, 0, 1, 2), point(3, 3, 0, 1)]);
    assert!(&rt; are_sound(&cube.schema, &batch));
    assert!(&rt; cube.size + 2 <= 1 << 35);
    if cube.insert_all(&batch).is_err() {
        assert_eq!(&rt; cube.stat(), before);
        assert_eq!(&rt; cube.size, 3);
        cube.insert_all(&batch)?;
    }
    assert_eq!(&rt; cube.size, 5);
    Ok(())
}
