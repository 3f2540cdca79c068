//! Points, labels and tiles against values that were worked out by hand.
use crate::{
    Category, Point, Schema, Spot, Tile, is_sound, is_valid, label, lies_in, quadrant, tile_label,
};
use std::alloc::Global;
use std::test::Fail;
use texts::{List, Text};

// Depth 3 and one category of two values.
fn schema_of_two_kinds(alloc: Global) -> Result<Schema, Fail> {
    let values = List::from_vec(vec![in alloc;
        Text::copy_of(alloc, "a")?,
        Text::copy_of(alloc, "b")?,
    ]?);
    let name = Text::copy_of(alloc, "kind")?;
    let categories = List::from_vec(vec![in alloc; Category { name, values }]?);
    Ok(Schema::new(3, categories, 0, 10, 1, None))
}

fn point(x: u32, y: u32, value: u8, weight: u32) -> Point {
    let spot = Spot {
        x,
        y,
        values: [value, 0, 0, 0],
        bin: 0,
    };
    Point { spot, weight }
}

#[test]
fn sound_points_are_in_space_and_weigh_something(rt: HostRuntime) -> Result<(), Fail> {
    let schema = schema_of_two_kinds(rt.alloc())?;
    let cases = [
        (point(7, 7, 1, 1), true, true),
        (point(0, 0, 0, 2), true, false),
        (point(0, 0, 0, 268_435_455), true, false),
        (point(0, 0, 0, 268_435_456), false, false),
        (point(0, 0, 0, 0), false, false),
        (point(8, 0, 0, 1), false, false),
        (point(0, 8, 0, 1), false, false),
        (point(0, 0, 2, 1), false, false),
    ];
    for (point, sound, valid) in cases {
        assert_eq!(rt;
            (is_sound(&schema, &point), is_valid(&schema, &point)),
            (sound, valid)
        );
    }
    Ok(())
}

#[test]
fn a_weight_column_allows_every_weight(rt: HostRuntime) -> Result<(), Fail> {
    let name = Text::copy_of(rt.alloc(), "n")?;
    let schema = Schema::new(3, List::new(rt.alloc()), 0, 10, 1, Some(name)).copy(rt.alloc())?;
    assert!(rt; is_valid(&schema, &point(0, 0, 0, 5)));
    assert!(rt; !is_valid(&schema, &point(0, 0, 0, 0)));
    Ok(())
}

#[test]
fn labels_go_from_the_highest_bits_down(rt: HostRuntime) -> Result<(), Fail> {
    let schema = schema_of_two_kinds(rt.alloc())?;
    // x is 011 and y is 110 in binary digits.
    let point = point(3, 6, 1, 1);
    if is_sound(&schema, &point) && schema.depth == 3 {
        let labels = [
            label(&schema, &point, 1, 1),
            label(&schema, &point, 1, 2),
            label(&schema, &point, 1, 3),
        ];
        assert_eq!(rt; labels, [2, 3, 1]);
    }
    Ok(())
}

#[test]
fn quadrants_lead_to_a_tile(rt: HostRuntime) {
    let whole = Tile { z: 0, x: 0, y: 0 };
    let tile = quadrant(&quadrant(&whole, 2), 1);
    assert_eq!(rt; tile, Tile { z: 2, x: 1, y: 2 });
    assert_eq!(rt; (tile_label(&tile, 1), tile_label(&tile, 2)), (2, 1));
    assert!(rt; lies_in(3, tile, &point(2, 4, 0, 1).spot));
    assert!(rt; !lies_in(3, tile, &point(4, 2, 0, 1).spot));
}
