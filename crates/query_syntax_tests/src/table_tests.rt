//! Tables of query lines over a few points, against rows that were counted by hand.
ghost use Rattle.std.specs.Prelude.{◌<◌, ◌^◌};
ghost use Rattle.cube_view.specs.Bag.{amount, anywhere};

use crate::schemas::schema_of_one_value;
use Want::{Area, Bin, One, Value};
use cube_view::{Point, Schema, Spot};
use example_schemas::schema_of_kinds;
use query_syntax::{Parsed, RowOut, Table, is_drill, parse, table_of};
use std::alloc::Global;
use texts::NoMemory;

/// A row that a table has to have.
#[derive(Clone, Copy)]
enum Want {
    One(u64),
    Value(&'static str, u64),
    Area(u8, u32, u32, u64),
    Bin(u64, u64),
}

/// A line, and the rows of its table.
type Case = (&'static [u8], &'static [Want]);

fn is_row(row: &RowOut, want: &Want) -> bool {
    match (row, want) {
        (RowOut::One(total), One(n)) => total == n,
        (RowOut::Value(text, total), Value(value, n)) => text.as_str() == *value && total == n,
        (RowOut::Area(tile, total), Area(z, x, y, n)) => {
            tile.z == *z && tile.x == *x && tile.y == *y && total == n
        }
        (RowOut::Bin(from, total), Bin(first, n)) => from == first && total == n,
        _ => false,
    }
}

/// Whether a table has those rows, and has seen so many points.
fn is_table(table: &Table, seen: usize, wants: &[Want]) -> bool {
    let rows = table.rows.as_slice();
    table.seen == seen as u64
        && rows.len() == wants.len()
        && rows.iter().zip(wants).all(|(row, want)| is_row(row, want))
}

/// Whether the query of a line has a table of those rows.
fn has_rows(
    alloc: Global,
    schema: &Schema,
    points: &[Point],
    line: &[u8],
    wants: &[Want],
) -> Result<bool, NoMemory>
    requires { amount anywhere points.now < 2 ^ 64 }
{
    match parse(alloc, schema, line)? {
        Parsed::Ask(query) => {
            if !is_drill(&query.verb) {
                return Ok(false);
            }
            let table = table_of(alloc, schema, &query, points)?;
            Ok(is_table(&table, points.len(), wants))
        }
        Parsed::Skip | Parsed::Fault(..) => Ok(false),
    }
}

/// The place of the first line that does not have its table.
fn first_miscounted(
    alloc: Global,
    schema: &Schema,
    points: &[Point],
    cases: &[Case],
) -> Result<Option<usize>, NoMemory>
    requires { amount anywhere points.now < 2 ^ 64 }
{
    for (at, (line, wants)) in cases.iter().enumerate() {
        if !has_rows(alloc, schema, points, line, wants)? {
            return Ok(Some(at));
        }
    }
    Ok(None)
}

/// Two records of value a in one corner and one of b in the other.
const THREE: [Point; 3] = [
    Point {
        spot: Spot {
            x: 0,
            y: 0,
            values: [0, 0, 0, 0],
            bin: 0,
        },
        weight: 1,
    },
    Point {
        spot: Spot {
            x: 7,
            y: 7,
            values: [1, 0, 0, 0],
            bin: 1,
        },
        weight: 1,
    },
    Point {
        spot: Spot {
            x: 0,
            y: 0,
            values: [0, 0, 0, 0],
            bin: 1,
        },
        weight: 1,
    },
];

/// A record in the second quadrant of all and one in the first.
const TWO_TILES: [Point; 2] = [
    Point {
        spot: Spot {
            x: 4,
            y: 0,
            values: [0, 0, 0, 0],
            bin: 0,
        },
        weight: 1,
    },
    Point {
        spot: Spot {
            x: 0,
            y: 2,
            values: [0, 0, 0, 0],
            bin: 0,
        },
        weight: 1,
    },
];

/// Records in the last bin and in the first.
const ENDS: [Point; 2] = [
    Point {
        spot: Spot {
            x: 0,
            y: 1,
            values: [0, 0, 0, 0],
            bin: 4294967295,
        },
        weight: 1,
    },
    Point {
        spot: Spot {
            x: 1,
            y: 1,
            values: [0, 0, 0, 0],
            bin: 0,
        },
        weight: 1,
    },
];

/// Records that stand for several things, two of them at one spot.
const WEIGHTED: [Point; 3] = [
    Point {
        spot: Spot {
            x: 0,
            y: 0,
            values: [0, 0, 0, 0],
            bin: 0,
        },
        weight: 5,
    },
    Point {
        spot: Spot {
            x: 7,
            y: 7,
            values: [1, 0, 0, 0],
            bin: 1,
        },
        weight: 2,
    },
    Point {
        spot: Spot {
            x: 7,
            y: 7,
            values: [1, 0, 0, 0],
            bin: 1,
        },
        weight: 268435455,
    },
];

const OF_THREE: [Case; 9] = [
    (b"count", &[One(3)]),
    (b"hist kind", &[Value("a", 2), Value("b", 1)]),
    (b"hist kind time 1 1", &[Value("a", 0), Value("b", 0)]),
    (b"hist kind with kind=b", &[Value("a", 0), Value("b", 1)]),
    (b"map 0", &[Area(0, 0, 0, 3)]),
    (b"map 1", &[Area(1, 0, 0, 2), Area(1, 1, 1, 1)]),
    (b"map 2 in 1/1/0", &[]),
    (b"series 0 1 3", &[Bin(0, 1), Bin(1, 2), Bin(2, 0)]),
    (
        b"series 1 4294967296 2 in 1/0/0",
        &[Bin(1, 1), Bin(4294967297, 0)],
    ),
];

#[tactic(auto, unfolding(cube_view::specs::Bag::amount))]
#[test]
fn counts_the_rows_of_three_records(rt: HostRuntime) -> Result<(), NoMemory> {
    let schema = schema_of_kinds(rt.alloc())?;
    assert_eq!(rt;
        first_miscounted(rt.alloc(), &schema, &THREE, &OF_THREE),
        Ok(None)
    );
    Ok(())
}

// Tile 2/0/1 has the lesser label at level 1, and 2/2/0 the lesser row.
const OF_TWO_TILES: [Case; 1] = [(b"map 2", &[Area(2, 0, 1, 1), Area(2, 2, 0, 1)])];

#[tactic(auto, unfolding(cube_view::specs::Bag::amount))]
#[test]
fn tiles_are_in_path_order(rt: HostRuntime) -> Result<(), NoMemory> {
    let schema = schema_of_kinds(rt.alloc())?;
    assert_eq!(rt;
        first_miscounted(rt.alloc(), &schema, &TWO_TILES, &OF_TWO_TILES),
        Ok(None)
    );
    Ok(())
}

const OF_ENDS: [Case; 2] = [
    (b"hist only", &[Value("a", 2)]),
    (
        b"series 4294967295 4294967296 2",
        &[Bin(4294967295, 1), Bin(8589934591, 0)],
    ),
];

#[tactic(auto, unfolding(cube_view::specs::Bag::amount))]
#[test]
fn a_category_of_one_value_has_one_row(rt: HostRuntime) -> Result<(), NoMemory> {
    let schema = schema_of_one_value(rt.alloc())?;
    assert_eq!(rt;
        first_miscounted(rt.alloc(), &schema, &ENDS, &OF_ENDS),
        Ok(None)
    );
    Ok(())
}

const OF_WEIGHTED: [Case; 2] = [
    (b"count in 1/0/0", &[One(5)]),
    (b"hist kind", &[Value("a", 5), Value("b", 268435457)]),
];

#[tactic(auto, unfolding(cube_view::specs::Bag::amount))]
#[test]
fn a_total_is_a_sum_of_weights(rt: HostRuntime) -> Result<(), NoMemory> {
    let schema = schema_of_kinds(rt.alloc())?;
    assert_eq!(rt;
        first_miscounted(rt.alloc(), &schema, &WEIGHTED, &OF_WEIGHTED),
        Ok(None)
    );
    Ok(())
}
