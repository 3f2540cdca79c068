//! What queries are printed as.
ghost use Rattle.std.specs.Prelude.{IsTrue};
ghost use Rattle.query_syntax.specs.Queries.{is_valid_query};

use crate::schemas::spaced_schema;
use cube_view::Schema;
use example_schemas::schema_of_kinds;
use query_syntax::{Parsed, Query, parse, print};
use std::alloc::Global;
use texts::NoMemory;

/// A line, and how its query is printed.
type Printed = (&'static [u8], &'static [u8]);

/// Whether a line asks for the query.
fn asks_for(alloc: Global, schema: &Schema, line: &[u8], query: &Query) -> bool {
    match parse(alloc, schema, line) {
        Ok(Parsed::Ask(found)) => found == *query,
        _ => false,
    }
}

/// Whether a query is printed as that text, which asks for it.
fn prints(alloc: Global, schema: &Schema, query: &Query, wanted: &[u8]) -> Result<bool, NoMemory>
    requires { IsTrue (is_valid_query schema.now query.now) }
{
    let text = print(alloc, schema, query)?;
    Ok(text.as_slice() == wanted && asks_for(alloc, schema, wanted, query))
}

/// Whether the query of a line is printed as that text.
fn is_printed(
    alloc: Global,
    schema: &Schema,
    line: &[u8],
    wanted: &[u8],
) -> Result<bool, NoMemory> {
    match parse(alloc, schema, line) {
        Ok(Parsed::Ask(query)) => prints(alloc, schema, &query, wanted),
        _ => Ok(false),
    }
}

/// The place of the first line that is not printed so.
fn first_misprinted(
    alloc: Global,
    schema: &Schema,
    cases: &[Printed],
) -> Result<Option<usize>, NoMemory> {
    for (at, (line, wanted)) in cases.iter().enumerate() {
        if !is_printed(alloc, schema, line, wanted)? {
            return Ok(Some(at));
        }
    }
    Ok(None)
}

const VERBS: [Printed; 11] = [
    (b"count  in 01/0/1", b"count in 1/0/1"),
    (
        b"count  with kind=a|a in 01/0/1",
        b"count in 1/0/1 with kind=a",
    ),
    (b"count time 0 4294967296 with kind=b|a in 0/0/0", b"count"),
    (
        b"hist kind time 1 2 in 1/1/0",
        b"hist kind in 1/1/0 time 1 2",
    ),
    (b"map 02", b"map 2"),
    (
        br#"series 0 10 4 with kind="b""#,
        b"series 0 10 4 with kind=b",
    ),
    (b"window 00 0  4 04 time 1 2", b"window 0 0 4 4 time 1 2"),
    (b"best 03 1000 in 0/0/0", b"best 3 1000"),
    (b" stat", b"stat"),
    (b"told ", b"told"),
    (b"quit", b"quit"),
];

#[test]
fn prints_each_verb_and_its_filters_in_one_order(rt: HostRuntime) -> Result<(), NoMemory> {
    let schema = schema_of_kinds(rt.alloc())?;
    assert_eq!(rt; first_misprinted(rt.alloc(), &schema, &VERBS), Ok(None));
    Ok(())
}

const QUOTED: [Printed; 4] = [
    (br#"count with k="e""#, b"count with k=e"),
    (
        br#"count with m="c d" with k="c|d"|"a b""#,
        br#"count with k="a b"|"c|d" with m="c d""#,
    ),
    (b"count with m=f|e", b"count with m=e|f"),
    (b"cross  m k with m=e", b"cross m k with m=e"),
];

#[test]
fn quotes_values_with_a_space_or_a_bar(rt: HostRuntime) -> Result<(), NoMemory> {
    let schema = spaced_schema(rt.alloc())?;
    assert_eq!(rt; first_misprinted(rt.alloc(), &schema, &QUOTED), Ok(None));
    Ok(())
}
