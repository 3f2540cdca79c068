//! What lines without a fault mean.
use crate::schemas::spaced_schema;
use cube_view::{Schema, Tile};
use example_schemas::schema_of_kinds;
use query_syntax::{Choice, Parsed, Query, QueryFault, Span, ValueSet, Verb, parse};
use std::alloc::Global;
use texts::NoMemory;

/// A count in a tile of level z over some values of the first category, or all, in a span of bins.
#[derive(Clone, Copy)]
struct Count {
    region: (u8, u32, u32),
    value: Option<u8>,
    time: (u64, u64),
}

/// The query that counts so.
fn query_of(count: Count) -> Query {
    let (z, x, y) = count.region;
    let (from, to) = count.time;
    let first = match count.value {
        None => Choice::All,
        Some(value) => Choice::Only(ValueSet::one(value)),
    };
    Query {
        verb: Verb::Count,
        region: Tile { z, x, y },
        sets: [first, Choice::All, Choice::All, Choice::All],
        time: Span { from, to },
    }
}

/// Whether a line asks for that count.
fn asks_for(alloc: Global, schema: &Schema, line: &[u8], count: Count) -> bool {
    match parse(alloc, schema, line) {
        Ok(Parsed::Ask(query)) => query == query_of(count),
        _ => false,
    }
}

/// The place of the first line that does not ask for its count.
fn first_misread(alloc: Global, schema: &Schema, cases: &[(&[u8], Count)]) -> Option<usize> {
    for (at, (line, count)) in cases.iter().enumerate() {
        if !asks_for(alloc, schema, line, *count) {
            return Some(at);
        }
    }
    None
}

/// The bin past the last one.
const END: u64 = 1 << 32;

const ALL: Count = Count {
    region: (0, 0, 0),
    value: None,
    time: (0, END),
};

const COUNTS: [(&[u8], Count); 5] = [
    (b"count", ALL),
    (
        b"count  with kind=a|a in 01/0/1",
        Count {
            region: (1, 0, 1),
            value: Some(0),
            time: (0, END),
        },
    ),
    (br#"count with kind=a|"b""#, ALL),
    (
        b"count time 2 3 in 1/0/1",
        Count {
            region: (1, 0, 1),
            value: None,
            time: (2, 3),
        },
    ),
    (
        b" count with kind=b time 4294967296 4294967296 ",
        Count {
            region: (0, 0, 0),
            value: Some(1),
            time: (END, END),
        },
    ),
];

#[test]
fn reads_filters_in_any_order(rt: HostRuntime) -> Result<(), NoMemory> {
    let schema = schema_of_kinds(rt.alloc())?;
    assert_eq!(rt; first_misread(rt.alloc(), &schema, &COUNTS), None);
    Ok(())
}

#[test]
fn skips_blank_lines_and_comments(rt: HostRuntime) -> Result<(), NoMemory> {
    let lines: [&[u8]; 4] = [b"", b"   ", b"#", b"# count"];
    let schema = schema_of_kinds(rt.alloc())?;
    for line in lines {
        assert_eq!(rt; parse(rt.alloc(), &schema, line), Ok(Parsed::Skip));
    }
    Ok(())
}

const A_BAR_IN_QUOTES: [(&[u8], Count); 1] = [(
    br#"count with k="c|d""#,
    Count {
        region: (0, 0, 0),
        value: Some(1),
        time: (0, END),
    },
)];

#[test]
fn reads_a_space_or_a_bar_in_quotes_as_part_of_a_value(rt: HostRuntime) -> Result<(), NoMemory> {
    let schema = spaced_schema(rt.alloc())?;
    let line = br#"count with k="a b" with m="c d" by"#;
    let fault = Parsed::Fault(QueryFault::UnknownFilter, 6);
    assert_eq!(rt; parse(rt.alloc(), &schema, line), Ok(fault));
    assert_eq!(rt; first_misread(rt.alloc(), &schema, &A_BAR_IN_QUOTES), None);
    Ok(())
}
