//! Which queries a schema takes: those up to the ends of their ranges, and no further ones.
use cube_view::Tile;
use example_schemas::schema_of_kinds;
use query_syntax::{Choice, Query, Rect, Span, ValueSet, Verb, is_valid_query};
use std::alloc::Global;
use texts::NoMemory;

/// The bin past the last one.
const END: u64 = 1 << 32;

/// A query of all records.
const ALL: Query = Query {
    verb: Verb::Count,
    region: Tile { z: 0, x: 0, y: 0 },
    sets: [Choice::All, Choice::All, Choice::All, Choice::All],
    time: Span { from: 0, to: END },
};

/// Whether the schema of the category `kind` takes the query.
fn is_taken(alloc: Global, query: &Query) -> Result<bool, NoMemory> {
    let schema = schema_of_kinds(alloc)?;
    Ok(is_valid_query(&schema, query))
}

/// Verbs in the tile of a level and an x, whose y is 0.
const IN_TILES: [(Verb, u8, u32, bool); 12] = [
    (Verb::Count, 3, 7, true),
    (Verb::Count, 4, 0, false),
    (Verb::Count, 3, 8, false),
    (Verb::Map(3), 0, 0, true),
    (Verb::Map(0), 3, 0, true),
    (Verb::Map(4), 0, 0, false),
    (Verb::Cross(0, 0), 0, 0, false),
    (Verb::Cross(0, 1), 0, 0, false),
    (Verb::Stat, 0, 0, true),
    (Verb::Told, 0, 0, true),
    (Verb::Quit, 0, 0, true),
    (Verb::Quit, 1, 0, false),
];

#[test]
fn takes_tiles_and_levels_up_to_the_depth(rt: HostRuntime) {
    for (verb, z, x, wanted) in IN_TILES {
        let mut query = ALL;
        query.verb = verb;
        query.region = Tile { z, x, y: 0 };
        assert_eq!(rt; is_taken(rt.alloc(), &query), Ok(wanted), "{query:?}");
    }
}

/// Verbs in a span of bins.
const IN_SPANS: [(Verb, u64, u64, bool); 5] = [
    (Verb::Count, END, END, true),
    (Verb::Count, 1, 0, false),
    (Verb::Count, 0, END + 1, false),
    (Verb::Hist(0), 0, 0, true),
    (Verb::Hist(1), 0, 0, false),
];

#[test]
fn takes_spans_up_to_the_last_bin(rt: HostRuntime) {
    for (verb, from, to, wanted) in IN_SPANS {
        let mut query = ALL;
        query.verb = verb;
        query.time = Span { from, to };
        assert_eq!(rt; is_taken(rt.alloc(), &query), Ok(wanted), "{query:?}");
    }
}

/// Values of the first category.
const SETS: [(&[u8], bool); 4] = [(&[1], true), (&[], false), (&[0, 1], false), (&[2], false)];

#[test]
fn takes_sets_of_some_values_and_not_all(rt: HostRuntime) {
    for (values, wanted) in SETS {
        let mut set = ValueSet::none();
        for value in values {
            set.insert(*value);
        }
        let mut query = ALL;
        query.sets[0] = Choice::Only(set);
        query.region = Tile { z: 3, x: 7, y: 0 };
        assert_eq!(rt; is_taken(rt.alloc(), &query), Ok(wanted), "{values:?}");
    }
}

/// First bin, bins a row, rows, and the end of the query's span.
const SERIES: [(u64, u64, u32, u64, bool); 6] = [
    (0, 1, 1, END, true),
    (END - 1, END, 10_000, END, true),
    (END, 1, 1, END, false),
    (0, 0, 1, END, false),
    (0, 1, 10_001, END, false),
    (0, 1, 1, 1, false),
];

#[test]
fn takes_series_in_all_of_time(rt: HostRuntime) {
    for (from, wide, rows, to, wanted) in SERIES {
        let mut query = ALL;
        query.verb = Verb::Series { from, wide, rows };
        query.time = Span { from: 0, to };
        assert_eq!(rt; is_taken(rt.alloc(), &query), Ok(wanted), "{query:?}");
    }
}

/// Columns and rows of a window, and the level of the query's tile.
const WINDOWS: [([u32; 4], u8, bool); 6] = [
    ([0, 0, 8, 8], 0, true),
    ([2, 2, 2, 8], 0, true),
    ([0, 0, 9, 1], 0, false),
    ([0, 0, 1, 9], 0, false),
    ([3, 0, 1, 1], 0, false),
    ([0, 0, 8, 8], 1, false),
];

/// The count of that window.
fn window([x0, y0, x1, y1]: [u32; 4]) -> Query {
    let mut query = ALL;
    query.verb = Verb::Window(Rect { x0, y0, x1, y1 });
    query
}

#[test]
fn takes_windows_in_all_of_space(rt: HostRuntime) {
    for (rect, z, wanted) in WINDOWS {
        let mut query = window(rect);
        query.region = Tile { z, x: 0, y: 0 };
        assert_eq!(rt; is_taken(rt.alloc(), &query), Ok(wanted), "{query:?}");
    }
    let mut query = window([0, 0, 8, 8]);
    query.time = Span { from: 1, to: 2 };
    assert_eq!(rt; is_taken(rt.alloc(), &query), Ok(true), "{query:?}");
}

/// Levels below the tile, rows, and the level of the query's tile.
const BESTS: [(u8, u32, u8, bool); 5] = [
    (3, 1_000, 0, true),
    (1, 1, 2, true),
    (1, 1, 3, false),
    (1, 0, 0, false),
    (1, 1_001, 0, false),
];

#[test]
fn takes_best_tiles_up_to_the_depth(rt: HostRuntime) {
    for (depth, rows, z, wanted) in BESTS {
        let mut query = ALL;
        query.verb = Verb::Best { depth, rows };
        query.region = Tile { z, x: 0, y: 0 };
        assert_eq!(rt; is_taken(rt.alloc(), &query), Ok(wanted), "{query:?}");
    }
}
