//! Queries.
ghost use Rattle.std.specs.Prelude.{◌≡◌, ◌<◌};
ghost use Rattle.query_syntax.specs.Boxes.{chosen};
ghost use Rattle.query_syntax.specs.Parts.{with_region, with_span, with_one_value};

use crate::{QueryFault, Rect, ValueSet};
use cube_view::Tile;

/// What is asked for. `Hist` has the category's number from 0, `Map` how many levels below the region
/// the tiles are, `Series` its first bin, how many bins a row has and how many rows there are, `Window` its finest
/// tiles, `Cross` two categories' numbers, and `Best` the levels below the region and the most rows.
#[derive(Clone, Copy, PartialEq, Eq, Debug)]
pub enum Verb {
    Count,
    Hist(u8),
    Map(u8),
    Series { from: u64, wide: u64, rows: u32 },
    Window(Rect),
    Cross(u8, u8),
    Best { depth: u8, rows: u32 },
    Stat,
    Told,
    Quit,
}

/// Which values of a category are counted.
#[derive(Clone, Copy, PartialEq, Eq, Debug)]
pub enum Choice {
    All,
    Only(ValueSet),
}

impl Choice {
    /// Whether the value is counted.
    pub fn has(&self, value: u8) -> bool
        ensures { result ≡ chosen self.now value }
    {
        match self {
            Choice::All => true,
            Choice::Only(set) => set.has(value),
        }
    }
}

/// The bins from `from` on that are under `to`.
#[derive(Clone, Copy, PartialEq, Eq, Debug)]
pub struct Span {
    pub from: u64,
    pub to: u64,
}

/// A query: what is asked for, of which records. Sets past the schema's categories are `All`.
#[derive(Clone, Copy, PartialEq, Eq, Debug)]
pub struct Query {
    pub verb: Verb,
    pub region: Tile,
    pub sets: [Choice; 4],
    pub time: Span,
}

impl Query {
    /// The query with that tile as its region.
    pub fn with_region(&self, region: Tile) -> Query
        ensures { result ≡ with_region self.now region }
    {
        let mut other = *self;
        other.region = region;
        other
    }

    /// The query with that span.
    pub fn with_span(&self, time: Span) -> Query
        ensures { result ≡ with_span self.now time }
    {
        let mut other = *self;
        other.time = time;
        other
    }

    /// Puts this value alone into its set of category `k`, counted from 0.
    pub fn set_one_value(&mut self, k: usize, value: u8)
        requires { k < 4 }
        ensures { self.new ≡ with_one_value self.old k value }
    {
        self.sets[k] = Choice::Only(ValueSet::one(value));
    }
}

/// What a line means: nothing, a query, or its first fault and the number of that word from 1.
#[derive(Clone, Copy, PartialEq, Eq, Debug)]
pub enum Parsed {
    Skip,
    Ask(Query),
    Fault(QueryFault, u32),
}
