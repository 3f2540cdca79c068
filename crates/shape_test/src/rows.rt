//! The rows of a time table, one after another, and lists that tests read rows into.
ghost use Rattle.std.specs.Prelude.{ℕ, ◌<◌, ◌^◌, MatchOption};
ghost use Rattle.time_table.specs.Counts.{count_of};
ghost use Rattle.shape_test.specs.Merging.{NoRowFrom, IsFirstRow};

use probe_core::Steps;
use std::alloc::Global;
use std::sync::ledger::Ledger;
use time_table::TimeTable;

/// The first row from a bin on. From 2^32 on there is none.
pub fn first_row<L: Ledger>(
    table: &TimeTable,
    from: u64,
    steps: &mut Steps<L>,
) -> Option<(u32, u64)>
    requires { (bin : ℕ) → 0 < count_of table.now bin → bin < 2 ^ 32 }
    ensures { MatchOption result (NoRowFrom table.now from) (IsFirstRow table.now from) }
{
    if from < 1 << 32 {
        table.next_row(from as u32, steps)
    } else {
        None
    }
}

/// Lists for the rows of tables, kept from test to test so that no test takes memory of its own for them.
#[derive(Drop)]
pub struct Room {
    pub alloc: Global,
    pub left: Vec<(u32, u64)>,
    pub rows: Vec<(u32, u64)>,
}

impl Room {
    /// Lists without items.
    pub fn new(alloc: Global) -> Room {
        Room {
            alloc,
            left: Vec::new(alloc),
            rows: Vec::new(alloc),
        }
    }
}
