//! The search of rows that stand in rising order of bin.
ghost use Rattle.std.specs.Prelude.{◌≡◌, ℕ, ◌+◌, ◌≤◌, length, slice_get, take, MatchOption, IsTrue, false};
ghost use Rattle.probe_core.specs.Bits.{bits};
ghost use Rattle.probe_core.specs.Places.{IsPlace};
ghost use Rattle.time_table.specs.Counts.{first_from};
ghost use Rattle.time_table.specs.Totals.{Rise, counts_from, last_total, total_in, row_bin};
ghost use Rattle.time_table.specs.Places.{added};

use crate::row::Row;
use crate::row_list::RowList;
use crate::stored::StoredRow;
use probe_core::Steps;
use std::sync::ledger::Ledger;

/// Where the rows of a bin and of later bins begin, the total before them, and the first of them.
#[derive(Clone, Copy)]
pub struct BinPlace {
    pub index: usize,
    pub below: u64,
    pub first: Option<Row>,
}

/// The place of the first row whose bin is `bin_end` or later, by one binary search.
pub fn place_of<T: StoredRow, L: Ledger>(
    rows: &RowList<T>,
    bin_end: u64,
    steps: &mut Steps<L>,
) -> BinPlace
    requires { Rise 0 0 rows.now.items }
    ensures place { IsPlace row_bin bin_end rows.now.items result.index }
    ensures total { result.below ≡ last_total 0 (take result.index rows.now.items) }
    ensures first { result.first ≡ slice_get rows.now.items result.index }
    ensures cost { steps.new ≤ steps.old + bits (length rows.now.items) }
{
    let place = rows.first_from(bin_end, steps);
    BinPlace {
        index: place.index,
        below: total_of(place.before),
        first: place.first,
    }
}

/// The total of a row, 0 where there is none.
pub fn total_of(row: Option<Row>) -> u64
    ensures { result ≡ total_in row }
{
    match row {
        Some(row) => row.total,
        None => 0,
    }
}

/// Whether rows that may be 63 have one of the bin, or room for it.
pub fn has_place<T: StoredRow, L: Ledger>(rows: &RowList<T>, bin: u32, steps: &mut Steps<L>) -> bool
    requires rise { Rise 0 0 rows.now.items }
    requires few { length rows.now.items ≤ 63 }
    ensures room { IsTrue result → (n : ℕ) → length (added 0 bin n rows.now.items) ≤ 63 }
    ensures full { result ≡ false → 63 ≤ length rows.now.items }
{
    if rows.len() < 63 {
        return true;
    }
    let place = place_of(rows, u64::from(bin), steps);
    place.index < rows.len() && rows.at(place.index, steps).bin == bin
}

/// The first row whose bin is `from` or later, as the bin and its count.
pub fn next_in<T: StoredRow, L: Ledger>(
    rows: &RowList<T>,
    from: u64,
    steps: &mut Steps<L>,
) -> Option<(u32, u64)>
    requires { Rise 0 0 rows.now.items }
    ensures next { result ≡ first_from from (counts_from 0 rows.now.items) }
    ensures cost { steps.new ≤ steps.old + bits (length rows.now.items) }
{
    let place = place_of(rows, from, steps);
    let row = place.first?;
    Some((row.bin, row.total - place.below))
}
