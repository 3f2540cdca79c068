//! The totals before ends that rise by equal steps, by one pass over the rows.
ghost use Rattle.std.specs.Prelude.{◌≡◌, ◌+◌, ◌*◌, ◌^◌, ◌<◌, ◌≤◌, length, All, MatchBool};
ghost use Rattle.probe_core.specs.Bits.{bits};
ghost use Rattle.time_table.specs.Totals.{Rise, counts, last_total};
ghost use Rattle.time_table.specs.Blocks.{IsSplit, flat};
ghost use Rattle.time_table.specs.Series.{each_before, HaveRoom, GoOn, Tells, KnowsBin, KnowsRows};

use crate::heads::Heads;
use crate::row::Row;
use crate::row_list::RowList;
use crate::stored::StoredRow;
use probe_core::Steps;
use std::sync::ledger::Ledger;

/// How many ends are done, and which one is next.
#[derive(Clone, Copy)]
pub struct Ends {
    pub done: usize,
    pub end: u64,
    pub wide: u64,
}

/// Tells the totals of the ends that are not past a bin.
fn tell(ends: &mut Ends, totals: &mut [u64], bin: u64, total: u64)
    requires room { HaveRoom ends.old totals.old }
    ensures on { GoOn ends.old ends.new totals.old totals.new }
    ensures tells { Tells (KnowsBin bin total) ends.old ends.new totals.old totals.new }
    ensures past { ends.new.done < length totals.new → bin < ends.new.end }
{
    while ends.done < totals.len() && ends.end <= bin {
        totals[ends.done] = total;
        ends.done += 1;
        ends.end += ends.wide;
    }
}

/// Tells the totals of the ends up to the last row, and gives the total of all rows. `before` fell into bins before
/// them.
fn pass_rows<T: StoredRow, L: Ledger>(
    rows: &RowList<T>,
    before: u64,
    ends: &mut Ends,
    totals: &mut [u64],
    steps: &mut Steps<L>,
) -> u64
    requires rise { Rise 0 0 rows.now.items }
    requires fits { 0 < before → before + last_total 0 rows.now.items ≤ 2 ^ 63 }
    requires room { HaveRoom ends.old totals.old }
    ensures on { GoOn ends.old ends.new totals.old totals.new }
    ensures tells { Tells (KnowsRows rows.now.items before) ends.old ends.new totals.old totals.new }
    ensures past { ends.new.done < length totals.new → All (λ row. row.bin < ends.new.end) rows.now.items }
    ensures total { result ≡ before + last_total 0 rows.now.items }
    ensures cost { steps.new ≤ steps.old + length rows.now.items }
{
    let mut below = 0;
    for i in 0..rows.len() {
        let row = rows.at(i, steps);
        tell(ends, totals, u64::from(row.bin), before + below);
        below = row.total;
    }
    before + below
}

/// The totals before the ends, by one pass over a list of rows.
pub fn pass_single<T: StoredRow, L: Ledger>(
    rows: &RowList<T>,
    from: u64,
    wide: u64,
    totals: &mut [u64],
    steps: &mut Steps<L>,
)
    requires rise { Rise 0 0 rows.now.items }
    requires small { from + wide * length totals.old < 2 ^ 64 }
    ensures sums { totals.new ≡ each_before (counts rows.now.items) from wide (length totals.old) }
    ensures cost { steps.new ≤ steps.old + length rows.now.items }
{
    let mut ends = Ends {
        done: 0,
        end: from,
        wide,
    };
    let whole = pass_rows(rows, 0, &mut ends, totals, steps);
    tell(&mut ends, totals, u64::MAX, whole);
}

/// The totals before the ends, by a search of the heads and one pass over the blocks from there on.
pub fn pass_blocks<T: StoredRow, L: Ledger>(
    heads: &Heads,
    blocks: &Vec<RowList<T>>,
    from: u64,
    wide: u64,
    totals: &mut [u64],
    steps: &mut Steps<L>,
)
    requires split { IsSplit T.limit heads.now.items blocks.now.items }
    requires small { from + wide * length totals.old < 2 ^ 64 }
    ensures sums { totals.new ≡ each_before (counts (flat 0 blocks.now.items)) from wide (length totals.old) }
    ensures cost { steps.new ≤ steps.old + (bits (length heads.now.items) + length (flat 0 blocks.now.items)) }
{
    let place = heads.place_of(from, steps);
    let mut ends = Ends {
        done: 0,
        end: from,
        wide,
    };
    let mut before = place.below;
    for q in place.index..blocks.len() {
        if ends.done == totals.len() {
            return;
        }
        before = pass_rows(&blocks[q], before, &mut ends, totals, steps);
    }
    tell(&mut ends, totals, u64::MAX, before);
}

/// Whether blocks have at most so many rows. It looks at no more blocks than have that many.
pub fn are_few<T: StoredRow>(blocks: &Vec<RowList<T>>, most: usize) -> bool
    ensures { MatchBool result (length (flat 0 blocks.now.items) ≤ most) (most < length (flat 0 blocks.now.items)) }
{
    let mut left = most;
    for block in blocks {
        if left < block.len() {
            return false;
        }
        left -= block.len();
    }
    true
}

/// How many binary digits a number has.
pub fn digits(n: usize) -> usize
    ensures digits { result ≡ bits n }
    ensures few { result ≤ 64 }
{
    (usize::BITS - n.leading_zeros()) as usize
}
