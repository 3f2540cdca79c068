//! A few rows that lie in a table's own bytes.
ghost use Rattle.std.specs.Prelude.{◌≡◌, ◌+◌, ◌*◌, ◌<◌, ◌≤◌, ◌^◌, [], ◌∷◌, length, IfOk, IfSome};
ghost use Rattle.time_table.specs.Counts.{count_before, first_from};
ghost use Rattle.time_table.specs.Totals.{Rise, counts, counts_from, last_total, raised, lowered};
ghost use Rattle.time_table.specs.Places.{added, taken};
ghost use Rattle.time_table.specs.Fews.{few_rows, below_from};
ghost use Rattle.time_table.specs.Series.{each_before};

use crate::row::ThinRow;
use crate::row_list::RowList;
use probe_core::Steps;
use std::alloc::Global;
use std::sync::ledger::Ledger;
use texts::NoMemory;

/// Up to three rows whose totals have 32 bits.
#[derive(Clone, Copy)]
pub enum Few {
    No,
    One(ThinRow),
    Two(ThinRow, ThinRow),
    Three(ThinRow, ThinRow, ThinRow),
}

impl Few {
    /// How many rows there are.
    pub fn len(&self) -> usize
        ensures count { result ≡ length (few_rows self.now) }
        ensures few { result ≤ 3 }
    {
        match self {
            Few::No => 0,
            Few::One(_) => 1,
            Few::Two(_, _) => 2,
            Few::Three(_, _, _) => 3,
        }
    }

    /// The total of the last row.
    pub fn total(&self) -> u64
        ensures { result ≡ last_total 0 (few_rows self.now) }
    {
        match self {
            Few::No => 0,
            Few::One(a) => u64::from(a.total()),
            Few::Two(_, b) => u64::from(b.total()),
            Few::Three(_, _, c) => u64::from(c.total()),
        }
    }

    /// A step for each row.
    fn count_steps<L: Ledger>(&self, steps: &mut Steps<L>)
        ensures { steps.new ≡ steps.old + length (few_rows self.now) }
    {
        match self {
            Few::No => {}
            Few::One(_) => steps.tick(),
            Few::Two(_, _) => {
                steps.tick();
                steps.tick();
            }
            Few::Three(_, _, _) => {
                steps.tick();
                steps.tick();
                steps.tick();
            }
        }
    }

    /// How many records fell into bins less than `bin_end`, by a look at each row.
    pub fn before<L: Ledger>(&self, bin_end: u64, steps: &mut Steps<L>) -> u64
        requires { Rise 0 0 (few_rows self.now) }
        ensures sum { result ≡ count_before (counts (few_rows self.now)) bin_end }
        ensures cost { steps.new ≡ steps.old + length (few_rows self.now) }
    {
        self.count_steps(steps);
        self.below(bin_end)
    }

    /// How many records fell into bins less than each of the ends `from`, `from + wide` and so on, by one look at each
    /// row.
    pub fn pass<L: Ledger>(&self, from: u64, wide: u64, totals: &mut [u64], steps: &mut Steps<L>)
        requires rise { Rise 0 0 (few_rows self.now) }
        requires small { from + wide * length totals.old < 2 ^ 64 }
        ensures sums { totals.new ≡ each_before (counts (few_rows self.now)) from wide (length totals.old) }
        ensures cost { steps.new ≡ steps.old + length (few_rows self.now) }
    {
        self.count_steps(steps);
        let mut end = from;
        for total in totals.iter_mut() {
            *total = self.below(end);
            end += wide;
        }
    }

    /// How many records fell into bins less than `bin_end`, of rows that are read already.
    fn below(&self, bin_end: u64) -> u64
        requires { Rise 0 0 (few_rows self.now) }
        ensures { result ≡ count_before (counts (few_rows self.now)) bin_end }
    {
        self.total_below(bin_end)
    }

    /// The total of the last row before `bin_end`.
    fn total_below(&self, bin_end: u64) -> u64
        ensures { result ≡ below_from 0 bin_end (few_rows self.now) }
    {
        match self {
            Few::No => 0,
            Few::One(a) => below_one(0, *a, bin_end),
            Few::Two(a, b) => below_two(0, *a, *b, bin_end),
            Few::Three(a, b, c) => {
                if a.is_before(bin_end) {
                    below_two(a.total(), *b, *c, bin_end)
                } else {
                    0
                }
            }
        }
    }

    /// The first row of a bin that is `from` or later, as the bin and its count, by a look at each row.
    pub fn next_row<L: Ledger>(&self, from: u32, steps: &mut Steps<L>) -> Option<(u32, u64)>
        requires { Rise 0 0 (few_rows self.now) }
        ensures next { result ≡ first_from from (counts_from 0 (few_rows self.now)) }
        ensures cost { steps.new ≡ steps.old + length (few_rows self.now) }
    {
        self.count_steps(steps);
        match self {
            Few::No => None,
            Few::One(a) => next_one(0, *a, from),
            Few::Two(a, b) => match next_one(0, *a, from) {
                Some(row) => Some(row),
                None => next_one(a.total(), *b, from),
            },
            Few::Three(a, b, c) => match next_one(0, *a, from) {
                Some(row) => Some(row),
                None => match next_one(a.total(), *b, from) {
                    Some(row) => Some(row),
                    None => next_one(b.total(), *c, from),
                },
            },
        }
    }

    /// The rows with some records more in a bin, where there is room for that.
    pub fn added(&self, bin: u32, amount: u64) -> Option<Few>
        requires { amount ≤ 2 ^ 63 }
        ensures { IfSome result (λ few. few_rows few ≡ added 0 bin amount (few_rows self.now)) }
    {
        match self {
            Few::No => Some(Few::One(ThinRow::new(bin, amount)?)),
            Few::One(a) => added_to_one(0, *a, bin, amount),
            Few::Two(a, b) => added_to_two(0, *a, *b, bin, amount),
            Few::Three(a, b, c) => added_to_three(*a, *b, *c, bin, amount),
        }
    }

    /// The rows with some records less in a bin that has as many.
    pub fn taken(&self, bin: u32, amount: u64) -> Few
        ensures { few_rows result ≡ taken 0 bin amount (few_rows self.now) }
    {
        match self {
            Few::No => Few::No,
            Few::One(a) => taken_of_one(0, *a, bin, amount),
            Few::Two(a, b) => taken_of_two(0, *a, *b, bin, amount),
            Few::Three(a, b, c) => taken_of_three(*a, *b, *c, bin, amount),
        }
    }

    /// The rows on the heap, with room for a fourth.
    pub fn widened(&self, alloc: Global) -> Result<RowList<ThinRow>, NoMemory>
        ensures { IfOk result (λ rows. rows.items ≡ few_rows self.now) }
    {
        let mut rows = RowList::new(alloc);
        rows.reserve(4)?;
        match self {
            Few::No => {}
            Few::One(a) => rows.insert(0, a.row())?,
            Few::Two(a, b) => {
                rows.insert(0, a.row())?;
                rows.insert(1, b.row())?;
            }
            Few::Three(a, b, c) => {
                rows.insert(0, a.row())?;
                rows.insert(1, b.row())?;
                rows.insert(2, c.row())?;
            }
        }
        Ok(rows)
    }
}

/// The total up to an end, where `before` records fell into bins before one row.
fn below_one(before: u32, a: ThinRow, bin_end: u64) -> u64
    ensures { result ≡ below_from before bin_end (a ∷ []) }
{
    if a.is_before(bin_end) {
        u64::from(a.total())
    } else {
        u64::from(before)
    }
}

/// The total up to an end, where `before` records fell into bins before two rows.
fn below_two(before: u32, a: ThinRow, b: ThinRow, bin_end: u64) -> u64
    ensures { result ≡ below_from before bin_end (a ∷ b ∷ []) }
{
    if a.is_before(bin_end) {
        below_one(a.total(), b, bin_end)
    } else {
        u64::from(before)
    }
}

/// A row as its bin and its count, if its bin is `from` or later.
fn next_one(before: u32, a: ThinRow, from: u32) -> Option<(u32, u64)>
    requires { before ≤ a.total }
    ensures { result ≡ first_from from (counts_from before (a ∷ [])) }
{
    if a.bin() < from {
        None
    } else {
        Some((a.bin(), u64::from(a.total() - before)))
    }
}

/// A row before at most two.
fn with_front(a: ThinRow, few: Few) -> Few
    requires { length (few_rows few) ≤ 2 }
    ensures { few_rows result ≡ a ∷ few_rows few }
{
    match few {
        Few::No => Few::One(a),
        Few::One(b) => Few::Two(a, b),
        Few::Two(b, c) => Few::Three(a, b, c),
        Few::Three(_, _, _) => unreachable!(),
    }
}

/// Some records more in a bin, where there is one row and `before` records fell into bins before it.
fn added_to_one(before: u32, a: ThinRow, bin: u32, amount: u64) -> Option<Few>
    requires { amount ≤ 2 ^ 63 }
    ensures { IfSome result (λ few. few_rows few ≡ added before bin amount (a ∷ [])) }
{
    if a.bin() < bin {
        let row = ThinRow::new(bin, u64::from(a.total()) + amount)?;
        return Some(Few::Two(a, row));
    }
    let raised = a.raised(amount)?;
    if a.bin() == bin {
        return Some(Few::One(raised));
    }
    let row = ThinRow::new(bin, u64::from(before) + amount)?;
    Some(Few::Two(row, raised))
}

/// Some records more in a bin, where there are two rows.
fn added_to_two(before: u32, a: ThinRow, b: ThinRow, bin: u32, amount: u64) -> Option<Few>
    requires { amount ≤ 2 ^ 63 }
    ensures { IfSome result (λ few. few_rows few ≡ added before bin amount (a ∷ b ∷ [])) }
{
    if a.bin() < bin {
        let few = added_to_one(a.total(), b, bin, amount)?;
        return front_of(a, few);
    }
    let first = a.raised(amount)?;
    let second = b.raised(amount)?;
    if a.bin() == bin {
        return Some(Few::Two(first, second));
    }
    let row = ThinRow::new(bin, u64::from(before) + amount)?;
    Some(Few::Three(row, first, second))
}

/// Some records more in a bin, where there are three rows and it is the bin of one of them.
fn added_to_three(a: ThinRow, b: ThinRow, c: ThinRow, bin: u32, amount: u64) -> Option<Few>
    requires { amount ≤ 2 ^ 63 }
    ensures { IfSome result (λ few. few_rows few ≡ added 0 bin amount (a ∷ b ∷ c ∷ [])) }
{
    if a.bin() < bin {
        let few = added_to_two(a.total(), b, c, bin, amount)?;
        return front_of(a, few);
    }
    if a.bin() != bin {
        return None;
    }
    let first = a.raised(amount)?;
    let second = b.raised(amount)?;
    let third = c.raised(amount)?;
    Some(Few::Three(first, second, third))
}

/// A row before others, where there is room for it.
fn front_of(a: ThinRow, few: Few) -> Option<Few>
    ensures { IfSome result (λ more. few_rows more ≡ a ∷ few_rows few) }
{
    if few.len() == 3 {
        None
    } else {
        Some(with_front(a, few))
    }
}

/// Some records less in a bin, where there is one row and `before` records fell into bins before it.
fn taken_of_one(before: u32, a: ThinRow, bin: u32, amount: u64) -> Few
    ensures taken { few_rows result ≡ taken before bin amount (a ∷ []) }
    ensures short { length (few_rows result) ≤ 1 }
{
    if a.bin() < bin {
        Few::One(a)
    } else if a.count_behind(before) == amount {
        Few::No
    } else {
        Few::One(a.lowered(amount))
    }
}

/// Some records less in a bin, where there are two rows.
fn taken_of_two(before: u32, a: ThinRow, b: ThinRow, bin: u32, amount: u64) -> Few
    ensures taken { few_rows result ≡ taken before bin amount (a ∷ b ∷ []) }
    ensures short { length (few_rows result) ≤ 2 }
{
    if a.bin() < bin {
        with_front(a, taken_of_one(a.total(), b, bin, amount))
    } else if a.count_behind(before) == amount {
        Few::One(b.lowered(amount))
    } else {
        Few::Two(a.lowered(amount), b.lowered(amount))
    }
}

/// Some records less in a bin, where there are three rows.
fn taken_of_three(a: ThinRow, b: ThinRow, c: ThinRow, bin: u32, amount: u64) -> Few
    ensures { few_rows result ≡ taken 0 bin amount (a ∷ b ∷ c ∷ []) }
{
    if a.bin() < bin {
        with_front(a, taken_of_two(a.total(), b, c, bin, amount))
    } else if a.count_behind(0) == amount {
        Few::Two(b.lowered(amount), c.lowered(amount))
    } else {
        Few::Three(a.lowered(amount), b.lowered(amount), c.lowered(amount))
    }
}
