//! A run of amounts, each in its bin, counted in rows that stand in rising order of bin.
ghost use Rattle.std.specs.Prelude.{◌≡◌, ◌+◌, ◌<◌, ◌≤◌, ◌^◌, [], ◌∷◌, ◌++◌, length, drop, All, IfOk, OnOk};
ghost use Rattle.time_table.specs.Counts.{IsBinRun, run_total};
ghost use Rattle.time_table.specs.Totals.{IsTotal, last_total};
ghost use Rattle.time_table.specs.Places.{PutsLesser, added_run, new_row};
ghost use Rattle.time_table.specs.Forms.{IsSingle};

use crate::row::Row;
use crate::row_list::RowList;
use crate::stored::StoredRow;
use probe_core::Steps;
use std::alloc::Global;
use std::sync::ledger::Ledger;
use texts::NoMemory;

/// The rows with the amounts of a run more, as a new list, by one pass over both.
pub fn merged<T: StoredRow, L: Ledger>(
    alloc: Global,
    rows: &RowList<T>,
    run: &[(u32, u64)],
    steps: &mut Steps<L>,
) -> Result<RowList<T>, NoMemory>
    requires single { IsSingle rows.now.items }
    requires run { IsBinRun run.now }
    requires few { length rows.now.items + length run.now ≤ 63 }
    requires fits { IsTotal T.limit (last_total 0 rows.now.items + run_total run.now) }
    ensures merged { IfOk result (λ merged. merged.items ≡ added_run run.now rows.now.items) }
    ensures single { IfOk result (λ merged. IsSingle merged.items) }
{
    let mut merged = RowList::new(alloc);
    merged.reserve(rows.len() + run.len())?;
    let mut place = 0;
    let mut more = 0;
    for i in 0..run.len() {
        let (bin, amount) = run[i];
        place = put_lesser(rows, place, u64::from(bin), more, &mut merged, steps)?;
        put_new(rows, place, bin, amount, &mut merged, steps)?;
        // A row of the bin has the amount more too, like each row after it.
        more += amount;
    }
    put_lesser(rows, place, 1 << 32, more, &mut merged, steps)?;
    Ok(merged)
}

/// Puts the rows from a place on whose bins are less than an end behind others, each with an amount more, and gives the
/// place of the first one that is left.
fn put_lesser<T: StoredRow, L: Ledger>(
    rows: &RowList<T>,
    from: usize,
    bin_end: u64,
    amount: u64,
    merged: &mut RowList<T>,
    steps: &mut Steps<L>,
) -> Result<usize, NoMemory>
    requires within { from ≤ length rows.now.items }
    requires fits { All (λ row. row.total + amount < T.limit) rows.now.items }
    ensures { IfOk result (λ to. PutsLesser bin_end amount from to rows.now.items merged.old.items merged.new.items) }
{
    for i in from..rows.len() {
        let Row { bin, total } = rows.at(i, steps);
        if bin_end <= u64::from(bin) {
            return Ok(i);
        }
        let raised = Row {
            bin,
            total: total + amount,
        };
        put_last(merged, raised)?;
    }
    Ok(rows.len())
}

/// Puts a row of a bin behind others, unless there is one at the place.
fn put_new<T: StoredRow, L: Ledger>(
    rows: &RowList<T>,
    place: usize,
    bin: u32,
    amount: u64,
    merged: &mut RowList<T>,
    steps: &mut Steps<L>,
) -> Result<(), NoMemory>
    requires fits { IsTotal T.limit (last_total 0 merged.old.items + amount) }
    ensures { OnOk result (merged.new.items ≡ merged.old.items ++ new_row (last_total 0 merged.old.items) bin amount (drop place rows.now.items)) }
{
    if place < rows.len() && rows.at(place, steps).bin == bin {
        return Ok(());
    }
    let row = Row {
        bin,
        total: total_of(merged, steps) + amount,
    };
    put_last(merged, row)
}

/// How many records the rows count.
pub fn total_of<T: StoredRow, L: Ledger>(rows: &RowList<T>, steps: &mut Steps<L>) -> u64
    ensures { result ≡ last_total 0 rows.now.items }
{
    let len = rows.len();
    if len == 0 {
        return 0;
    }
    rows.at(len - 1, steps).total
}

/// Puts a row at the end.
fn put_last<T: StoredRow>(rows: &mut RowList<T>, row: Row) -> Result<(), NoMemory>
    requires { row.total < T.limit }
    ensures { OnOk result (rows.new.items ≡ rows.old.items ++ row ∷ []) }
{
    rows.insert(rows.len(), row)
}

/// How much the amounts of a run are together.
pub fn sum_of(run: &[(u32, u64)]) -> u64
    requires { run_total run.now ≤ 2 ^ 63 }
    ensures { result ≡ run_total run.now }
{
    let mut sum = 0;
    for &(_, amount) in run {
        sum += amount;
    }
    sum
}
