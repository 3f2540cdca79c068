//! Some records more or less, in rows that stand in rising order of bin.
ghost use Rattle.std.specs.Prelude.{◌≡◌, ◌+◌, ◌-◌, ◌<◌, ◌≤◌, ◌++◌, length, take, drop, map, All, IsOk, OnOk, OnErr};
ghost use Rattle.time_table.specs.Totals.{Rise, IsTotal, counts_from, last_total, raised, lowered};
ghost use Rattle.time_table.specs.Places.{with_row, without_spent, added, taken, count_at};

use crate::place::{BinPlace, place_of};
use crate::row::Row;
use crate::row_list::RowList;
use crate::stored::StoredRow;
use probe_core::Steps;
use std::sync::ledger::Ledger;
use texts::NoMemory;

/// Some records more in a bin. With room for a row it takes no memory.
pub fn add_record<T: StoredRow, L: Ledger>(
    rows: &mut RowList<T>,
    bin: u32,
    amount: u64,
    steps: &mut Steps<L>,
) -> Result<(), NoMemory>
    requires rise { Rise 0 0 rows.old.items }
    requires fits { IsTotal T.limit (last_total 0 rows.old.items + amount) }
    ensures added { OnOk result (rows.new.items ≡ added 0 bin amount rows.old.items) }
    ensures unchanged { OnErr result (rows.new.items ≡ rows.old.items) }
    ensures not_refused { 0 < rows.old.spare → IsOk result }
    ensures room { length rows.old.items + rows.old.spare ≤ length rows.new.items + rows.new.spare }
{
    let place = place_of(rows, u64::from(bin), steps);
    make_row(rows, place, bin, steps)?;
    raise(rows, place.index, amount, steps);
    Ok(())
}

/// Some records less in a bin that has as many.
pub fn take_record<T: StoredRow, L: Ledger>(
    rows: &mut RowList<T>,
    bin: u32,
    amount: u64,
    steps: &mut Steps<L>,
)
    requires rise { Rise 0 0 rows.old.items }
    requires some { 0 < amount }
    requires there { amount ≤ count_at bin (counts_from 0 rows.old.items) }
    ensures taken { rows.new.items ≡ taken 0 bin amount rows.old.items }
    ensures room { length rows.old.items + rows.old.spare ≤ length rows.new.items + rows.new.spare }
{
    let place = place_of(rows, u64::from(bin), steps);
    drop_spent(rows, place, amount, steps);
    lower(rows, place.index, amount, steps);
}

/// Makes a row of no records for the bin at its place, unless it has one there.
fn make_row<T: StoredRow, L: Ledger>(
    rows: &mut RowList<T>,
    place: BinPlace,
    bin: u32,
    steps: &mut Steps<L>,
) -> Result<(), NoMemory>
    requires within { place.index ≤ length rows.old.items }
    requires small { place.below < T.limit }
    ensures made { OnOk result (rows.new.items ≡ with_row place.index place.below bin rows.old.items) }
    ensures unchanged { OnErr result (rows.new.items ≡ rows.old.items) }
    ensures not_refused { 0 < rows.old.spare → IsOk result }
    ensures room { length rows.old.items + rows.old.spare ≤ length rows.new.items + rows.new.spare }
{
    if place.index < rows.len() && rows.at(place.index, steps).bin == bin {
        return Ok(());
    }
    let row = Row {
        bin,
        total: place.below,
    };
    rows.insert(place.index, row)
}

/// Takes the row at the place off, if it has as many records as are taken.
fn drop_spent<T: StoredRow, L: Ledger>(
    rows: &mut RowList<T>,
    place: BinPlace,
    amount: u64,
    steps: &mut Steps<L>,
)
    requires within { place.index < length rows.old.items }
    requires more { All (λ row. place.below < row.total) (drop place.index rows.old.items) }
    ensures dropped { rows.new.items ≡ without_spent place.index place.below amount rows.old.items }
    ensures room { length rows.old.items + rows.old.spare ≤ length rows.new.items + rows.new.spare }
{
    if rows.at(place.index, steps).total - place.below == amount {
        rows.remove(place.index);
    }
}

/// An amount more in each total from a place on.
pub fn raise<T: StoredRow, L: Ledger>(
    rows: &mut RowList<T>,
    from: usize,
    amount: u64,
    steps: &mut Steps<L>,
)
    requires within { from ≤ length rows.old.items }
    requires fits { All (λ row. row.total + amount < T.limit) rows.old.items }
    ensures raised { rows.new.items ≡ take from rows.old.items ++ map (raised amount) (drop from rows.old.items) }
    ensures room { rows.new.spare ≡ rows.old.spare }
{
    for i in from..rows.len() {
        let Row { bin, total } = rows.at(i, steps);
        let raised = Row {
            bin,
            total: total + amount,
        };
        rows.set(i, raised);
    }
}

/// An amount less in each total from a place on.
pub fn lower<T: StoredRow, L: Ledger>(
    rows: &mut RowList<T>,
    from: usize,
    amount: u64,
    steps: &mut Steps<L>,
)
    requires within { from ≤ length rows.old.items }
    requires some { All (λ row. amount ≤ row.total) (drop from rows.old.items) }
    ensures lowered { rows.new.items ≡ take from rows.old.items ++ map (lowered amount) (drop from rows.old.items) }
    ensures room { rows.new.spare ≡ rows.old.spare }
{
    for i in from..rows.len() {
        let Row { bin, total } = rows.at(i, steps);
        let lowered = Row {
            bin,
            total: total - amount,
        };
        rows.set(i, lowered);
    }
}
