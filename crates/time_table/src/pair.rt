//! Two neighbouring blocks, between which rows are moved.
ghost use Rattle.std.specs.Prelude.{◌≡◌, ◌+◌, ◌-◌, ◌<◌, ◌≤◌, ◌⊎◌, [], ◌∷◌, ◌++◌, length, take, drop, insert, All};
ghost use Rattle.time_table.specs.Totals.{Rise, last_total};
ghost use Rattle.time_table.specs.Blocks.{one_list, GivesRow, CanLevel, AreLevel};

use crate::change::{lower, raise};
use crate::row::Row;
use crate::row_list::RowList;
use crate::stored::StoredRow;
use probe_core::Steps;
use std::sync::ledger::Ledger;

/// Puts a row in where there is room for it.
pub fn put_row<T: StoredRow>(rows: &mut RowList<T>, i: usize, row: Row)
    requires within { i ≤ length rows.old.items }
    requires room { 0 < rows.old.spare }
    requires small { row.total < T.limit }
    ensures put { rows.new.items ≡ insert rows.old.items i row }
    ensures room { rows.old.spare ≤ rows.new.spare + 1 }
{
    let _ = rows.insert(i, row);
}

/// Moves the first row of the right block to the end of the left one.
fn move_left<T: StoredRow, L: Ledger>(
    left: &mut RowList<T>,
    right: &mut RowList<T>,
    steps: &mut Steps<L>,
)
    requires rise { Rise 0 0 (one_list left.old.items right.old.items) }
    requires fits { last_total 0 (one_list left.old.items right.old.items) < T.limit }
    requires some_left { 0 < length left.old.items }
    requires some_right { 0 < length right.old.items }
    requires room { 0 < left.old.spare }
    ensures same { one_list left.new.items right.new.items ≡ one_list left.old.items right.old.items }
    ensures gives { GivesRow right.old left.old right.new left.new }
{
    let first = right.remove(0);
    lower(right, 0, first.total, steps);
    let last = left.at(left.len() - 1, steps);
    let row = Row {
        bin: first.bin,
        total: last.total + first.total,
    };
    put_row(left, left.len(), row);
}

/// Moves the last row of the left block to the front of the right one.
fn move_right<T: StoredRow, L: Ledger>(
    left: &mut RowList<T>,
    right: &mut RowList<T>,
    steps: &mut Steps<L>,
)
    requires rise { Rise 0 0 (one_list left.old.items right.old.items) }
    requires fits { last_total 0 (one_list left.old.items right.old.items) < T.limit }
    requires some_left { 1 < length left.old.items }
    requires room { 0 < right.old.spare }
    ensures same { one_list left.new.items right.new.items ≡ one_list left.old.items right.old.items }
    ensures gives { GivesRow left.old right.old left.new right.new }
{
    let row = left.remove(left.len() - 1);
    let last = left.at(left.len() - 1, steps);
    let count = row.total - last.total;
    raise(right, 0, count, steps);
    let moved = Row {
        bin: row.bin,
        total: count,
    };
    put_row(right, 0, moved);
}

/// Puts the first rows of the right block behind those of the left one.
fn append<T: StoredRow, L: Ledger>(
    left: &mut RowList<T>,
    right: &RowList<T>,
    count: usize,
    steps: &mut Steps<L>,
)
    requires some { 0 < length left.old.items }
    requires within { count ≤ length right.now.items }
    requires room { count ≤ left.old.spare }
    requires fits { All (λ row. row.total + last_total 0 left.old.items < T.limit) right.now.items }
    ensures put { left.new.items ≡ one_list left.old.items (take count right.now.items) }
    ensures room { length left.old.items + left.old.spare ≤ length left.new.items + left.new.spare }
{
    let below = left.at(left.len() - 1, steps).total;
    for i in 0..count {
        let Row { bin, total } = right.at(i, steps);
        let row = Row {
            bin,
            total: total + below,
        };
        put_row(left, left.len(), row);
    }
}

/// Takes the first rows off.
fn drop_first<T: StoredRow>(rows: &mut RowList<T>, count: usize)
    requires { count ≤ length rows.old.items }
    ensures dropped { rows.new.items ≡ drop count rows.old.items }
    ensures room { length rows.old.items + rows.old.spare ≤ length rows.new.items + rows.new.spare }
{
    for i in 0..count {
        rows.remove(0);
    }
}

/// Moves the first rows of a full block to the one before it, until that has 63.
pub fn fill<T: StoredRow, L: Ledger>(
    left: &mut RowList<T>,
    right: &mut RowList<T>,
    steps: &mut Steps<L>,
)
    requires rise { Rise 0 0 (one_list left.old.items right.old.items) }
    requires fits { last_total 0 (one_list left.old.items right.old.items) < T.limit }
    requires sizes { CanLevel left.old right.old }
    requires full { length right.old.items ≡ 64 }
    ensures same { one_list left.new.items right.new.items ≡ one_list left.old.items right.old.items }
    ensures sizes { AreLevel left.new right.new }
    ensures some { 32 ≤ length right.new.items }
{
    let count = 63 - left.len();
    let last = right.at(count - 1, steps);
    append(left, right, count, steps);
    drop_first(right, count);
    lower(right, 0, last.total, steps);
}

/// Moves all rows to the left block where that has the room, and else half of them to each.
pub fn level<T: StoredRow, L: Ledger>(
    left: &mut RowList<T>,
    right: &mut RowList<T>,
    steps: &mut Steps<L>,
)
    requires rise { Rise 0 0 (one_list left.old.items right.old.items) }
    requires fits { last_total 0 (one_list left.old.items right.old.items) < T.limit }
    requires sizes { CanLevel left.old right.old }
    ensures same { one_list left.new.items right.new.items ≡ one_list left.old.items right.old.items }
    ensures sizes { AreLevel left.new right.new }
{
    if left.len() + right.len() <= 63 {
        while !right.is_empty() {
            move_left(left, right, steps);
        }
        return;
    }
    while left.len() + 1 < right.len() {
        move_left(left, right, steps);
    }
    while right.len() + 1 < left.len() {
        move_right(left, right, steps);
    }
}
