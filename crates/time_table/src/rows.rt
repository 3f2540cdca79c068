//! The rows of a table in order, without a search for each.
ghost use Rattle.std.specs.Prelude.{◌≡◌, ◌↔◌, ◌+◌, ◌<◌, ◌≤◌, ◌^◌, [], ◌∷◌, ◌++◌, length, All, IfOk, IfSome, OnOk, IsTrue};
ghost use Rattle.time_table.specs.Totals.{Rise, IsTotal, counts_from, totals_from};
ghost use Rattle.time_table.specs.Blocks.{flat, parts};
ghost use Rattle.time_table.specs.Forms.{IsSingle, IsForm, form_entries, rows_of};
ghost use Rattle.time_table.specs.Fews.{few_rows};
ghost use Rattle.time_table.specs.Rows.{AreRows, row_total};

use crate::blocks_of::split_of;
use crate::few::Few;
use crate::form::{Form, boxed};
use crate::row::{Row, ThinRow};
use crate::row_list::RowList;
use crate::run::sum_of;
use crate::stored::StoredRow;
use probe_core::Steps;
use std::alloc::Global;
use std::sync::ledger::Ledger;
use texts::NoMemory;

/// Makes room for so many rows.
fn make_room(out: &mut Vec<(u32, u64)>, rows: usize) -> Result<(), NoMemory>
    ensures { out.new.items ≡ out.old.items }
{
    match out.try_reserve(rows) {
        Ok(()) => Ok(()),
        Err(_) => Err(NoMemory),
    }
}

/// Puts a row at the end.
fn put_one(out: &mut Vec<(u32, u64)>, bin: u32, count: u64) -> Result<(), NoMemory>
    ensures { OnOk result (out.new.items ≡ out.old.items ++ (bin, count) ∷ []) }
{
    match out.push((bin, count)) {
        Ok(()) => Ok(()),
        Err(_) => Err(NoMemory),
    }
}

/// Puts the bins of rows with their counts at the end.
fn put_block<T: StoredRow, L: Ledger>(
    rows: &RowList<T>,
    out: &mut Vec<(u32, u64)>,
    steps: &mut Steps<L>,
) -> Result<(), NoMemory>
    requires { Rise 0 0 rows.now.items }
    ensures put { OnOk result (out.new.items ≡ out.old.items ++ counts_from 0 rows.now.items) }
    ensures cost { steps.new ≤ steps.old + length rows.now.items }
{
    make_room(out, rows.len())?;
    let mut below = 0;
    for i in 0..rows.len() {
        let row = rows.at(i, steps);
        put_one(out, row.bin, row.total - below)?;
        below = row.total;
    }
    Ok(())
}

/// Puts the bins of blocks with their counts at the end.
fn put_blocks<T: StoredRow, L: Ledger>(
    blocks: &Vec<RowList<T>>,
    out: &mut Vec<(u32, u64)>,
    steps: &mut Steps<L>,
) -> Result<(), NoMemory>
    requires { All (λ block. Rise 0 0 block.items) blocks.now.items }
    ensures put { OnOk result (out.new.items ≡ out.old.items ++ parts blocks.now.items) }
    ensures cost { steps.new ≤ steps.old + length (flat 0 blocks.now.items) }
{
    for q in 0..blocks.len() {
        put_block(&blocks[q], out, steps)?;
    }
    Ok(())
}

/// Puts the bins of a few rows with their counts at the end.
fn put_few(few: &Few, out: &mut Vec<(u32, u64)>) -> Result<(), NoMemory>
    requires { Rise 0 0 (few_rows few.now) }
    ensures { OnOk result (out.new.items ≡ out.old.items ++ counts_from 0 (few_rows few.now)) }
{
    match few {
        Few::No => Ok(()),
        Few::One(a) => put_one(out, a.bin(), u64::from(a.total())),
        Few::Two(a, b) => {
            put_one(out, a.bin(), u64::from(a.total()))?;
            put_one(out, b.bin(), u64::from(b.total() - a.total()))
        }
        Few::Three(a, b, c) => {
            put_one(out, a.bin(), u64::from(a.total()))?;
            put_one(out, b.bin(), u64::from(b.total() - a.total()))?;
            put_one(out, c.bin(), u64::from(c.total() - b.total()))
        }
    }
}

/// Puts the bins of a table with their counts at the end, in rising order of bin.
pub fn put_form<L: Ledger>(
    form: &Form,
    out: &mut Vec<(u32, u64)>,
    steps: &mut Steps<L>,
) -> Result<(), NoMemory>
    requires { IsForm form.now }
    ensures put { OnOk result (out.new.items ≡ out.old.items ++ form_entries form.now) }
    ensures cost { steps.new ≤ steps.old + length (rows_of form.now) }
{
    match form {
        Form::Few(few) => put_few(few, out),
        Form::Single(rows) => put_block(rows, out, steps),
        Form::Split(split) => put_blocks(&split.blocks, out, steps),
        Form::WideSingle(rows) => put_block(rows, out, steps),
        Form::WideSplit(split) => put_blocks(&split.blocks, out, steps),
    }
}

/// How many rows blocks have.
fn blocks_len<T: StoredRow>(blocks: &Vec<RowList<T>>) -> u64
    requires { length (flat 0 blocks.now.items) ≤ 2 ^ 32 }
    ensures { result ≡ length (flat 0 blocks.now.items) }
{
    let mut len = 0;
    for block in blocks {
        len += block.len() as u64;
    }
    len
}

/// How many rows a table has.
pub fn form_len(form: &Form) -> u64
    requires { IsForm form.now }
    ensures count { result ≡ length (rows_of form.now) }
    ensures few { result ≤ 2 ^ 32 }
{
    match form {
        Form::Few(few) => few.len() as u64,
        Form::Single(rows) => rows.len() as u64,
        Form::Split(split) => blocks_len(&split.blocks),
        Form::WideSingle(rows) => rows.len() as u64,
        Form::WideSplit(split) => blocks_len(&split.blocks),
    }
}

/// Whether a table has no row.
pub fn is_bare(form: &Form) -> bool
    requires { IsForm form.now }
    ensures { IsTrue result ↔ (rows_of form.now ≡ []) }
{
    match form {
        Form::Few(few) => few.len() == 0,
        Form::Single(rows) => rows.is_empty(),
        Form::WideSingle(rows) => rows.is_empty(),
        Form::Split(_) => false,
        Form::WideSplit(_) => false,
    }
}

/// Rows with their running totals, each put behind the others, and how much they count together. The list has room for
/// as many as are asked for.
pub fn totals_of<T: StoredRow>(
    alloc: Global,
    rows: &[(u32, u64)],
    room: usize,
) -> Result<(RowList<T>, u64), NoMemory>
    requires { IsTotal T.limit (row_total rows.now) }
    ensures made { IfOk result (λ made. made.0.items ≡ totals_from 0 rows.now) }
    ensures total { IfOk result (λ made. made.1 ≡ row_total rows.now) }
    ensures room { IfOk result (λ made. room ≤ length made.0.items + made.0.spare) }
{
    let mut made = RowList::new(alloc);
    made.reserve(room)?;
    let mut total = 0;
    for i in 0..rows.len() {
        total += rows[i].1;
        let row = Row {
            bin: rows[i].0,
            total,
        };
        made.insert(i, row)?;
    }
    Ok((made, total))
}

/// Up to three rows that lie in a table's own bytes, where their totals have 32 bits.
fn few_of(rows: &[(u32, u64)]) -> Option<Few>
    requires fit { AreRows 0 rows.now }
    requires light { row_total rows.now ≤ 2 ^ 63 }
    ensures { IfSome result (λ few. IsSingle (few_rows few) × (counts_from 0 (few_rows few) ≡ rows.now)) }
{
    match rows {
        [] => Some(Few::No),
        [a] => Some(Few::One(ThinRow::new(a.0, a.1)?)),
        [a, b] => {
            let first = ThinRow::new(a.0, a.1)?;
            Some(Few::Two(first, ThinRow::new(b.0, a.1 + b.1)?))
        }
        [a, b, c] => {
            let first = ThinRow::new(a.0, a.1)?;
            let second = ThinRow::new(b.0, a.1 + b.1)?;
            let third = ThinRow::new(c.0, a.1 + b.1 + c.1)?;
            Some(Few::Three(first, second, third))
        }
        _ => None,
    }
}

/// A few rows as one list.
fn single_of<T: StoredRow>(alloc: Global, rows: &[(u32, u64)]) -> Result<RowList<T>, NoMemory>
    requires fit { AreRows 0 rows.now }
    requires light { IsTotal T.limit (row_total rows.now) }
    requires few { length rows.now ≤ 63 }
    ensures { IfOk result (λ made. IsSingle made.items × (counts_from 0 made.items ≡ rows.now)) }
{
    let (made, _) = totals_of(alloc, rows, rows.len())?;
    Ok(made)
}

/// The form of a table with these rows, whose totals have 32 bits.
fn narrow_of(alloc: Global, rows: &[(u32, u64)]) -> Result<Form, NoMemory>
    requires fit { AreRows 0 rows.now }
    requires light { row_total rows.now < 2 ^ 32 }
    ensures { IfOk result (λ form. IsForm form × (form_entries form ≡ rows.now)) }
{
    if rows.len() <= 63 {
        let rows = single_of(alloc, rows)?;
        return Ok(Form::Single(rows));
    }
    let split = split_of(alloc, rows)?;
    Ok(Form::Split(boxed(alloc, split)?))
}

/// The form of a table with these rows, whose totals have 64 bits.
fn wide_of(alloc: Global, rows: &[(u32, u64)]) -> Result<Form, NoMemory>
    requires fit { AreRows 0 rows.now }
    requires light { row_total rows.now ≤ 2 ^ 63 }
    ensures { IfOk result (λ form. IsForm form × (form_entries form ≡ rows.now)) }
{
    if rows.len() <= 63 {
        let rows = single_of(alloc, rows)?;
        return Ok(Form::WideSingle(rows));
    }
    let split = split_of(alloc, rows)?;
    Ok(Form::WideSplit(boxed(alloc, split)?))
}

/// The form of a table with these rows, which no row is searched for.
pub fn form_of(alloc: Global, rows: &[(u32, u64)]) -> Result<Form, NoMemory>
    requires fit { AreRows 0 rows.now }
    requires light { row_total rows.now ≤ 2 ^ 63 }
    ensures { IfOk result (λ form. IsForm form × (form_entries form ≡ rows.now)) }
{
    if let Some(few) = few_of(rows) {
        return Ok(Form::Few(few));
    }
    if sum_of(rows) < 1 << 32 {
        return narrow_of(alloc, rows);
    }
    wide_of(alloc, rows)
}
