//! The forms of a table.
ghost use Rattle.std.specs.Prelude.{◌≡◌, ℕ, ◌+◌, ◌*◌, ◌<◌, ◌≤◌, ◌^◌, [], ◌∷◌, length, OnOk, OnErr, IfOk, IsTrue, MatchBool, false};
ghost use Rattle.probe_core.specs.Bits.{bits};
ghost use Rattle.probe_core.specs.Blanks.{IsBlankOf};
ghost use Rattle.time_table.specs.Counts.{IsBinRun, count_before, first_from, run_total};
ghost use Rattle.time_table.specs.Totals.{Rise, counts, counts_from, last_total};
ghost use Rattle.time_table.specs.Places.{count_at, more, more_run, less};
ghost use Rattle.time_table.specs.Blocks.{IsSplit, parts};
ghost use Rattle.time_table.specs.Forms.{IsSingle, IsForm, IsListed, MayRise, HasRoom, HasRoomFor, rows_of, form_entries, find_cost, total_of};
ghost use Rattle.time_table.specs.Series.{each_before, each_cost};

use crate::block::block_of;
use crate::change::{add_record, take_record};
use crate::few::Few;
use crate::heads::Heads;
use crate::pair::put_row;
use crate::place::{has_place, next_in, place_of};
use crate::row::{Row, ThinRow};
use crate::row_list::RowList;
use crate::run::{merged, sum_of, total_of};
use crate::series::{are_few, digits, pass_blocks, pass_single};
use crate::split::{
    add_in, before_in, copy_blocks, next_row_in, put_block, reserve_block, take_in,
};
use crate::stored::StoredRow;
use probe_core::Steps;
use std::alloc::Global;
use std::sync::ledger::{Blank, Ledger};
use texts::NoMemory;

/// A few rows in the table's own bytes, a short list of rows, or heads and blocks. Rows have totals of 32 bits, until a
/// total needs more.
#[derive(Drop)]
pub enum Form {
    Few(Few),
    Single(RowList<ThinRow>),
    Split(Box<Split<ThinRow>>),
    WideSingle(RowList<Row>),
    WideSplit(Box<Split<Row>>),
}

/// Blocks under their heads.
#[derive(Drop)]
pub struct Split<T: StoredRow> {
    pub heads: Heads,
    pub blocks: Vec<RowList<T>>,
}

impl Form {
    /// How many records fell into bins less than `bin_end`.
    pub fn before<L: Ledger>(&self, bin_end: u64, steps: &mut Steps<L>) -> u64
        requires { IsForm self.now }
        ensures sum { result ≡ count_before (counts (rows_of self.now)) bin_end }
        ensures cost { steps.new ≤ steps.old + find_cost self.now }
    {
        match self {
            Form::Few(few) => few.before(bin_end, steps),
            Form::Single(rows) => place_of(rows, bin_end, steps).below,
            Form::Split(split) => before_in(&split.heads, &split.blocks, bin_end, steps),
            Form::WideSingle(rows) => place_of(rows, bin_end, steps).below,
            Form::WideSplit(split) => before_in(&split.heads, &split.blocks, bin_end, steps),
        }
    }

    /// How many records fell into bins less than each of the ends `from`, `from + wide` and so on.
    pub fn before_each<L: Ledger>(
        &self,
        from: u64,
        wide: u64,
        totals: &mut [u64],
        steps: &mut Steps<L>,
    )
        requires form { IsForm self.now }
        requires small { from + wide * length totals.old < 2 ^ 64 }
        ensures sums { totals.new ≡ each_before (counts (rows_of self.now)) from wide (length totals.old) }
        ensures cost { steps.new ≤ steps.old + each_cost (length totals.old) (length (rows_of self.now)) }
    {
        if self.is_short(totals.len()) {
            self.pass(from, wide, totals, steps);
        } else {
            self.search_each(from, wide, totals, steps);
        }
    }

    /// At most how many rows a search looks at.
    fn find_cost(&self) -> usize
        ensures cost { result ≡ find_cost self.now }
        ensures few { result ≤ 70 }
    {
        match self {
            // Each of its rows is looked at.
            Form::Few(few) => few.len(),
            Form::Single(rows) => digits(rows.len()),
            // A block has at most 63 rows.
            Form::Split(split) => digits(split.heads.len()) + 6,
            Form::WideSingle(rows) => digits(rows.len()),
            Form::WideSplit(split) => digits(split.heads.len()) + 6,
        }
    }

    /// Whether a pass over the rows looks at no more of them than a search for each of so many ends.
    fn is_short(&self, ends: usize) -> bool
        requires { IsForm self.now }
        ensures { let pass = find_cost self.now + length (rows_of self.now) in MatchBool result (pass ≤ ends * find_cost self.now) (ends * find_cost self.now ≤ pass) }
    {
        if ends == 0 {
            return false;
        }
        // A pass of blocks begins with a search too.
        let most = (ends - 1).saturating_mul(self.find_cost());
        match self {
            Form::Few(few) => few.len() <= most,
            Form::Single(rows) => rows.len() <= most,
            Form::Split(split) => are_few(&split.blocks, most),
            Form::WideSingle(rows) => rows.len() <= most,
            Form::WideSplit(split) => are_few(&split.blocks, most),
        }
    }

    /// The totals before the ends, by one pass over the rows.
    fn pass<L: Ledger>(&self, from: u64, wide: u64, totals: &mut [u64], steps: &mut Steps<L>)
        requires form { IsForm self.now }
        requires small { from + wide * length totals.old < 2 ^ 64 }
        ensures sums { totals.new ≡ each_before (counts (rows_of self.now)) from wide (length totals.old) }
        ensures cost { steps.new ≤ steps.old + (find_cost self.now + length (rows_of self.now)) }
    {
        match self {
            Form::Few(few) => few.pass(from, wide, totals, steps),
            Form::Single(rows) => pass_single(rows, from, wide, totals, steps),
            Form::Split(split) => {
                pass_blocks(&split.heads, &split.blocks, from, wide, totals, steps);
            }
            Form::WideSingle(rows) => pass_single(rows, from, wide, totals, steps),
            Form::WideSplit(split) => {
                pass_blocks(&split.heads, &split.blocks, from, wide, totals, steps);
            }
        }
    }

    /// The totals before the ends, by a search for each.
    fn search_each<L: Ledger>(&self, from: u64, wide: u64, totals: &mut [u64], steps: &mut Steps<L>)
        requires form { IsForm self.now }
        requires small { from + wide * length totals.old < 2 ^ 64 }
        ensures sums { totals.new ≡ each_before (counts (rows_of self.now)) from wide (length totals.old) }
        ensures cost { steps.new ≤ steps.old + length totals.old * find_cost self.now }
    {
        let mut end = from;
        for total in totals.iter_mut() {
            *total = self.before(end, steps);
            end += wide;
        }
    }

    /// Some records more in a bin.
    pub fn add<L: Ledger>(
        &mut self,
        alloc: Global,
        bin: u32,
        amount: u64,
        blank: Blank,
    ) -> Result<(), NoMemory>
        requires blank { IsBlankOf L.name L.parts blank }
        requires form { IsForm self.old }
        requires some { 0 < amount }
        requires fits { total_of self.old + amount ≤ 2 ^ 63 }
        ensures form { IsForm self.new }
        ensures added { OnOk result (form_entries self.new ≡ more bin amount (form_entries self.old)) }
        ensures unchanged { OnErr result (form_entries self.new ≡ form_entries self.old) }
    {
        if self.add_few(bin, amount) {
            return Ok(());
        }
        let mut steps = Steps::<L>::new(blank);
        self.list(alloc)?;
        self.widen(alloc, amount, &mut steps)?;
        self.grow(alloc, bin, &mut steps)?;
        match self {
            Form::Few(_) => unreachable!(),
            Form::Single(rows) => add_record(rows, bin, amount, &mut steps),
            Form::Split(split) => {
                let Split { heads, blocks } = &mut **split;
                add_in(alloc, heads, blocks, bin, amount, &mut steps)
            }
            Form::WideSingle(rows) => add_record(rows, bin, amount, &mut steps),
            Form::WideSplit(split) => {
                let Split { heads, blocks } = &mut **split;
                add_in(alloc, heads, blocks, bin, amount, &mut steps)
            }
        }
    }

    /// How many records there are.
    fn total<L: Ledger>(&self, steps: &mut Steps<L>) -> u64
        requires { IsForm self.now }
        ensures { result ≡ total_of self.now }
    {
        match self {
            Form::Few(few) => few.total(),
            Form::Single(rows) => total_of(rows, steps),
            Form::Split(split) => split.heads.total(steps),
            Form::WideSingle(rows) => total_of(rows, steps),
            Form::WideSplit(split) => split.heads.total(steps),
        }
    }

    /// Whether the rows have totals of 64 bits, or totals of 32 bits with some records more too.
    fn may_rise<L: Ledger>(&self, amount: u64, steps: &mut Steps<L>) -> bool
        requires form { IsForm self.now }
        requires fits { total_of self.now + amount ≤ 2 ^ 63 }
        ensures { IsTrue result → MayRise amount self.now }
    {
        match self {
            Form::WideSingle(_) | Form::WideSplit(_) => true,
            _ => self.total(steps) + amount < 1 << 32,
        }
    }

    /// Whether a list without blocks has room for so many rows more, and a new list is worth it: one of one or two rows
    /// would take room for four.
    fn has_room_for(&self, amounts: usize) -> bool
        requires { IsForm self.now }
        ensures { IsTrue result → HasRoomFor amounts self.now }
    {
        match self {
            // Three rows have room in the table's own bytes.
            Form::Few(few) => 1 < amounts && amounts <= 60 && 3 < few.len() + amounts,
            Form::Single(rows) => {
                let most = 63 - rows.len();
                1 < amounts && amounts <= most && 2 < rows.len() + amounts
            }
            Form::Split(_) | Form::WideSingle(_) | Form::WideSplit(_) => false,
        }
    }

    /// Whether a run of amounts is merged with the rows. Blocks and wide rows are changed in place.
    pub fn is_mergeable<L: Ledger>(&self, run: &[(u32, u64)], blank: Blank) -> bool
        requires blank { IsBlankOf L.name L.parts blank }
        requires form { IsForm self.now }
        requires fits { total_of self.now + run_total run.now ≤ 2 ^ 63 }
        ensures room { IsTrue result → HasRoomFor (length run.now) self.now }
        ensures small { IsTrue result → MayRise (run_total run.now) self.now }
    {
        if !self.has_room_for(run.len()) {
            return false;
        }
        let mut steps = Steps::<L>::new(blank);
        self.may_rise(sum_of(run), &mut steps)
    }

    /// The amounts of a run more, merged with rows that have no blocks.
    pub fn merge<L: Ledger>(
        &mut self,
        alloc: Global,
        run: &[(u32, u64)],
        blank: Blank,
    ) -> Result<(), NoMemory>
        requires blank { IsBlankOf L.name L.parts blank }
        requires form { IsForm self.old }
        requires room { HasRoomFor (length run.now) self.old }
        requires run { IsBinRun run.now }
        requires small { MayRise (run_total run.now) self.old }
        ensures form { IsForm self.new }
        ensures added { OnOk result (form_entries self.new ≡ more_run run.now (form_entries self.old)) }
        ensures unchanged { OnErr result (form_entries self.new ≡ form_entries self.old) }
    {
        let mut steps = Steps::<L>::new(blank);
        let rows = match self {
            Form::Few(few) => merged(alloc, &few.widened(alloc)?, run, &mut steps)?,
            Form::Single(rows) => merged(alloc, rows, run, &mut steps)?,
            Form::Split(_) | Form::WideSingle(_) | Form::WideSplit(_) => unreachable!(),
        };
        *self = Form::Single(rows);
        Ok(())
    }

    /// Some records more in a bin, if the rows lie in the table's own bytes and do so with these records too. It takes
    /// no memory.
    fn add_few(&mut self, bin: u32, amount: u64) -> bool
        requires form { IsForm self.old }
        requires some { 0 < amount }
        requires fits { total_of self.old + amount ≤ 2 ^ 63 }
        ensures form { IsForm self.new }
        ensures added { IsTrue result → form_entries self.new ≡ more bin amount (form_entries self.old) }
        ensures unchanged { result ≡ false → self.new ≡ self.old }
    {
        let Form::Few(few) = self else {
            return false;
        };
        match few.added(bin, amount) {
            Some(more) => {
                *few = more;
                true
            }
            None => false,
        }
    }

    /// Moves rows that lie in the table's own bytes to a list. For want of memory the form is as before.
    fn list(&mut self, alloc: Global) -> Result<(), NoMemory>
        requires form { IsForm self.old }
        ensures form { IsForm self.new }
        ensures same { form_entries self.new ≡ form_entries self.old }
        ensures total { total_of self.new ≡ total_of self.old }
        ensures listed { OnOk result (IsListed self.new) }
    {
        let Form::Few(few) = self else {
            return Ok(());
        };
        let rows = few.widened(alloc)?;
        *self = Form::Single(rows);
        Ok(())
    }

    /// Gives the rows totals of 64 bits, unless 32 bits are enough with some records more too. For want of memory the
    /// form is as before.
    fn widen<L: Ledger>(
        &mut self,
        alloc: Global,
        amount: u64,
        steps: &mut Steps<L>,
    ) -> Result<(), NoMemory>
        requires form { IsForm self.old }
        requires listed { IsListed self.old }
        requires fits { total_of self.old + amount ≤ 2 ^ 63 }
        ensures form { IsForm self.new }
        ensures same { form_entries self.new ≡ form_entries self.old }
        ensures total { total_of self.new ≡ total_of self.old }
        ensures listed { IsListed self.new }
        ensures small { OnOk result (MayRise amount self.new) }
    {
        if self.may_rise(amount, steps) {
            return Ok(());
        }
        match self {
            Form::Single(rows) => {
                let rows = block_of(alloc, rows, steps)?;
                *self = Form::WideSingle(rows);
                Ok(())
            }
            Form::Split(split) => {
                let split = copy_split(alloc, split, steps)?;
                *self = Form::WideSplit(split);
                Ok(())
            }
            Form::Few(_) | Form::WideSingle(_) | Form::WideSplit(_) => Ok(()),
        }
    }

    /// Some records less in a bin that has as many.
    pub fn take<L: Ledger>(&mut self, bin: u32, amount: u64, blank: Blank)
        requires blank { IsBlankOf L.name L.parts blank }
        requires form { IsForm self.old }
        requires some { 0 < amount }
        requires there { amount ≤ count_at bin (form_entries self.old) }
        ensures form { IsForm self.new }
        ensures taken { form_entries self.new ≡ less bin amount (form_entries self.old) }
    {
        let mut steps = Steps::<L>::new(blank);
        match self {
            Form::Few(few) => {
                *few = few.taken(bin, amount);
            }
            Form::Single(rows) => take_record(rows, bin, amount, &mut steps),
            Form::Split(split) => {
                let Split { heads, blocks } = &mut **split;
                if !take_in(heads, blocks, bin, amount, &mut steps) {
                    return;
                }
                let short = blocks.remove(0);
                *self = Form::Single(short);
            }
            Form::WideSingle(rows) => take_record(rows, bin, amount, &mut steps),
            Form::WideSplit(split) => {
                let Split { heads, blocks } = &mut **split;
                if !take_in(heads, blocks, bin, amount, &mut steps) {
                    return;
                }
                let short = blocks.remove(0);
                *self = Form::WideSingle(short);
            }
        }
    }

    /// The first row of a bin that is `from` or later, as the bin and its count.
    pub fn next_row<L: Ledger>(&self, from: u32, steps: &mut Steps<L>) -> Option<(u32, u64)>
        requires { IsForm self.now }
        ensures next { result ≡ first_from from (form_entries self.now) }
        ensures cost { steps.new ≤ steps.old + (1 + bits (length (rows_of self.now))) }
    {
        match self {
            Form::Few(few) => few.next_row(from, steps),
            Form::Single(rows) => next_in(rows, u64::from(from), steps),
            Form::Split(split) => next_row_in(&split.heads, &split.blocks, from, steps),
            Form::WideSingle(rows) => next_in(rows, u64::from(from), steps),
            Form::WideSplit(split) => next_row_in(&split.heads, &split.blocks, from, steps),
        }
    }

    /// The same rows once more.
    pub fn copy<L: Ledger>(&self, alloc: Global, blank: Blank) -> Result<Form, NoMemory>
        requires blank { IsBlankOf L.name L.parts blank }
        requires form { IsForm self.now }
        ensures { IfOk result (λ form. IsForm form × (form_entries form ≡ form_entries self.now)) }
    {
        let mut steps = Steps::<L>::new(blank);
        match self {
            Form::Few(few) => Ok(Form::Few(*few)),
            Form::Single(rows) => {
                let rows = rows.copy(alloc)?;
                Ok(Form::Single(rows))
            }
            Form::Split(split) => {
                let split = copy_split(alloc, split, &mut steps)?;
                Ok(Form::Split(split))
            }
            Form::WideSingle(rows) => {
                let rows = rows.copy(alloc)?;
                Ok(Form::WideSingle(rows))
            }
            Form::WideSplit(split) => {
                let split = copy_split(alloc, split, &mut steps)?;
                Ok(Form::WideSplit(split))
            }
        }
    }

    /// Makes a block of a list of rows that is full and has none of the bin. For want of memory the form is as before.
    fn grow<L: Ledger>(
        &mut self,
        alloc: Global,
        bin: u32,
        steps: &mut Steps<L>,
    ) -> Result<(), NoMemory>
        requires form { IsForm self.old }
        requires listed { IsListed self.old }
        requires fits { total_of self.old ≤ 2 ^ 63 }
        ensures form { IsForm self.new }
        ensures same { form_entries self.new ≡ form_entries self.old }
        ensures total { total_of self.new ≡ total_of self.old }
        ensures room { OnOk result (HasRoom bin self.new) }
        ensures small { (n : ℕ) → MayRise n self.old → MayRise n self.new }
    {
        match self {
            Form::Single(rows) => {
                if has_place(rows, bin, steps) {
                    return Ok(());
                }
                let split = split_from(alloc, rows, steps)?;
                *self = Form::Split(split);
                Ok(())
            }
            Form::WideSingle(rows) => {
                if has_place(rows, bin, steps) {
                    return Ok(());
                }
                let split = split_from(alloc, rows, steps)?;
                *self = Form::WideSplit(split);
                Ok(())
            }
            Form::Few(_) | Form::Split(_) | Form::WideSplit(_) => Ok(()),
        }
    }
}

/// A list of rows that is full as one block under its head.
fn split_from<T: StoredRow, L: Ledger>(
    alloc: Global,
    rows: &RowList<T>,
    steps: &mut Steps<L>,
) -> Result<Box<Split<T>>, NoMemory>
    requires single { IsSingle rows.now.items }
    requires full { length rows.now.items ≡ 63 }
    requires fits { last_total 0 rows.now.items ≤ 2 ^ 63 }
    ensures split { IfOk result (λ split. IsSplit T.limit split.value.heads.items split.value.blocks.items) }
    ensures parts { IfOk result (λ split. parts split.value.blocks.items ≡ counts_from 0 rows.now.items) }
    ensures total { IfOk result (λ split. last_total 0 split.value.heads.items ≡ last_total 0 rows.now.items) }
{
    let last = rows.at(rows.len() - 1, steps);
    let block = block_of(alloc, rows, steps)?;
    let mut heads = RowList::new(alloc);
    heads.reserve(1)?;
    let mut blocks = Vec::new(alloc);
    reserve_block(&mut blocks)?;
    let head = Row {
        bin: u32::MAX,
        total: last.total,
    };
    put_row(&mut heads, 0, head);
    put_block(&mut blocks, 0, block);
    let heads = Heads::of(heads);
    let split = boxed(alloc, Split { heads, blocks })?;
    Ok(split)
}

/// The same heads and blocks once more, of such rows as have the same totals or larger ones.
fn copy_split<S: StoredRow, T: StoredRow, L: Ledger>(
    alloc: Global,
    split: &Split<S>,
    steps: &mut Steps<L>,
) -> Result<Box<Split<T>>, NoMemory>
    requires kinds { S.limit ≤ T.limit }
    requires split { IsSplit S.limit split.now.heads.items split.now.blocks.items }
    ensures split { IfOk result (λ copy. IsSplit T.limit copy.value.heads.items copy.value.blocks.items) }
    ensures parts { IfOk result (λ copy. parts copy.value.blocks.items ≡ parts split.now.blocks.items) }
    ensures total { IfOk result (λ copy. last_total 0 copy.value.heads.items ≡ last_total 0 split.now.heads.items) }
{
    let blocks = copy_blocks(alloc, &split.blocks, steps)?;
    let heads = split.heads.copy(alloc)?;
    let copy = boxed(alloc, Split { heads, blocks })?;
    Ok(copy)
}

/// Heads and blocks in a box.
pub fn boxed<T: StoredRow>(alloc: Global, split: Split<T>) -> Result<Box<Split<T>>, NoMemory>
    ensures { IfOk result (λ boxed. boxed.value ≡ split) }
{
    match Box::new(alloc, split) {
        Ok(boxed) => Ok(boxed),
        Err(_) => Err(NoMemory),
    }
}
