//! The heads of blocks, most of which are raised late.
ghost use Rattle.std.specs.Prelude.{◌≡◌, ◌+◌, ◌<◌, ◌≤◌, ◌^◌, ◌++◌, length, take, drop, map, insert, remove, slice_set, slice_index_or, All, IfOk, OnOk};
ghost use Rattle.probe_core.specs.Bits.{bits};
ghost use Rattle.probe_core.specs.Places.{IsPlace};
ghost use Rattle.time_table.specs.Totals.{Rise, last_total, row_bin, raised, lowered};
ghost use Rattle.time_table.specs.Late.{IsLate, raised_from};

use crate::change::lower;
use crate::pair::put_row;
use crate::place::total_of;
use crate::row::Row;
use crate::row_list::RowList;
use probe_core::Steps;
use std::alloc::Global;
use std::marker::Model;
use std::sync::ledger::Ledger;
use texts::NoMemory;

/// The heads of blocks. Those from a place on may stand too low, all by one amount, which contracts and readers see in
/// their totals: so amounts that come in rising order of bin are counted in one pass over the heads.
#[derive(Drop)]
pub struct Heads {
    rows: RowList<Row>,
    from: usize,
    late: u64,
}

impl Model for Heads {
    ghost use Rattle.probe_core.specs.Roomy.{Roomy};
    ghost use Rattle.time_table.specs.declared.row.Row.{Row as Seen};
    ghost use Rattle.time_table.specs.Late.{IsLate, raised_from};

    ghost Value = { Roomy Seen };

    ghost view = { λ heads. record { items = raised_from heads.from heads.late heads.rows.items; spare = heads.rows.spare } };

    ghost invariant = { λ heads. IsLate heads.from heads.late heads.rows.items };
}

/// Where the heads of a bin and of later bins begin, and the total before them.
#[derive(Clone, Copy)]
pub struct HeadPlace {
    pub index: usize,
    pub below: u64,
}

impl Heads {
    /// Heads of which none stands too low.
    pub fn of(rows: RowList<Row>) -> Heads
        ensures { result ≡ rows }
    {
        let from = rows.len();
        Heads {
            rows,
            from,
            late: 0,
        }
    }

    /// How many heads there are.
    pub fn len(&self) -> usize
        ensures { result ≡ length self.now.items }
    {
        self.rows.len()
    }

    /// The head at a place, in one step.
    pub fn at<L: Ledger>(&self, i: usize, steps: &mut Steps<L>) -> Row
        requires { i < length self.now.items }
        ensures item { result ≡ slice_index_or self.now.items i result }
        ensures one_step { steps.new ≡ steps.old + 1 }
    {
        let row = self.rows.at(i, steps);
        if i < self.from {
            return row;
        }
        Row {
            bin: row.bin,
            total: row.total + self.late,
        }
    }

    /// The place of the first head whose bin is `bin_end` or later, by one binary search.
    pub fn place_of<L: Ledger>(&self, bin_end: u64, steps: &mut Steps<L>) -> HeadPlace
        requires { Rise 0 0 self.now.items }
        ensures place { IsPlace row_bin bin_end self.now.items result.index }
        ensures total { result.below ≡ last_total 0 (take result.index self.now.items) }
        ensures cost { steps.new ≤ steps.old + bits (length self.now.items) }
    {
        let place = self.rows.first_from(bin_end, steps);
        let index = place.index;
        let below = total_of(place.before);
        if index <= self.from {
            return HeadPlace { index, below };
        }
        HeadPlace {
            index,
            below: below + self.late,
        }
    }

    /// The total of the last head.
    pub fn total<L: Ledger>(&self, steps: &mut Steps<L>) -> u64
        requires { 0 < length self.now.items }
        ensures { result ≡ last_total 0 self.now.items }
    {
        self.at(self.len() - 1, steps).total
    }

    /// Puts a head in where there is room for it.
    pub fn put_row<L: Ledger>(&mut self, i: usize, row: Row, steps: &mut Steps<L>)
        requires within { i ≤ length self.old.items }
        requires room { 0 < self.old.spare }
        ensures put { self.new.items ≡ insert self.old.items i row }
        ensures room { self.old.spare ≤ self.new.spare + 1 }
    {
        let to = self.from.max(i);
        catch_up(&mut self.rows, self.from, to, self.late, steps);
        let low = self.rows.len() - to;
        put_row(&mut self.rows, i, row);
        self.from = self.rows.len() - low;
    }

    /// Writes a head over the one at a place.
    pub fn set<L: Ledger>(&mut self, i: usize, row: Row, steps: &mut Steps<L>)
        requires { i < length self.old.items }
        ensures written { self.new.items ≡ slice_set self.old.items i row }
        ensures room_stays { self.new.spare ≡ self.old.spare }
    {
        if i < self.from {
            self.rows.set(i, row);
            return;
        }
        let end = self.rows.len();
        catch_up(&mut self.rows, self.from, end, self.late, steps);
        self.rows.set(i, row);
        self.from = end;
    }

    /// Takes the head at a place off.
    pub fn remove<L: Ledger>(&mut self, i: usize, steps: &mut Steps<L>)
        requires { i < length self.old.items }
        ensures removed { self.new.items ≡ remove self.old.items i }
        ensures gives_one_back { self.new.spare ≡ self.old.spare + 1 }
    {
        let end = self.rows.len();
        catch_up(&mut self.rows, self.from, end, self.late, steps);
        self.rows.remove(i);
        self.from = end - 1;
    }

    /// An amount more in each total from a place on. No head from there on is read, unless an earlier amount began
    /// later.
    pub fn raise<L: Ledger>(&mut self, place: usize, amount: u64, steps: &mut Steps<L>)
        requires within { place < length self.old.items }
        requires fits { All (λ row. row.total + amount < 2 ^ 64) self.old.items }
        ensures raised { self.new.items ≡ take place self.old.items ++ map (raised amount) (drop place self.old.items) }
        ensures room { self.new.spare ≡ self.old.spare }
    {
        if place < self.from {
            let end = self.rows.len();
            catch_up(&mut self.rows, self.from, end, self.late, steps);
            self.from = place;
            self.late = amount;
            return;
        }
        catch_up(&mut self.rows, self.from, place, self.late, steps);
        self.from = place;
        self.late += amount;
    }

    /// An amount less in each total from a place on.
    pub fn lower<L: Ledger>(&mut self, place: usize, amount: u64, steps: &mut Steps<L>)
        requires within { place ≤ length self.old.items }
        requires some { All (λ row. amount ≤ row.total) (drop place self.old.items) }
        ensures lowered { self.new.items ≡ take place self.old.items ++ map (lowered amount) (drop place self.old.items) }
    {
        let end = self.rows.len();
        catch_up(&mut self.rows, self.from, end, self.late, steps);
        self.from = end;
        lower(&mut self.rows, place, amount, steps);
    }

    /// Makes room for n further heads.
    pub fn reserve(&mut self, n: usize) -> Result<(), NoMemory>
        ensures unchanged { self.new.items ≡ self.old.items }
        ensures room { OnOk result (n ≤ self.new.spare) }
    {
        self.rows.reserve(n)
    }

    /// The same heads once more.
    pub fn copy(&self, alloc: Global) -> Result<Heads, NoMemory>
        ensures { IfOk result (λ heads. heads.items ≡ self.now.items) }
    {
        let rows = self.rows.copy(alloc)?;
        Ok(Heads {
            rows,
            from: self.from,
            late: self.late,
        })
    }
}

/// Raises the heads up to a place, of which those from another on stand too low.
fn catch_up<L: Ledger>(
    rows: &mut RowList<Row>,
    from: usize,
    to: usize,
    late: u64,
    steps: &mut Steps<L>,
)
    requires late { IsLate from late rows.old.items }
    requires forward { from ≤ to }
    requires within { to ≤ length rows.old.items }
    ensures same { raised_from to late rows.new.items ≡ raised_from from late rows.old.items }
    ensures late { IsLate to late rows.new.items }
    ensures room { rows.new.spare ≡ rows.old.spare }
{
    for i in from..to {
        let Row { bin, total } = rows.at(i, steps);
        let raised = Row {
            bin,
            total: total + late,
        };
        rows.set(i, raised);
    }
}
