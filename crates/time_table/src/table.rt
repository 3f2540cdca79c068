//! The table of one place in space and the categories.
ghost use Rattle.std.specs.Prelude.{◌≡◌, ◌↔◌, ◌+◌, ◌*◌, ◌<◌, ◌≤◌, ◌^◌, ◌++◌, All, IfOk, OnOk, OnErr, IsTrue, length};
ghost use Rattle.std.specs.FinMap.{empty, contains_key, entries, from_sorted, len};
ghost use Rattle.probe_core.specs.Bits.{bits};
ghost use Rattle.probe_core.specs.Blanks.{IsBlankOf};
ghost use Rattle.time_table.specs.Counts.{AllCounted, IsBinRun, CanTakeRun, count_of, add_many, take_many, add_one, take_one, add_run, take_run, run_total, total_count, count_before, first_from};
ghost use Rattle.time_table.specs.Rows.{AreRows, row_total};
ghost use Rattle.time_table.specs.Series.{each_before, each_cost};

use crate::few::Few;
use crate::form::Form;
use crate::rows::{form_len, form_of, is_bare, put_form};
use probe_core::Steps;
use std::alloc::Global;
use std::marker::{Brand, Model};
use std::sync::ledger::{Blank, Ledger};
use texts::NoMemory;

/// How many records fell into each bin of time. A bin without records is not there.
#[derive(Drop)]
pub struct TimeTable {
    alloc: Global,
    form: Form,
}

impl Model for TimeTable {
    ghost use Rattle.std.specs.Prelude.{ℕ};
    ghost use Rattle.std.specs.Ordering.{nat_cmp};
    ghost use Rattle.std.specs.FinMap as map;
    ghost use Rattle.std.specs.Coded.{coded_ℕ};
    ghost use Rattle.time_table.specs.Totals.{counts};
    ghost use Rattle.time_table.specs.Forms.{IsForm, rows_of};

    ghost Value = { map.FinMap nat_cmp ℕ };

    ghost coded = { map.code coded_ℕ coded_ℕ };

    ghost view = { λ table. counts (rows_of table.form) };

    ghost invariant = { λ table. IsForm table.form };
}

impl TimeTable {
    /// No records.
    pub fn new(alloc: Global) -> TimeTable
        ensures { result ≡ empty }
    {
        TimeTable {
            alloc,
            form: Form::Few(Few::No),
        }
    }

    /// Some records more in a bin. For want of memory the table is as before.
    pub fn add_many(&mut self, bin: u32, amount: u64) -> Result<(), NoMemory>
        requires some { 0 < amount }
        requires fits { total_count self.old + amount ≤ 2 ^ 63 }
        ensures added { OnOk result (self.new ≡ add_many self.old bin amount) }
        ensures unchanged { OnErr result (self.new ≡ self.old) }
        ensures was_counted { AllCounted self.old }
        ensures counted { AllCounted self.new }
    {
        self.form
            .add::<Brand>(self.alloc, bin, amount, Blank::new(1))
    }

    /// Some records less in a bin that has as many. It takes no memory.
    pub fn take_many(&mut self, bin: u32, amount: u64)
        requires some { 0 < amount }
        requires there { amount ≤ count_of self.old bin }
        ensures taken { self.new ≡ take_many self.old bin amount }
        ensures counted { AllCounted self.new }
    {
        self.form.take::<Brand>(bin, amount, Blank::new(1));
    }

    /// One record more in a bin. For want of memory the table is as before.
    pub fn add(&mut self, bin: u32) -> Result<(), NoMemory>
        requires { total_count self.old < 2 ^ 63 }
        ensures added { OnOk result (self.new ≡ add_one self.old bin) }
        ensures unchanged { OnErr result (self.new ≡ self.old) }
        ensures was_counted { AllCounted self.old }
        ensures counted { AllCounted self.new }
    {
        self.add_many(bin, 1)
    }

    /// One record less in a bin that has one. It takes no memory.
    pub fn take(&mut self, bin: u32)
        requires { IsTrue (contains_key self.old bin) }
        ensures taken { self.new ≡ take_one self.old bin }
        ensures counted { AllCounted self.new }
    {
        // A bin that is there has a record: contracts learn it where a field is used.
        let _ = &self.form;
        self.take_many(bin, 1);
    }

    /// Amounts more, each in its bin. Where the rows and the amounts are few, one pass merges them. For want of memory
    /// the table is as before.
    pub fn add_run(&mut self, run: &[(u32, u64)]) -> Result<(), NoMemory>
        requires run { IsBinRun run.now }
        requires fits { total_count self.old + run_total run.now ≤ 2 ^ 63 }
        ensures added { OnOk result (self.new ≡ add_run self.old run.now) }
        ensures unchanged { OnErr result (self.new ≡ self.old) }
        ensures was_counted { AllCounted self.old }
        ensures counted { AllCounted self.new }
    {
        if self.form.is_mergeable::<Brand>(run, Blank::new(1)) {
            return self.form.merge::<Brand>(self.alloc, run, Blank::new(1));
        }
        self.add_each(run)
    }

    /// The same, by one amount after the other.
    fn add_each(&mut self, run: &[(u32, u64)]) -> Result<(), NoMemory>
        requires some { All (λ a. 0 < a.1) run.now }
        requires fits { total_count self.old + run_total run.now ≤ 2 ^ 63 }
        requires was_counted { AllCounted self.old }
        ensures added { OnOk result (self.new ≡ add_run self.old run.now) }
        ensures unchanged { OnErr result (self.new ≡ self.old) }
    {
        for i in 0..run.len() {
            let (bin, amount) = run[i];
            match self.add_many(bin, amount) {
                Ok(()) => {}
                Err(refused) => {
                    self.take_run(&run[..i]);
                    return Err(refused);
                }
            }
        }
        Ok(())
    }

    /// Amounts less, each in its bin, the last one first. It takes no memory.
    fn take_run(&mut self, run: &[(u32, u64)])
        requires some { All (λ a. 0 < a.1) run.now }
        requires there { CanTakeRun self.old run.now }
        ensures { self.new ≡ take_run self.old run.now }
    {
        let mut left = run.len();
        while left > 0 {
            left -= 1;
            let (bin, amount) = run[left];
            self.take_many(bin, amount);
        }
    }

    /// How many records fell into bins less than `bin_end`, by a search of the heads and one of a block.
    pub fn before<L: Ledger>(&self, bin_end: u64, steps: &mut Steps<L>) -> u64
        ensures sum { result ≡ count_before self.now bin_end }
        ensures cost { steps.new ≤ steps.old + (1 + bits (len self.now)) }
        ensures counted { AllCounted self.now }
    {
        self.form.before(bin_end, steps)
    }

    /// How many records fell into bins less than each of the ends `from`, `from + wide` and so on, by a search for each
    /// or by one pass over the bins.
    pub fn before_each<L: Ledger>(
        &self,
        from: u64,
        wide: u64,
        totals: &mut [u64],
        steps: &mut Steps<L>,
    )
        requires small { from + wide * length totals.old < 2 ^ 64 }
        ensures sums { totals.new ≡ each_before self.now from wide (length totals.old) }
        ensures cost { steps.new ≤ steps.old + each_cost (length totals.old) (len self.now) }
        ensures counted { AllCounted self.now }
    {
        self.form.before_each(from, wide, totals, steps);
    }

    /// The least bin at or above `from` with its count. None comes exactly where there is no such bin.
    pub fn next_row<L: Ledger>(&self, from: u32, steps: &mut Steps<L>) -> Option<(u32, u64)>
        ensures next { result ≡ first_from from (entries self.now) }
        ensures cost { steps.new ≤ steps.old + (1 + bits (len self.now)) }
    {
        self.form.next_row(from, steps)
    }

    /// The same counts once more.
    pub fn copy(&self, alloc: Global) -> Result<TimeTable, NoMemory>
        ensures { IfOk result (λ table. table ≡ self.now) }
    {
        let form = self.form.copy::<Brand>(alloc, Blank::new(1))?;
        Ok(TimeTable { alloc, form })
    }

    /// A table of bins with their counts, which stand in rising order of bin. Rows are put behind each other, and none
    /// is searched for.
    pub fn of_rows(alloc: Global, rows: &[(u32, u64)]) -> Result<TimeTable, NoMemory>
        requires fit { AreRows 0 rows.now }
        requires light { row_total rows.now ≤ 2 ^ 63 }
        ensures { IfOk result (λ table. table ≡ from_sorted rows.now) }
    {
        let form = form_of(alloc, rows)?;
        Ok(TimeTable { alloc, form })
    }

    /// Puts all bins with their counts at the end of others, in rising order of bin. It looks at each row at most once.
    pub fn put_rows<L: Ledger>(
        &self,
        out: &mut Vec<(u32, u64)>,
        steps: &mut Steps<L>,
    ) -> Result<(), NoMemory>
        ensures put { OnOk result (out.new.items ≡ out.old.items ++ entries self.now) }
        ensures cost { steps.new ≤ steps.old + len self.now }
        ensures counted { AllCounted self.now }
    {
        put_form(&self.form, out, steps)
    }

    /// How many bins there are.
    pub fn len(&self) -> u64
        ensures count { result ≡ len self.now }
        ensures few { result ≤ 2 ^ 32 }
    {
        form_len(&self.form)
    }

    /// Whether there are none.
    pub fn is_empty(&self) -> bool
        ensures empty { IsTrue result ↔ (self.now ≡ empty) }
        ensures counted { AllCounted self.now }
    {
        is_bare(&self.form)
    }
}
