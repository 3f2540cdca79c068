//! One record more in a bin and one less, as `add` and `take` count them.
ghost use Rattle.std.specs.Prelude.{◌≡◌, ◌+◌, ◌<◌, ◌^◌, IsTrue};
ghost use Rattle.std.specs.FinMap.{contains_key};
ghost use Rattle.probe_core.specs.Blanks.{IsBlankOf};
ghost use Rattle.time_table.specs.Counts.{total_count};

use crate::table_tests::empty;
use probe_core::Steps;
use std::alloc::Global;
use std::marker::Brand;
use std::process::Abort;
use std::sync::ledger::{Blank, Ledger};
use time_table::TimeTable;

/// One record more, where there has to be memory for it.
fn add_one(rt: &impl Abort, table: &mut TimeTable, bin: u32)
    requires { total_count table.old < 2 ^ 63 }
    ensures total { total_count table.new ≡ total_count table.old + 1 }
    ensures there { IsTrue (contains_key table.new bin) }
{
    table.add(bin).expect(rt, "room");
}

/// A table of a record in bin 3, one in bin 5 and one in a third bin.
fn table_of_three(rt: &impl Abort, alloc: Global, bin: u32) -> TimeTable
    ensures { IsTrue (contains_key result bin) }
{
    let mut table = empty(alloc);
    add_one(rt, &mut table, 3);
    add_one(rt, &mut table, 5);
    add_one(rt, &mut table, bin);
    table
}

/// How many records the table has before the bins 3, 4, 5 and 6.
fn counts_before<L: Ledger>(table: &TimeTable, steps: &mut Steps<L>) -> [u64; 4] {
    [
        table.before(3, steps),
        table.before(4, steps),
        table.before(5, steps),
        table.before(6, steps),
    ]
}

/// A record more in the bin is counted from there on, and one less leaves the table as it was.
fn expect_one_more_and_less<L: Ledger>(
    rt: &impl Abort,
    alloc: Global,
    blank: Blank,
    bin: u32,
    more: [u64; 4],
)
    requires { IsBlankOf L.name L.parts blank }
{
    let mut steps = Steps::<L>::new(blank);
    let mut table = table_of_three(rt, alloc, bin);
    assert!(rt; counts_before(&table, &mut steps) == more);
    table.take(bin);
    assert!(rt; counts_before(&table, &mut steps) == [0, 1, 1, 2]);
    assert_eq!(rt; table.len(), 2);
}

#[test]
fn counts_one_record_more_and_one_less(rt: HostRuntime) {
    let alloc = rt.alloc();
    expect_one_more_and_less::<Brand>(&rt, alloc, Blank::new(1), 3, [0, 2, 2, 3]);
    expect_one_more_and_less::<Brand>(&rt, alloc, Blank::new(1), 4, [0, 1, 2, 3]);
    expect_one_more_and_less::<Brand>(&rt, alloc, Blank::new(1), 5, [0, 1, 1, 3]);
}
