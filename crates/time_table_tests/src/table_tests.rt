//! Tables that grow, are split and shrink, each test a list of cases.
ghost use Rattle.std.specs.Prelude.{◌≡◌, ◌+◌, ◌<◌, ◌≤◌, ◌^◌};
ghost use Rattle.probe_core.specs.Blanks.{IsBlankOf};
ghost use Rattle.time_table.specs.Counts.{total_count};

use probe_core::Steps;
use std::alloc::{AllocError, Global};
use std::marker::Brand;
use std::process::Abort;
use std::sync::ledger::{Blank, Ledger};
use std::test::Fail;
use time_table::TimeTable;

/// What is done to a table, or what it has to tell.
#[derive(Clone, Copy)]
enum Case {
    /// An amount more in a bin.
    Add(u32, u64),
    /// Two amounts more, as a run.
    Pair((u32, u64), (u32, u64)),
    /// An amount less in a bin.
    Take(u32, u64),
    /// How much there is before an end.
    Before(u64, u64),
    /// The first row from a bin on.
    Next(u32, Option<(u32, u64)>),
}

/// A table without records.
pub(crate) fn empty(alloc: Global) -> TimeTable
    ensures { total_count result ≡ 0 }
{
    TimeTable::new(alloc)
}

/// An amount more, where there has to be memory for it.
fn add(rt: &impl Abort, table: &mut TimeTable, bin: u32, amount: u64)
    requires some { 0 < amount }
    requires fits { total_count table.old + amount ≤ 2 ^ 63 }
    ensures { total_count table.new ≡ total_count table.old + amount }
{
    table.add_many(bin, amount).expect(rt, "room");
}

/// Two amounts more as a run, where there has to be memory for them.
fn add_pair(rt: &impl Abort, table: &mut TimeTable, first: (u32, u64), second: (u32, u64))
    requires some { (0 < first.1) × (0 < second.1) }
    requires rise { first.0 < second.0 }
    requires fits { total_count table.old + (first.1 + second.1) ≤ 2 ^ 63 }
    ensures { total_count table.new ≡ total_count table.old + (first.1 + second.1) }
{
    let run = [first, second];
    table.add_run(&run).expect(rt, "room");
}

/// Takes an amount from a bin, which has to have as much.
fn take<L: Ledger>(
    rt: &impl Abort,
    table: &mut TimeTable,
    bin: u32,
    amount: u64,
    steps: &mut Steps<L>,
)
    requires { 0 < amount }
    ensures { total_count table.new ≤ total_count table.old }
{
    match table.next_row(bin, steps) {
        Some((found, count)) if found == bin && amount <= count => table.take_many(bin, amount),
        _ => panic!(rt; "nothing in {bin}"),
    }
}

/// One case. `room` is how much may still be added.
fn expect_case<L: Ledger>(
    rt: &impl Abort,
    table: &mut TimeTable,
    room: u64,
    case: Case,
    steps: &mut Steps<L>,
) -> u64
    requires { total_count table.old + room ≤ 2 ^ 63 }
    ensures { total_count table.new + result ≤ 2 ^ 63 }
{
    match case {
        Case::Add(bin, amount) => {
            assert!(rt; 0 < amount && amount <= room);
            add(rt, table, bin, amount);
            return room - amount;
        }
        Case::Pair(first, second) => {
            let (bin, amount) = first;
            let (later, more) = second;
            assert!(rt; bin < later && 0 < amount && 0 < more);
            assert!(rt; amount <= room && more <= room - amount);
            add_pair(rt, table, first, second);
            return room - amount - more;
        }
        Case::Take(bin, amount) => {
            assert!(rt; 0 < amount);
            take(rt, table, bin, amount, steps);
        }
        Case::Before(end, want) => {
            assert_eq!(rt; table.before(end, steps), want, "before {end}");
        }
        Case::Next(from, want) => {
            assert!(rt; table.next_row(from, steps) == want, "from {from}");
        }
    }
    room
}

/// The cases in order.
fn expect<L: Ledger>(
    rt: &impl Abort,
    blank: Blank,
    table: &mut TimeTable,
    room: u64,
    cases: &[Case],
)
    requires blank { IsBlankOf L.name L.parts blank }
    requires fits { total_count table.old + room ≤ 2 ^ 63 }
    ensures { total_count table.new ≤ 2 ^ 63 }
{
    let mut steps = Steps::<L>::new(blank);
    let mut room = room;
    for &case in cases {
        room = expect_case(rt, table, room, case, &mut steps);
    }
}

#[test]
fn counts_before_each_end(rt: HostRuntime) {
    let cases = [
        Case::Add(5, 1),
        Case::Add(3, 1),
        Case::Add(5, 1),
        Case::Add(9, 1),
        Case::Before(3, 0),
        Case::Before(5, 1),
        Case::Before(6, 3),
        Case::Before(1 << 32, 4),
        Case::Take(3, 1),
        Case::Before(5, 0),
        Case::Before(6, 2),
        Case::Before(10, 3),
    ];
    let mut table = empty(rt.alloc());
    expect::<Brand>(&rt, Blank::new(1), &mut table, 4, &cases);
}

#[test]
fn counts_large_amounts_in_the_first_and_the_last_bin(rt: HostRuntime) {
    let large = 1 << 62;
    let cases = [
        Case::Add(u32::MAX, large),
        Case::Add(0, large - 1),
        Case::Before(0, 0),
        Case::Before(1, large - 1),
        Case::Before((1 << 32) - 1, large - 1),
        Case::Before(1 << 32, 2 * large - 1),
        Case::Take(0, large - 1),
        Case::Take(u32::MAX, 1),
        Case::Before((1 << 32) - 1, 0),
        Case::Before(1 << 32, large - 1),
    ];
    let mut table = empty(rt.alloc());
    expect::<Brand>(&rt, Blank::new(1), &mut table, 1 << 63, &cases);
}

/// A record in each bin below 1,000, added in falling order.
fn push_added(cases: &mut Vec<Case>) -> Result<(), AllocError> {
    for i in 0..1000u32 {
        cases.push(Case::Add(999 - i, 1))?;
    }
    Ok(())
}

/// What such a table tells of each bin.
fn push_told(cases: &mut Vec<Case>) -> Result<(), AllocError> {
    for bin in 0..1000u32 {
        cases.push(Case::Before(u64::from(bin), u64::from(bin)))?;
        cases.push(Case::Next(bin, Some((bin, 1))))?;
    }
    cases.push(Case::Before(1000, 1000))?;
    cases.push(Case::Next(1000, None))?;
    Ok(())
}

/// Takes the record of every other bin, from one on.
fn push_taken(cases: &mut Vec<Case>, from: u32) -> Result<(), AllocError>
    requires { from < 2 }
{
    for i in 0..499u32 {
        cases.push(Case::Take(2 * i + from, 1))?;
    }
    Ok(())
}

/// A table of 1,000 rows that shrinks to one row.
fn shrinking(alloc: Global) -> Result<Vec<Case>, AllocError> {
    let mut cases = Vec::new(alloc);
    push_taken(&mut cases, 0)?;
    cases.push(Case::Take(998, 1))?;
    for (end, want) in [(1, 0), (2, 1), (500, 250), (1000, 500)] {
        cases.push(Case::Before(end, want))?;
    }
    push_taken(&mut cases, 1)?;
    cases.push(Case::Before(999, 0))?;
    cases.push(Case::Before(1000, 1))?;
    cases.push(Case::Next(0, Some((999, 1))))?;
    Ok(cases)
}

#[test]
fn splits_into_blocks_and_back(rt: HostRuntime) -> Result<(), Fail> {
    let mut table = empty(rt.alloc());
    let mut cases = Vec::new(rt.alloc());
    push_added(&mut cases)?;
    push_told(&mut cases)?;
    expect::<Brand>(&rt, Blank::new(1), &mut table, 1000, cases.as_slice());
    let mut copy = table.copy(rt.alloc())?;
    let shrinking = shrinking(rt.alloc())?;
    expect::<Brand>(&rt, Blank::new(1), &mut table, 0, shrinking.as_slice());
    let mut told = Vec::new(rt.alloc());
    push_told(&mut told)?;
    expect::<Brand>(&rt, Blank::new(1), &mut copy, 0, told.as_slice());
    Ok(())
}

/// A record in every other bin below 1,000, from one on, added in rising order.
fn push_risen(cases: &mut Vec<Case>, from: u32) -> Result<(), AllocError>
    requires { from < 2 }
{
    for i in 0..500u32 {
        cases.push(Case::Add(2 * i + from, 1))?;
    }
    Ok(())
}

/// In rising bins the last block is full again and again, and then each of the others is.
#[test]
fn gives_rows_of_full_blocks_to_the_ones_before(rt: HostRuntime) -> Result<(), Fail> {
    let mut table = empty(rt.alloc());
    let mut cases = Vec::new(rt.alloc());
    push_risen(&mut cases, 0)?;
    push_risen(&mut cases, 1)?;
    push_told(&mut cases)?;
    expect::<Brand>(&rt, Blank::new(1), &mut table, 1000, cases.as_slice());
    let shrinking = shrinking(rt.alloc())?;
    expect::<Brand>(&rt, Blank::new(1), &mut table, 0, shrinking.as_slice());
    Ok(())
}

/// What a walk from row to row finds where the bins have those counts, and how much is before each bin.
fn push_rows(cases: &mut Vec<Case>, counts: &[u64; 300]) -> Result<(), AllocError> {
    let mut from = 0u32;
    let mut bin = 0u32;
    let mut below = 0u64;
    for &count in counts {
        cases.push(Case::Before(u64::from(bin), below))?;
        if count > 0 {
            cases.push(Case::Next(from, Some((bin, count))))?;
            from = bin.wrapping_add(1);
        }
        below = below.wrapping_add(count);
        bin = bin.wrapping_add(1);
    }
    cases.push(Case::Next(from, None))?;
    Ok(())
}

/// Pairs of bins, the lesser ones from below and the greater ones from above, until there are 120 rows.
fn push_pairs(cases: &mut Vec<Case>) -> Result<(), AllocError> {
    for i in 0..60u32 {
        cases.push(Case::Pair((i, 1), (200 - i, 2)))?;
    }
    for bin in 0..60u32 {
        cases.push(Case::Before(u64::from(bin), u64::from(bin)))?;
        cases.push(Case::Next(bin, Some((bin, 1))))?;
        cases.push(Case::Next(200 - bin, Some((200 - bin, 2))))?;
    }
    cases.push(Case::Before(141, 60))?;
    cases.push(Case::Before(201, 180))?;
    Ok(())
}

#[test]
fn merges_runs_with_rows_before_between_at_and_behind_them(rt: HostRuntime) {
    let cases = [
        Case::Pair((5, 2), (9, 1)),
        Case::Before(6, 2),
        Case::Before(10, 3),
        Case::Pair((1, 1), (7, 4)),
        Case::Before(1, 0),
        Case::Before(2, 1),
        Case::Before(6, 3),
        Case::Before(8, 7),
        Case::Before(10, 8),
        Case::Pair((7, 1), (9, 2)),
        Case::Before(8, 8),
        Case::Before(10, 11),
        Case::Pair((12, 1), (u32::MAX, 1)),
        Case::Next(10, Some((12, 1))),
        Case::Next(13, Some((u32::MAX, 1))),
        Case::Before(1 << 32, 13),
    ];
    let mut table = empty(rt.alloc());
    expect::<Brand>(&rt, Blank::new(1), &mut table, 13, &cases);
}

#[test]
fn takes_runs_into_blocks(rt: HostRuntime) -> Result<(), Fail> {
    let mut cases = Vec::new(rt.alloc());
    push_pairs(&mut cases)?;
    let mut table = empty(rt.alloc());
    expect::<Brand>(&rt, Blank::new(1), &mut table, 180, cases.as_slice());
    Ok(())
}

/// A list whose total is the largest of 32 bits, then one more, and then as little as before.
#[test]
fn counts_totals_that_pass_32_bits_and_back(rt: HostRuntime) {
    let large = 1 << 32;
    let cases = [
        Case::Add(1, 1),
        Case::Add(2, 1),
        Case::Add(3, 1),
        Case::Add(4, large - 4),
        Case::Before(2, 1),
        Case::Before(5, large - 1),
        Case::Add(9, 1),
        Case::Before(1, 0),
        Case::Before(2, 1),
        Case::Before(5, large - 1),
        Case::Before(10, large),
        Case::Next(0, Some((1, 1))),
        Case::Next(4, Some((4, large - 4))),
        Case::Take(4, large - 4),
        Case::Before(10, 4),
        Case::Next(4, Some((9, 1))),
        Case::Add(1, large),
        Case::Next(0, Some((1, large + 1))),
        Case::Before(10, large + 4),
    ];
    let mut table = empty(rt.alloc());
    expect::<Brand>(&rt, Blank::new(1), &mut table, 1 << 63, &cases);
}

/// Runs whose totals are the largest of 32 bits and one more.
#[test]
fn counts_runs_that_pass_32_bits(rt: HostRuntime) {
    let half = 1 << 31;
    let cases = [
        Case::Add(1, 1),
        Case::Add(8, 1),
        Case::Pair((5, half), (9, half - 3)),
        Case::Before(10, 2 * half - 1),
        Case::Pair((2, 1), (7, 1)),
        Case::Next(0, Some((1, 1))),
        Case::Before(5, 2),
        Case::Before(8, half + 3),
        Case::Before(10, 2 * half + 1),
        Case::Pair((0, 1), (9, half)),
        Case::Next(0, Some((0, 1))),
        Case::Before(10, 3 * half + 2),
    ];
    let mut table = empty(rt.alloc());
    expect::<Brand>(&rt, Blank::new(1), &mut table, 1 << 63, &cases);
}

/// Blocks with an amount of 2^32 in one of their bins, which is taken again.
fn push_large(cases: &mut Vec<Case>) -> Result<(), AllocError> {
    let large = 1 << 32;
    cases.push(Case::Add(500, large))?;
    for bin in 0..1000u32 {
        let count = if bin == 500 { large + 1 } else { 1 };
        let before = if bin > 500 { large } else { 0 };
        cases.push(Case::Before(u64::from(bin), u64::from(bin) + before))?;
        cases.push(Case::Next(bin, Some((bin, count))))?;
    }
    cases.push(Case::Take(500, large))?;
    Ok(())
}

#[test]
fn counts_blocks_that_pass_32_bits_and_back(rt: HostRuntime) -> Result<(), Fail> {
    let mut table = empty(rt.alloc());
    let mut cases = Vec::new(rt.alloc());
    push_added(&mut cases)?;
    push_large(&mut cases)?;
    push_told(&mut cases)?;
    expect::<Brand>(&rt, Blank::new(1), &mut table, 1 << 63, cases.as_slice());
    let shrinking = shrinking(rt.alloc())?;
    expect::<Brand>(&rt, Blank::new(1), &mut table, 0, shrinking.as_slice());
    Ok(())
}

/// The next of a series of numbers that look drawn by chance.
fn next_number(number: u64) -> u64 {
    number
        .wrapping_mul(6364136223846793005)
        .wrapping_add(1442695040888963407)
}

/// One change of the plain counts, more or less as the number says, and the case of it.
fn change(counts: &mut [u64; 300], number: u64) -> Case {
    let bin = (number >> 33) % 300;
    let amount = (number >> 60) % 16;
    let place = bin as usize;
    let had = counts[place];
    if amount % 2 == 0 || had == 0 {
        counts[place] = had.wrapping_add(amount + 1);
        return Case::Add(bin as u32, amount + 1);
    }
    let taken = if amount < had { amount } else { had };
    counts[place] = had - taken;
    Case::Take(bin as u32, taken)
}

/// 20,000 changes, and after each 2,000 of them what the plain counts say.
fn random_cases(alloc: Global) -> Result<Vec<Case>, AllocError> {
    let mut cases = Vec::new(alloc);
    let mut counts = [0u64; 300];
    let mut number = 1u64;
    for i in 0..20_000u32 {
        number = next_number(number);
        cases.push(change(&mut counts, number))?;
        if i % 2_000 == 1_999 {
            push_rows(&mut cases, &counts)?;
        }
    }
    Ok(cases)
}

#[test]
fn agrees_with_plain_counts_after_random_changes(rt: HostRuntime) -> Result<(), Fail> {
    let cases = random_cases(rt.alloc())?;
    let mut table = empty(rt.alloc());
    expect::<Brand>(&rt, Blank::new(1), &mut table, 1 << 63, cases.as_slice());
    Ok(())
}

/// Whether a table counts what plain counts of its bins count.
fn agrees<L: Ledger>(table: &TimeTable, counts: &[u64; 300], steps: &mut Steps<L>) -> bool {
    let mut bin = 0u32;
    for &count in counts {
        let row = table.next_row(bin, steps);
        let found = match row {
            Some((found, count)) if found == bin => count,
            _ => 0,
        };
        if found != count {
            return false;
        }
        bin = bin.wrapping_add(1);
    }
    table.next_row(bin, steps).is_none()
}

/// An amount more in a bin. Where that is refused, the table is as before, and the next try isn't refused.
fn add_again<L: Ledger>(
    rt: &impl Abort,
    table: &mut TimeTable,
    counts: &[u64; 300],
    bin: u32,
    amount: u64,
    steps: &mut Steps<L>,
)
    requires some { 0 < amount }
    requires fits { total_count table.old + amount ≤ 2 ^ 63 }
    ensures { total_count table.new ≡ total_count table.old + amount }
{
    match table.add_many(bin, amount) {
        Ok(()) => {}
        Err(_) => {
            assert!(rt; agrees(table, counts, steps), "{bin} was refused");
            add(rt, table, bin, amount);
        }
    }
}

/// 1,000 records in 300 bins, one after another, with 2^32 records in place of one of them.
fn add_thousand<L: Ledger>(rt: &impl Abort, blank: Blank, table: &mut TimeTable, large: u32)
    requires blank { IsBlankOf L.name L.parts blank }
    requires none { total_count table.old ≡ 0 }
{
    let mut steps = Steps::<L>::new(blank);
    let mut counts = [0u64; 300];
    let mut number = 1u64;
    for i in 0..1_000u32 {
        number = next_number(number);
        let bin = (number >> 33) % 300;
        let amount = if i == large { 1 << 32 } else { 1 };
        add_again(rt, table, &counts, bin as u32, amount, &mut steps);
        counts[bin as usize] = counts[bin as usize].wrapping_add(amount);
    }
    assert!(rt; agrees(table, &counts, &mut steps));
}

/// With memory for all this shows little. CONTRIBUTING.md says how each allocation is made to fail.
#[test]
fn keeps_its_counts_where_an_addition_is_refused(rt: HostRuntime) {
    let mut table = empty(rt.alloc());
    add_thousand::<Brand>(&rt, Blank::new(1), &mut table, 700);
}

/// The same where a list of some twenty rows gets the large amount.
#[test]
fn keeps_its_counts_where_a_large_amount_is_refused(rt: HostRuntime) {
    let mut table = empty(rt.alloc());
    add_thousand::<Brand>(&rt, Blank::new(1), &mut table, 20);
}

/// A record in each of 300 bins, the even ones first, in rising order, so that full blocks give rows to the ones
/// before.
fn add_risen<L: Ledger>(rt: &impl Abort, blank: Blank, table: &mut TimeTable)
    requires blank { IsBlankOf L.name L.parts blank }
    requires none { total_count table.old ≡ 0 }
{
    let mut steps = Steps::<L>::new(blank);
    let mut counts = [0u64; 300];
    for i in 0..300u32 {
        let bin = if i < 150 { 2 * i } else { 2 * i - 299 };
        add_again(rt, table, &counts, bin, 1, &mut steps);
        counts[bin as usize] = 1;
    }
    assert!(rt; agrees(table, &counts, &mut steps));
}

/// As the test before it, where blocks give rows.
#[test]
fn keeps_its_counts_where_rows_are_given(rt: HostRuntime) {
    let mut table = empty(rt.alloc());
    add_risen::<Brand>(&rt, Blank::new(1), &mut table);
}
