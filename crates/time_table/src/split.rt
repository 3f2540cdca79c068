//! Rows in blocks, under a list of heads.
ghost use Rattle.std.specs.Prelude.{◌≡◌, ◌+◌, ◌-◌, ◌<◌, ◌≤◌, ◌⊎◌, [], ◌∷◌, ◌++◌, length, take, drop, insert, remove, All, IfOk, OnOk, OnErr, vec_len, vec_capacity, slice_index_or, IsTrue, MatchBool};
ghost use Rattle.probe_core.specs.Bits.{bits};
ghost use Rattle.probe_core.specs.Places.{IsPlace};
ghost use Rattle.time_table.specs.Counts.{count_before, first_from};
ghost use Rattle.time_table.specs.Totals.{IsTotal, counts, last_total, row_bin};
ghost use Rattle.time_table.specs.Places.{count_at, more, less};
ghost use Rattle.time_table.specs.Blocks.{Block, IsSplit, IsHeld, Held, AreLastBut, AllSized, SizedBut, FitsAt, AddsAt, in_hand, flat, parts, lists};

use crate::block::block_of;
use crate::change::{add_record, take_record};
use crate::heads::Heads;
use crate::pair::{fill, level};
use crate::place::{next_in, place_of};
use crate::row::Row;
use crate::row_list::RowList;
use crate::stored::StoredRow;
use probe_core::Steps;
use std::alloc::Global;
use std::mem::replace;
use std::sync::ledger::Ledger;
use texts::NoMemory;

/// How many records fell into bins less than `bin_end`, by a search of the heads and one of a block.
pub fn before_in<T: StoredRow, L: Ledger>(
    heads: &Heads,
    blocks: &Vec<RowList<T>>,
    bin_end: u64,
    steps: &mut Steps<L>,
) -> u64
    requires { IsSplit T.limit heads.now.items blocks.now.items }
    ensures sum { result ≡ count_before (counts (flat 0 blocks.now.items)) bin_end }
    ensures cost { steps.new ≤ steps.old + (bits (length heads.now.items) + 6) }
{
    let place = heads.place_of(bin_end, steps);
    if place.index == heads.len() {
        return place.below;
    }
    let block = &blocks[place.index];
    let further = place_of(block, bin_end, steps);
    place.below + further.below
}

/// Puts a block in where there is room for it.
pub fn put_block<T: StoredRow>(blocks: &mut Vec<RowList<T>>, i: usize, block: RowList<T>)
    requires within { i ≤ length blocks.old.items }
    requires room { vec_len blocks.old < vec_capacity blocks.old }
    ensures { blocks.new.items ≡ insert blocks.old.items i block }
{
    let _ = blocks.insert(i, block);
}

/// Makes sized blocks of the block at a place and one in hand, whose rows follow it.
fn settle<T: StoredRow, L: Ledger>(
    heads: &mut Heads,
    blocks: &mut Vec<RowList<T>>,
    q: usize,
    mut right: RowList<T>,
    steps: &mut Steps<L>,
)
    requires held { IsHeld heads.old.items (in_hand q right blocks.old.items) }
    requires fits { IsTotal T.limit (last_total 0 heads.old.items) }
    requires hand { FitsAt q right blocks.old.items }
    requires room_heads { 0 < heads.old.spare }
    requires room_blocks { vec_len blocks.old < vec_capacity blocks.old }
    ensures split { IsSplit T.limit heads.new.items blocks.new.items }
    ensures parts { parts blocks.new.items ≡ parts (in_hand q right blocks.old.items) }
    ensures total { last_total 0 heads.new.items ≡ last_total 0 heads.old.items }
{
    let left = &mut blocks[q];
    level(left, &mut right, steps);
    if right.len() == 0 {
        return;
    }
    let last = left.at(left.len() - 1, steps);
    let end = right.at(right.len() - 1, steps);
    let head = heads.at(q, steps);
    let row = Row {
        bin: last.bin,
        total: head.total - end.total,
    };
    heads.put_row(q, row, steps);
    put_block(blocks, q + 1, right);
}

/// Gives rows of a full block to the one before it, until that has 63. The other blocks and heads stay where they are.
fn give<T: StoredRow, L: Ledger>(
    alloc: Global,
    heads: &mut Heads,
    blocks: &mut Vec<RowList<T>>,
    q: usize,
    steps: &mut Steps<L>,
)
    requires held { IsHeld heads.old.items blocks.old.items }
    requires fits { IsTotal T.limit (last_total 0 heads.old.items) }
    requires within { q + 1 < length blocks.old.items }
    requires pair { (right : Block) → right ≡ slice_index_or blocks.old.items (q + 1) right → FitsAt q right (remove blocks.old.items (q + 1)) }
    requires full { (right : Block) → right ≡ slice_index_or blocks.old.items (q + 1) right → length right.items ≡ 64 }
    ensures split { IsSplit T.limit heads.new.items blocks.new.items }
    ensures parts { parts blocks.new.items ≡ parts blocks.old.items }
{
    let full = &mut blocks[q + 1];
    let mut right = replace(full, RowList::new(alloc));
    let left = &mut blocks[q];
    fill(left, &mut right, steps);
    let last = left.at(left.len() - 1, steps);
    let end = right.at(right.len() - 1, steps);
    let head = heads.at(q + 1, steps);
    let row = Row {
        bin: last.bin,
        total: head.total - end.total,
    };
    heads.set(q, row, steps);
    blocks[q + 1] = right;
}

/// Some records more in the block at the place of their bin, which has room for a row.
fn add_at<T: StoredRow, L: Ledger>(
    heads: &mut Heads,
    blocks: &mut Vec<RowList<T>>,
    place: usize,
    bin: u32,
    amount: u64,
    steps: &mut Steps<L>,
)
    requires split { IsSplit T.limit heads.old.items blocks.old.items }
    requires some { 0 < amount }
    requires fits { IsTotal T.limit (last_total 0 heads.old.items + amount) }
    requires place { IsPlace row_bin bin heads.old.items place }
    requires within { place < length heads.old.items }
    ensures adds { AddsAt place bin amount heads.old heads.new blocks.old.items blocks.new.items }
    ensures room { vec_capacity blocks.new ≡ vec_capacity blocks.old }
{
    let block = &mut blocks[place];
    let _ = add_record(block, bin, amount, steps);
    heads.raise(place, amount, steps);
}

/// Some records less in the block of their bin.
fn take_at<T: StoredRow, L: Ledger>(
    heads: &mut Heads,
    blocks: &mut Vec<RowList<T>>,
    bin: u32,
    amount: u64,
    steps: &mut Steps<L>,
) -> usize
    requires split { IsSplit T.limit heads.old.items blocks.old.items }
    requires some { 0 < amount }
    requires there { amount ≤ count_at bin (parts blocks.old.items) }
    ensures within { result < length blocks.new.items }
    ensures held { IsHeld heads.new.items blocks.new.items }
    ensures parts { parts blocks.new.items ≡ less bin amount (parts blocks.old.items) }
    ensures sized { SizedBut 63 result blocks.new.items }
    ensures total { last_total 0 heads.new.items ≤ last_total 0 heads.old.items }
{
    let place = heads.place_of(u64::from(bin), steps).index;
    let block = &mut blocks[place];
    take_record(block, bin, amount, steps);
    heads.lower(place, amount, steps);
    fit_head(heads, blocks, place, steps);
    place
}

/// Gives a head the bin of its block's last row, unless it is the last head.
fn fit_head<T: StoredRow, L: Ledger>(
    heads: &mut Heads,
    blocks: &Vec<RowList<T>>,
    place: usize,
    steps: &mut Steps<L>,
)
    requires held { Held 0 0 heads.old.items blocks.now.items }
    requires last { AreLastBut place heads.old.items blocks.now.items }
    requires within { place < length heads.old.items }
    ensures held { IsHeld heads.new.items blocks.now.items }
    ensures total { last_total 0 heads.new.items ≡ last_total 0 heads.old.items }
{
    if place + 1 == heads.len() {
        return;
    }
    let block = &blocks[place];
    let last = block.at(block.len() - 1, steps);
    let head = heads.at(place, steps);
    let fitted = Row {
        bin: last.bin,
        total: head.total,
    };
    heads.set(place, fitted, steps);
}

/// Room for a block more.
pub fn reserve_block<T: StoredRow>(blocks: &mut Vec<RowList<T>>) -> Result<(), NoMemory>
    ensures unchanged { blocks.new.items ≡ blocks.old.items }
    ensures room { OnOk result (vec_len blocks.new < vec_capacity blocks.new) }
{
    match blocks.try_reserve(1) {
        Ok(()) => Ok(()),
        Err(_) => Err(NoMemory),
    }
}

/// Whether there is a block before a place, which has fewer rows than it may.
fn has_gap_before<T: StoredRow>(blocks: &Vec<RowList<T>>, place: usize) -> bool
    requires { place ≤ length blocks.now.items }
    ensures gap { IsTrue result → (left : Block) → left ≡ slice_index_or blocks.now.items (place - 1) left → length left.items ≤ 62 }
    ensures one { IsTrue result → 0 < place }
{
    place > 0 && blocks[place - 1].len() < 63
}

/// Some records more in a bin. A full block gives rows to the one before it, and is halved where that has all that it
/// may have. For want of memory the rows are as before.
pub fn add_in<T: StoredRow, L: Ledger>(
    alloc: Global,
    heads: &mut Heads,
    blocks: &mut Vec<RowList<T>>,
    bin: u32,
    amount: u64,
    steps: &mut Steps<L>,
) -> Result<(), NoMemory>
    requires split { IsSplit T.limit heads.old.items blocks.old.items }
    requires some { 0 < amount }
    requires fits { IsTotal T.limit (last_total 0 heads.old.items + amount) }
    ensures split { IsSplit T.limit heads.new.items blocks.new.items }
    ensures added { OnOk result (parts blocks.new.items ≡ more bin amount (parts blocks.old.items)) }
    ensures unchanged { OnErr result (parts blocks.new.items ≡ parts blocks.old.items) }
{
    let place = heads.place_of(u64::from(bin), steps).index;
    let block = &blocks[place];
    if block.len() < 63 {
        add_at(heads, blocks, place, bin, amount, steps);
        return Ok(());
    }
    if has_gap_before(blocks, place) {
        add_at(heads, blocks, place, bin, amount, steps);
        if blocks[place].len() == 64 {
            give(alloc, heads, blocks, place - 1, steps);
        }
        return Ok(());
    }
    let mut right = RowList::new(alloc);
    right.reserve(64)?;
    heads.reserve(1)?;
    reserve_block(blocks)?;
    add_at(heads, blocks, place, bin, amount, steps);
    if blocks[place].len() < 64 {
        return Ok(());
    }
    settle(heads, blocks, place, right, steps);
    Ok(())
}

/// The left one of a block and a neighbour of it.
fn neighbour(place: usize, count: usize) -> usize
    requires within { place < count }
    requires several { 1 < count }
    ensures pair { (place ≡ result) ⊎ (place ≡ result + 1) }
    ensures within { result + 1 < count }
{
    if place + 1 < count { place } else { place - 1 }
}

/// Some records less in a bin that has as many, and whether one block is left, which is then a list.
pub fn take_in<T: StoredRow, L: Ledger>(
    heads: &mut Heads,
    blocks: &mut Vec<RowList<T>>,
    bin: u32,
    amount: u64,
    steps: &mut Steps<L>,
) -> bool
    requires split { IsSplit T.limit heads.old.items blocks.old.items }
    requires some { 0 < amount }
    requires there { amount ≤ count_at bin (parts blocks.old.items) }
    ensures held { IsHeld heads.new.items blocks.new.items }
    ensures parts { parts blocks.new.items ≡ less bin amount (parts blocks.old.items) }
    ensures total { last_total 0 heads.new.items ≤ last_total 0 heads.old.items }
    ensures sized { MatchBool result (length blocks.new.items ≡ 1) (AllSized blocks.new.items) }
    ensures short { (d : Block) → IsTrue result → length (slice_index_or blocks.new.items 0 d).items ≤ 63 }
{
    let place = take_at(heads, blocks, bin, amount, steps);
    let block = &blocks[place];
    if block.len() > 31 {
        return false;
    }
    let count = blocks.len();
    if count == 1 {
        return true;
    }
    let q = neighbour(place, count);
    heads.remove(q, steps);
    let right = blocks.remove(q + 1);
    settle(heads, blocks, q, right, steps);
    blocks.len() == 1
}

/// No blocks, with room for just so many.
fn room_for<T: StoredRow>(alloc: Global, count: usize) -> Result<Vec<RowList<T>>, NoMemory>
    ensures { IfOk result (λ blocks. blocks.items ≡ []) }
{
    let mut blocks = Vec::new(alloc);
    match blocks.try_reserve_exact(count) {
        Ok(()) => Ok(blocks),
        Err(_) => Err(NoMemory),
    }
}

/// The same blocks once more, each with its room, and as such rows as have the same totals or larger ones.
pub fn copy_blocks<S: StoredRow, T: StoredRow, L: Ledger>(
    alloc: Global,
    blocks: &Vec<RowList<S>>,
    steps: &mut Steps<L>,
) -> Result<Vec<RowList<T>>, NoMemory>
    requires kinds { S.limit ≤ T.limit }
    requires sized { AllSized blocks.now.items }
    ensures { IfOk result (λ copy. (lists copy.items ≡ lists blocks.now.items) × AllSized copy.items) }
{
    let mut copies = room_for(alloc, blocks.len())?;
    for i in 0..blocks.len() {
        let copy = block_of(alloc, &blocks[i], steps)?;
        reserve_block(&mut copies)?;
        put_block(&mut copies, i, copy);
    }
    Ok(copies)
}

/// The first row of a bin that is `from` or later, by a search of the heads and one of a block. It is in
/// the block of the first head from there on, which has the bin of its block's last row or is the last.
pub fn next_row_in<T: StoredRow, L: Ledger>(
    heads: &Heads,
    blocks: &Vec<RowList<T>>,
    from: u32,
    steps: &mut Steps<L>,
) -> Option<(u32, u64)>
    requires { IsSplit T.limit heads.now.items blocks.now.items }
    ensures next { result ≡ first_from from (parts blocks.now.items) }
    ensures cost { steps.new ≤ steps.old + (1 + bits (length (flat 0 blocks.now.items))) }
{
    let place = heads.place_of(u64::from(from), steps).index;
    let block = &blocks[place];
    next_in(block, u64::from(from), steps)
}
