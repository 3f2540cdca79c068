//! Heads and blocks of rows, made in one pass.
ghost use Rattle.std.specs.Prelude.{◌≡◌, ◌+◌, ◌≤◌, length, IfOk};
ghost use Rattle.time_table.specs.Blocks.{IsSplit, AddsBlock, blocks_under, parts};
ghost use Rattle.time_table.specs.Totals.{IsTotal};
ghost use Rattle.time_table.specs.Rows.{AreRows, row_total};

use crate::form::Split;
use crate::heads::Heads;
use crate::row::Row;
use crate::row_list::RowList;
use crate::rows::totals_of;
use crate::split::{put_block, reserve_block};
use crate::stored::StoredRow;
use std::alloc::Global;
use texts::NoMemory;

/// Puts rows behind the others as a block of their own, under a head with a bin, and gives the total up to them.
/// `below` is the total before them.
fn put_part<T: StoredRow>(
    alloc: Global,
    heads: &mut RowList<Row>,
    blocks: &mut Vec<RowList<T>>,
    rows: &[(u32, u64)],
    bin: u32,
    below: u64,
) -> Result<u64, NoMemory>
    requires light { IsTotal T.limit (below + row_total rows.now) }
    requires least { 32 ≤ length rows.now }
    requires most { length rows.now ≤ 63 }
    ensures total { IfOk result (λ total. total ≡ below + row_total rows.now) }
    ensures part { IfOk result (λ total. AddsBlock rows.now bin total (blocks_under heads.old blocks.old) (blocks_under heads.new blocks.new)) }
{
    let (block, count) = totals_of(alloc, rows, 64)?;
    let total = below + count;
    reserve_block(blocks)?;
    heads.insert(heads.len(), Row { bin, total })?;
    put_block(blocks, blocks.len(), block);
    Ok(total)
}

/// Rows as blocks under their heads, from the front: each block has as many rows as it may, and leaves enough for one
/// more.
pub fn split_of<T: StoredRow>(alloc: Global, rows: &[(u32, u64)]) -> Result<Split<T>, NoMemory>
    requires fit { AreRows 0 rows.now }
    requires light { IsTotal T.limit (row_total rows.now) }
    requires many { 32 ≤ length rows.now }
    ensures split { IfOk result (λ split. IsSplit T.limit split.heads.items split.blocks.items) }
    ensures parts { IfOk result (λ split. parts split.blocks.items ≡ rows.now) }
{
    let mut heads = RowList::new(alloc);
    let mut blocks = Vec::new(alloc);
    let mut rest = rows;
    let mut total = 0;
    while rest.len() > 63 {
        let size = (rest.len() - 32).min(63);
        let (front, back) = rest.split_at(size);
        total = put_part(
            alloc,
            &mut heads,
            &mut blocks,
            front,
            front[size - 1].0,
            total,
        )?;
        rest = back;
    }
    put_part(alloc, &mut heads, &mut blocks, rest, u32::MAX, total)?;
    let heads = Heads::of(heads);
    Ok(Split { heads, blocks })
}
