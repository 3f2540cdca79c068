//! A block, which has room for 64 rows and takes it when it is made.
ghost use Rattle.std.specs.Prelude.{◌≡◌, ◌+◌, ◌≤◌, length, IfOk};

use crate::pair::put_row;
use crate::row::Row;
use crate::row_list::RowList;
use crate::stored::StoredRow;
use probe_core::Steps;
use std::alloc::Global;
use std::sync::ledger::Ledger;
use texts::NoMemory;

/// The rows once more, as a block of such rows as have the same totals or larger ones: it takes its room before it has
/// the first row.
pub fn block_of<S: StoredRow, T: StoredRow, L: Ledger>(
    alloc: Global,
    rows: &RowList<S>,
    steps: &mut Steps<L>,
) -> Result<RowList<T>, NoMemory>
    requires kinds { S.limit ≤ T.limit }
    requires few { length rows.now.items ≤ 63 }
    ensures same { IfOk result (λ block. block.items ≡ rows.now.items) }
    ensures room { IfOk result (λ block. 64 ≤ length block.items + block.spare) }
{
    let mut block = RowList::new(alloc);
    block.reserve(64)?;
    for i in 0..rows.len() {
        let row = rows.at(i, steps);
        put_row(&mut block, i, row);
    }
    Ok(block)
}
