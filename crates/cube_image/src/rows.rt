//! The rows of a time table.
ghost use Rattle.std.specs.Prelude.{◌≡◌, ◌≤◌, ◌^◌, length, OnOk};
ghost use Rattle.cube_image.specs.Rest.{word_rows};

use probe_core::Steps;
use std::sync::ledger::Ledger;
use texts::NoMemory;
use time_table::TimeTable;

/// The rows of a time table in rising order of bin, in place of what a list had: at most 2^32. The bin that it reads
/// tells that all bins have 32 bits: none is greater than the last.
pub fn read_rows<L: Ledger>(
    rows: &mut Vec<(u32, u64)>,
    table: &TimeTable,
    steps: &mut Steps<L>,
) -> Result<(), NoMemory>
    ensures read { OnOk result (rows.new.items ≡ word_rows table.now) }
    ensures few { OnOk result (length rows.new.items ≤ 2 ^ 32) }
{
    rows.clear();
    table.put_rows(rows, steps)?;
    let count = rows.len();
    if count == 0 {
        return Ok(());
    }
    let (_bin, _) = rows[count - 1];
    Ok(())
}
