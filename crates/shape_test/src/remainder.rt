//! What is left of a slot's rows once those of others are taken off, by one pass over the rows of both.
ghost use Rattle.std.specs.Prelude.{◌≡◌, ℕ, ◌↔◌, ◌+◌, ◌<◌, ◌≤◌, ◌^◌, length, IsTrue, IfOk, OnOk};
ghost use Rattle.probe_core.specs.Places.{RisesBy};
ghost use Rattle.time_table.specs.Counts.{amount_at};
ghost use Rattle.shape_test.specs.Ends.{ends_count};
ghost use Rattle.shape_test.specs.Parts.{ArePartsIn};
ghost use Rattle.shape_test.specs.Remainder.{AreOrderly, FitIn, IsRemainder, row_key, slot_rows, first_rows};

use crate::parts::Part;
use node_arena::{Arena, SlotId};
use probe_core::Steps;
use std::sync::ledger::Ledger;
use texts::NoMemory;

/// Takes rows off others, bin by bin. It says no only where they count more than these in some bin.
fn take_off(left: &mut [(u32, u64)], rows: &[(u32, u64)]) -> bool
    requires orderly { AreOrderly rows.now }
    requires rises { RisesBy row_key left.old }
    ensures rises { RisesBy row_key left.new }
    ensures left { IsTrue result → IsRemainder left.old rows.now left.new }
    ensures all { FitIn rows.now left.old → IsTrue result }
{
    let mut next = 0;
    for i in 0..left.len() {
        if next >= rows.len() {
            return true;
        }
        let (bin, count) = rows[next];
        if left[i].0 == bin {
            if left[i].1 < count {
                return false;
            }
            left[i] = (bin, left[i].1 - count);
            next += 1;
        }
    }
    next >= rows.len()
}

/// Whether rows count nothing.
fn are_spent(rows: &[(u32, u64)]) -> bool
    ensures { IsTrue result ↔ ((bin : ℕ) → amount_at bin rows.now ≡ 0) }
{
    for row in rows {
        if row.1 > 0 {
            return false;
        }
    }
    true
}

/// The rows of a slot in rising order of bin, in place of what a list had: a node has none.
fn read_rows<L: Ledger>(
    rows: &mut Vec<(u32, u64)>,
    arena: &Arena,
    id: SlotId,
    steps: &mut Steps<L>,
) -> Result<(), NoMemory>
    requires { id.0 < length arena.now }
    ensures rows { OnOk result (rows.new.items ≡ slot_rows arena.now id.0) }
    ensures orderly { AreOrderly (slot_rows arena.now id.0) }
{
    rows.clear();
    if arena.is_table(id) {
        arena.table(id, steps).put_rows(rows, steps)?;
    }
    Ok(())
}

/// The rows of a part, if there is one, in place of what a list had.
fn read_whole<L: Ledger>(
    rows: &mut Vec<(u32, u64)>,
    arena: &Arena,
    whole: &[Part],
    steps: &mut Steps<L>,
) -> Result<(), NoMemory>
    requires one { length whole.now ≤ 1 }
    requires within { ArePartsIn arena.now whole.now }
    ensures rows { OnOk result (rows.new.items ≡ first_rows arena.now whole.now) }
    ensures orderly { AreOrderly (first_rows arena.now whole.now) }
{
    let [one, ..] = whole else {
        rows.clear();
        return Ok(());
    };
    read_rows(rows, arena, one.content, steps)
}

/// Takes the rows of parts off others. It says no only where they count more than these in some bin. Rows are read into
/// a list that is there.
fn take_ends<L: Ledger>(
    left: &mut [(u32, u64)],
    rows: &mut Vec<(u32, u64)>,
    arena: &Arena,
    parts: &[Part],
    steps: &mut Steps<L>,
) -> Result<bool, NoMemory>
    requires rises { RisesBy row_key left.old }
    requires parts { ArePartsIn arena.now parts.now }
    ensures left { IfOk result (λ r. IsTrue r → (bin : ℕ) → amount_at bin left.old ≡ amount_at bin left.new + ends_count arena.now parts.now bin) }
    ensures all { ((bin : ℕ) → ends_count arena.now parts.now bin ≤ amount_at bin left.old) → IfOk result (λ r. IsTrue r) }
{
    for part in parts {
        read_rows(rows, arena, part.content, steps)?;
        if !take_off(left, rows.as_slice()) {
            return Ok(false);
        }
    }
    Ok(true)
}

/// Whether a part, if there is one, has in each bin as many records as others have together. Rows are read into lists
/// that are there.
pub fn ends_merge<L: Ledger>(
    left: &mut Vec<(u32, u64)>,
    rows: &mut Vec<(u32, u64)>,
    arena: &Arena,
    whole: &[Part],
    parts: &[Part],
    steps: &mut Steps<L>,
) -> Result<bool, NoMemory>
    requires one { length whole.now ≤ 1 }
    requires whole { ArePartsIn arena.now whole.now }
    requires parts { ArePartsIn arena.now parts.now }
    ensures { IfOk result (λ r. IsTrue r ↔ ((bin : ℕ) → ends_count arena.now whole.now bin ≡ ends_count arena.now parts.now bin)) }
{
    read_whole(left, arena, whole, steps)?;
    let left = left.as_mut_slice();
    if !take_ends(left, rows, arena, parts, steps)? {
        return Ok(false);
    }
    Ok(are_spent(left))
}
