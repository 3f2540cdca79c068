//! The rows of two tables, added one by one.
ghost use Rattle.std.specs.Prelude.{◌≡◌, true, false, Some, None, Err, IfOk, IfSome, IsSomeAnd, is_some};
ghost use Rattle.std.specs.Str.{bytes_eq};
ghost use Rattle.reply_sums.specs.Numbers.{AreGreat, are_rows_great, is_row_great};
ghost use Rattle.reply_sums.specs.Rows.{sum_row, sum_rows};

use crate::SumFault;
use crate::fault::fault_of_great;
use crate::totals::sum_totals;
use query_syntax::RowOut;
use std::alloc::Global;
use texts::{List, Text};

/// Whether two texts are the same.
fn is_same(text: &Text, other: &Text) -> bool
    ensures { result ≡ bytes_eq text.now other.now }
{
    text.as_str().as_bytes() == other.as_str().as_bytes()
}

/// The row of two rows' totals together, where both are of one kind and one key.
fn sum_row(alloc: Global, row: &RowOut, other: &RowOut) -> Result<RowOut, SumFault>
    ensures sum { IfOk result (λ sum. sum_row row.now other.now ≡ Some sum) }
    ensures fits { IfOk result (λ sum. is_row_great sum ≡ false) }
    ensures none { result ≡ Err SumFault.OtherRows → sum_row row.now other.now ≡ None }
    ensures great { result ≡ Err SumFault.TooMuch → IsSomeAnd (sum_row row.now other.now) (λ sum. is_row_great sum ≡ true) }
{
    match (row, other) {
        (RowOut::One(n), RowOut::One(m)) => Ok(RowOut::One(sum_totals(*n, *m)?)),
        (RowOut::Value(s, n), RowOut::Value(t, m)) if is_same(s, t) => {
            let text = s.copy(alloc)?;
            Ok(RowOut::Value(text, sum_totals(*n, *m)?))
        }
        (RowOut::Bin(s, n), RowOut::Bin(t, m)) if s == t => {
            Ok(RowOut::Bin(*s, sum_totals(*n, *m)?))
        }
        (RowOut::Pair(s, v, n), RowOut::Pair(t, w, m)) if is_same(s, t) && is_same(v, w) => {
            let first = s.copy(alloc)?;
            let second = v.copy(alloc)?;
            Ok(RowOut::Pair(first, second, sum_totals(*n, *m)?))
        }
        _ => Err(SumFault::OtherRows),
    }
}

/// The sums of the rows, one after another, up to the first total that is too great.
fn add_rows(alloc: Global, rows: &[RowOut], others: &[RowOut]) -> Result<List<RowOut>, SumFault>
    ensures sum { IfOk result (λ sums. sum_rows rows.now others.now ≡ Some sums) }
    ensures fits { IfOk result (λ sums. are_rows_great sums ≡ false) }
    ensures none { result ≡ Err SumFault.OtherRows → sum_rows rows.now others.now ≡ None }
    ensures great { result ≡ Err SumFault.TooMuch → IfSome (sum_rows rows.now others.now) (λ sums. are_rows_great sums ≡ true) }
{
    if rows.len() != others.len() {
        return Err(SumFault::OtherRows);
    }
    let mut sums = List::new(alloc);
    for i in 0..rows.len() {
        let sum = sum_row(alloc, &rows[i], &others[i])?;
        sums.add(sum)?;
    }
    Ok(sums)
}

/// Whether two rows are of one kind and one key.
fn is_alike(row: &RowOut, other: &RowOut) -> bool
    ensures { result ≡ is_some (sum_row row.now other.now) }
{
    match (row, other) {
        (RowOut::One(_), RowOut::One(_)) => true,
        (RowOut::Value(s, _), RowOut::Value(t, _)) => is_same(s, t),
        (RowOut::Bin(s, _), RowOut::Bin(t, _)) => s == t,
        (RowOut::Pair(s, v, _), RowOut::Pair(t, w, _)) => is_same(s, t) && is_same(v, w),
        _ => false,
    }
}

/// Whether the rows are so, one after another.
fn are_alike(rows: &[RowOut], others: &[RowOut]) -> bool
    ensures { result ≡ is_some (sum_rows rows.now others.now) }
{
    if others.len() != rows.len() {
        return false;
    }
    for i in 0..rows.len() {
        if !is_alike(&rows[i], &others[i]) {
            return false;
        }
    }
    true
}

/// The sums of the rows, one after another.
pub(crate) fn sum_rows(
    alloc: Global,
    rows: &[RowOut],
    others: &[RowOut],
) -> Result<List<RowOut>, SumFault>
    ensures sum { IfOk result (λ sums. sum_rows rows.now others.now ≡ Some sums) }
    ensures fits { IfOk result (λ sums. are_rows_great sums ≡ false) }
    ensures none { result ≡ Err SumFault.OtherRows → sum_rows rows.now others.now ≡ None }
    ensures great { result ≡ Err SumFault.TooMuch → AreGreat (sum_rows rows.now others.now) }
{
    match add_rows(alloc, rows, others) {
        Ok(sums) => Ok(sums),
        // Rows of another key are told first, also where they stand after a total that is too great.
        Err(SumFault::TooMuch) => Err(fault_of_great(are_alike(rows, others))),
        Err(fault) => Err(fault),
    }
}
