//! Totals, added.
ghost use Rattle.std.specs.Prelude.{◌≡◌, ◌≢◌, ◌+◌, true, false, Err, IfOk};
ghost use Rattle.reply_sums.specs.Numbers.{is_too_great};

use crate::SumFault;

/// The two numbers together.
pub(crate) fn sum_totals(total: u64, other: u64) -> Result<u64, SumFault>
    ensures sum { IfOk result (λ sum. sum ≡ total + other) }
    ensures fits { IfOk result (λ sum. is_too_great sum ≡ false) }
    ensures great { result ≡ Err SumFault.TooMuch → is_too_great (total + other) ≡ true }
    ensures alike { result ≢ Err SumFault.OtherRows }
{
    total.checked_add(other).ok_or(SumFault::TooMuch)
}
