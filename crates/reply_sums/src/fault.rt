//! Why two replies have no sum.
ghost use Rattle.std.specs.Prelude.{◌≡◌, if◌then◌else◌};

use texts::NoMemory;

/// Why two replies have no sum: they are not replies to what was asked that have rows of the same keys; a total or a
/// number of points of their sum is 2^64 or more; or memory ran out.
#[derive(Clone, Copy, PartialEq, Eq, Debug)]
pub enum SumFault {
    OtherRows,
    TooMuch,
    NoMemory,
}

impl From<NoMemory> for SumFault {
    ghost use Rattle.reply_sums.specs.declared.fault.SumFault.TheVariants as fault;

    ghost from_gives = { λ _ e. e ≡ fault.NoMemory };

    fn from(_fault: NoMemory) -> SumFault {
        SumFault::NoMemory
    }
}

/// Why two replies have no sum in which a total is too great, by whether they have one at all.
pub(crate) fn fault_of_great(have_sum: bool) -> SumFault
    ensures { result ≡ (if have_sum then SumFault.TooMuch else SumFault.OtherRows) }
{
    if have_sum {
        SumFault::TooMuch
    } else {
        SumFault::OtherRows
    }
}
