//! Why a script is not answered to its end.
ghost use Rattle.std.specs.Prelude.{◌≡◌};

use texts::NoMemory;

/// Why a script is not answered to its end: its source or the sink of its replies failed, it has more than 2^30 bytes
/// and no `quit` among its lines, or memory ran out.
#[derive(Clone, Copy, PartialEq, Eq, Debug)]
pub enum SessionFault {
    Read,
    Write,
    TooMuch,
    NoMemory,
}

impl From<NoMemory> for SessionFault {
    ghost use Rattle.session_core.specs.declared.fault.SessionFault.TheVariants as fault;

    ghost from_gives = { λ _ e. e ≡ fault.NoMemory };

    fn from(_fault: NoMemory) -> SessionFault {
        SessionFault::NoMemory
    }
}
