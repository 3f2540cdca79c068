//! That values of a type may go to another thread.
ghost use Rattle.std.specs.Thread.{IsSend};

use std::marker::PhantomData;

/// That values of the type may go to another thread. No other type can be named here, so a signature that names one is
/// refused.
pub struct MayGo<T: Send> {
    of: PhantomData<T>,
}

/// Of each type whose values may go to another thread. It does nothing when run.
pub fn may_go<T: Send>() -> MayGo<T>
    ensures { IsSend T.row }
{
    MayGo { of: PhantomData }
}
