//! One value that only contracts read.
ghost use Rattle.std.specs.Prelude.{◌≡◌};
ghost use Rattle.std.specs.Borrow.{ftrue};

use std::marker::{Model, PhantomData};

/// A value that only contracts read, as `value`. It is Send and Sync whatever `T` is.
#[derive(Drop)]
pub struct GhostValue<T> {
    marker: PhantomData<T>,
    pub ghost value: { T },
}

impl<T> Model for GhostValue<T> {
    ghost also_owns = { λ _. ftrue };
}

// It owns nothing.
unsafe impl<T> Send for GhostValue<T> {}

unsafe impl<T> Sync for GhostValue<T> {}

impl<T> GhostValue<T> {
    /// The value as it is now.
    pub fn of(x: &T) -> GhostValue<T>
        ensures { result.value ≡ x.now }
    {
        GhostValue {
            marker: PhantomData,
        }
    }
}
