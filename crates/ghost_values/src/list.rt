//! A list that only contracts read.
ghost use Rattle.std.specs.Prelude.{◌≡◌, List, [], ◌∷◌, ◌++◌};
ghost use Rattle.std.specs.Borrow.{ftrue};

use std::marker::{Model, PhantomData};

/// A list that only contracts read, as `items`. It is Send and Sync whatever `T` is.
#[derive(Drop)]
pub struct GhostList<T> {
    marker: PhantomData<T>,
    pub ghost items: { List T },
}

impl<T> Model for GhostList<T> {
    ghost also_owns = { λ _. ftrue };
}

// It owns nothing.
unsafe impl<T> Send for GhostList<T> {}

unsafe impl<T> Sync for GhostList<T> {}

impl<T> GhostList<T> {
    /// No items.
    pub fn new() -> GhostList<T>
        ensures { result.items ≡ [] }
    {
        GhostList {
            marker: PhantomData,
        }
    }

    /// The list with one item more at its end.
    pub fn and(&self, item: &T) -> GhostList<T>
        ensures { result.items ≡ self.now.items ++ item.now ∷ [] }
    {
        GhostList {
            marker: PhantomData,
        }
    }

    /// The list with the items of a slice at its end.
    pub fn with_all(self, items: &[T]) -> GhostList<T>
        ensures { result.items ≡ self.items ++ items.now }
    {
        let mut all = self;
        for item in items {
            all = all.and(item);
        }
        all
    }
}
