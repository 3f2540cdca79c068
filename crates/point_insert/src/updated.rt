//! The contents to which a point was added.
ghost use Rattle.std.specs.Prelude.{◌≡◌, ◌↔◌, [], Contains, IsTrue, IfOk, OnOk, OnErr};
ghost use Rattle.proper_path.specs.Midway.{IsJoined};

use node_arena::SlotId;
use std::alloc::Global;
use std::collections::HashSet;
use std::marker::Model;
use texts::NoMemory;

/// A set of slots, which contracts see as a list of their places.
#[derive(Drop)]
pub struct Updated {
    places: HashSet<u32>,
}

impl Model for Updated {
    ghost use Rattle.std.specs.Prelude.{List, ℕ};

    ghost Value = { List ℕ };

    ghost view = { λ u. u.places.keys };
}

impl Updated {
    /// An empty set, with memory for `n` slots.
    pub fn with_room(alloc: Global, n: usize) -> Result<Updated, NoMemory>
        ensures { IfOk result (λ updated. updated ≡ []) }
    {
        let places = HashSet::with_capacity(alloc, n)?;
        Ok(Updated { places })
    }

    /// Whether the slot is in the set.
    pub fn has(&self, id: SlotId) -> bool
        ensures { IsTrue result ↔ Contains self.now id.0 }
    {
        self.places.contains(&id.0)
    }

    /// The slot joins the set. For want of memory the set is as before.
    pub(crate) fn put(&mut self, id: SlotId) -> Result<(), NoMemory>
        ensures joined { OnOk result (IsJoined self.old id.0 self.new) }
        ensures unchanged { OnErr result (self.new ≡ self.old) }
    {
        self.places.insert(id.0)?;
        Ok(())
    }
}
