//! Links between slots.
ghost use Rattle.std.specs.Prelude.{◌≡◌};
ghost use Rattle.node_arena.specs.Slots.{proper, shared, target};
ghost use Rattle.node_arena.specs.Stats.{is_proper};

/// A slot of an arena, by its place. An arena has at most 2^32 slots, so that links are small.
#[derive(Clone, Copy, PartialEq, Eq, Debug)]
pub struct SlotId(pub u32);

/// Whether a link owns the slot that it leads to, or shares it.
#[derive(Clone, Copy, PartialEq, Eq, Debug)]
pub enum LinkKind {
    Proper,
    Shared,
}

/// A link to a slot.
#[derive(Clone, Copy, PartialEq, Eq, Debug)]
pub struct Link {
    pub to: SlotId,
    pub kind: LinkKind,
}

impl Link {
    /// A link that owns the slot that it leads to.
    pub fn proper(to: SlotId) -> Link
        ensures { result ≡ proper to.0 }
    {
        Link {
            to,
            kind: LinkKind::Proper,
        }
    }

    /// A shared link to the same slot.
    pub fn shared(self) -> Link
        ensures { result ≡ shared (target self) }
    {
        Link {
            to: self.to,
            kind: LinkKind::Shared,
        }
    }

    /// Whether it owns the slot that it leads to.
    pub fn is_proper(self) -> bool
        ensures { result ≡ is_proper self }
    {
        match self.kind {
            LinkKind::Proper => true,
            LinkKind::Shared => false,
        }
    }
}
