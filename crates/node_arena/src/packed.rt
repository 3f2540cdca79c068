//! Links as a node stores them, without the bytes that padding would take.
ghost use Rattle.std.specs.Prelude.{◌≡◌, is_some};

use crate::link::{Link, LinkKind, SlotId};
use probe_core::Keyed;
use std::marker::Model;

/// A child, in 6 bytes: the place of its slot in two halves needs no padding, so three children and a mark of how many
/// there are have the bytes of three pointers. Contracts see its label and its link.
#[derive(Clone, Copy)]
pub struct Child {
    high: u16,
    low: u16,
    label: u8,
    kind: LinkKind,
}

impl Model for Child {
    ghost use Rattle.std.specs.Prelude.{ℕ, ◌+◌, ◌*◌, ◌/◌, ◌%◌, ◌<◌};
    ghost use Rattle.std.proofs.lemmas.Nat.{div-mul-add, mod-mul-add};
    ghost use Rattle.node_arena.specs.declared.link.Link.{Link as Seen};

    ghost Value = { ℕ × Seen };

    ghost view = { λ c. (c.label, record { to = record { 0 = c.high * 65536 + c.low }; kind = c.kind }) };

    ghost invariant = { λ c. c.low < 65536 };

    ghost inverse = { λ v. record { high = v.1.to.0 / 65536; low = v.1.to.0 % 65536; label = v.0; kind = v.1.kind } };

    ghost inverse_ok = { λ c low i. record { high = div-mul-add c.high 65536 c.low low i; low = mod-mul-add c.high 65536 c.low low i; label = c.label; kind = c.kind } };
}

impl Keyed for Child {
    ghost key = { λ child. child.0 };

    fn key(&self) -> u64 {
        u64::from(self.label)
    }
}

impl Child {
    /// A link at a label.
    pub fn new(label: u8, link: Link) -> Child
        ensures { result ≡ (label, link) }
    {
        Child {
            high: (link.to.0 / 65536) as u16,
            low: (link.to.0 % 65536) as u16,
            label,
            kind: link.kind,
        }
    }

    /// The label.
    pub fn label(self) -> u8
        ensures { result ≡ self.0 }
    {
        self.label
    }

    /// The link.
    pub fn link(self) -> Link
        ensures { result ≡ self.1 }
    {
        Link {
            to: SlotId(u32::from(self.high) * 65536 + u32::from(self.low)),
            kind: self.kind,
        }
    }
}

/// The content of a node, in 8 bytes. Contracts see a link, or none.
#[derive(Drop)]
pub struct Content {
    to: u32,
    kind: Option<LinkKind>,
}

impl Model for Content {
    ghost use Rattle.std.specs.Prelude.{Option};
    ghost use Rattle.node_arena.specs.declared.link.Link.{Link as Seen};
    ghost use Rattle.node_arena.specs.Packed.{content_from};

    ghost Value = { Option Seen };

    ghost view = { λ c. content_from c.to c.kind };
}

impl Content {
    /// That link, or none.
    pub fn new(link: Option<Link>) -> Content
        ensures { result ≡ link }
    {
        match link {
            Some(link) => Content {
                to: link.to.0,
                kind: Some(link.kind),
            },
            None => Content { to: 0, kind: None },
        }
    }

    /// The link.
    pub fn link(&self) -> Option<Link>
        ensures { result ≡ self.now }
    {
        match self.kind {
            Some(kind) => Some(Link {
                to: SlotId(self.to),
                kind,
            }),
            None => None,
        }
    }

    /// Whether there is a link.
    pub fn is_some(&self) -> bool
        ensures { result ≡ is_some self.now }
    {
        match self.kind {
            Some(_) => true,
            None => false,
        }
    }
}
