//! The rule that the two copies keep, with what each end knows of the pair.
ghost use Rattle.std.specs.Prelude.{None};
ghost use Rattle.published_pair.specs.Pair.{KeepsPair, Sees};

use crate::names::Names;
use crate::stand::Stand;
use atomic_table::{Join, Split};
use crossbeam_utils::rule::{Outcome, Protocol};
use cube_view::Grow;
use std::marker::PhantomData;

/// The rule of the copy that is shown and of what each end knows. It holds between any two atomic steps of the pair.
pub struct PairRule<V> {
    of: PhantomData<V>,
}

impl<V: Grow> Protocol<Stand<V>, Option<Names>> for PairRule<V> {
    ghost holds = { λ s. KeepsPair s.history.items s.front (V.schema s.view) };

    ghost first = { None };
}

/// A step after which an end knows the copy that is shown: a viewer's look, and the publisher's publication.
pub struct Look<V> {
    of: PhantomData<V>,
}

impl<V: Grow> Outcome<Stand<V>, Option<Names>> for Look<V> {
    ghost then = { λ v x y w. Sees v y.history.items y.front (V.schema y.view) w };
}

/// What the publisher hands to a viewer at opening, and how the viewer takes it in.
pub struct Handover;

impl Split<Option<Names>> for Handover {
    ghost left = { λ v. v };

    ghost right = { λ v. v };
}

impl Join<Option<Names>> for Handover {
    ghost both = { λ v w. w };

    ghost spent = { None };
}
