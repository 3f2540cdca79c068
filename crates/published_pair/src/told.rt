//! What the publisher tells viewers, and how a viewer ends.
ghost use Rattle.std.specs.Prelude.{◌≡◌, length};
ghost use Rattle.published_pair.specs.Pair.{Fresh};

use crate::book::{Front, Whole};
use crate::viewer::Viewer;
use cube_view::Grow;
use texts::NoMemory;

/// The published list at some moment. Contracts see its book, which names the pair, and its points.
#[derive(Drop)]
pub struct Told {
    pub(crate) front: Front,
}

impl Told {
    /// How many points were published.
    pub fn count(&self) -> u64
        ensures { result ≡ length self.now.front.points }
    {
        self.front.len()
    }
}

/// The list of a publisher that has ended.
#[derive(Drop)]
pub struct Last {
    pub(crate) front: Front,
    pub(crate) whole: Whole,
    ghost same: { front ≡ whole },
}

impl Last {
    /// How many points the ended list has.
    pub fn count(&self) -> u64
        ensures { result ≡ length self.now.whole.points }
    {
        self.whole.len()
    }
}

/// What is left of a pair that was given up: the list that viewers were shown last, and a list in which all is that was
/// published in it.
#[derive(Drop)]
pub struct GivenUp {
    pub(crate) shown: Front,
    pub(crate) whole: Whole,
}

impl GivenUp {
    /// Whatever the viewer was shown or told of is a prefix of the list.
    pub fn covers<V: Grow>(&self, viewer: &Viewer<V>)
        requires { viewer.now.shown.book ≡ self.now.whole.book }
        ensures { Fresh viewer.now.shown.points viewer.now.learned.points self.now.whole.points }
    {
        self.whole.covers(&viewer.shown);
        self.whole.covers(&viewer.learned);
    }
}

// A pair is given up only where memory was wanted.
impl From<GivenUp> for NoMemory {
    ghost use Rattle.std.specs.Prelude.{⊤};

    ghost from_gives = { λ _ _. ⊤ };

    fn from(_: GivenUp) -> NoMemory {
        NoMemory
    }
}

/// The viewer had seen so many points.
#[derive(Clone, Copy, PartialEq, Eq, Debug)]
pub struct Closed {
    pub seen: u64,
}
