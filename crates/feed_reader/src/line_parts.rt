//! Fields that are parts of their line.
ghost use Rattle.std.specs.Prelude.{◌≡◌, ◌<◌, ◌∷◌, ◌++◌, [], IfOk, get_or, length};

use std::alloc::Global;
use std::marker::Model;
use texts::{List, NoMemory};

// How many fields have room at first.
const ROOM: usize = 16;

/// LineParts of a line, seen as the list of their bytes.
#[derive(Drop)]
pub(crate) struct LineParts<'a> {
    texts: List<&'a [u8]>,
}

impl<'a> Model for LineParts<'a> {
    ghost use Rattle.std.specs.Prelude.{List, ℕ, map};

    ghost Value = { List (List ℕ) };

    ghost view = { λ parts. map (λ text. text.now) parts.texts };
}

impl<'a> LineParts<'a> {
    /// No parts yet, with room for those of most lines.
    pub(crate) fn new(alloc: Global) -> Result<LineParts<'a>, NoMemory>
        ensures { IfOk result (λ parts. parts ≡ []) }
    {
        let mut texts = List::new(alloc);
        texts.reserve(ROOM)?;
        Ok(LineParts { texts })
    }

    /// Adds a part at the end.
    pub(crate) fn add(&mut self, text: &'a [u8]) -> Result<(), NoMemory>
        ensures { IfOk result (λ _. self.new ≡ self.old ++ text.now ∷ []) }
    {
        self.texts.add(text)
    }

    /// The part at a place, from 0.
    pub(crate) fn part(&self, place: usize) -> &[u8]
        requires { place < length self.now }
        ensures { result.now ≡ get_or self.now place [] }
    {
        self.texts.get(place)
    }

    /// How many parts there are.
    pub(crate) fn len(&self) -> usize
        ensures { result ≡ length self.now }
    {
        self.texts.len()
    }
}
