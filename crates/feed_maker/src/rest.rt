//! What is left of a line.
ghost use Rattle.std.specs.Prelude.{◌≡◌, ◌∷◌, [], MatchOption};

use crate::line::Line;
use std::marker::Model;

/// The bytes of a line that are not yet taken.
#[derive(Drop)]
pub(crate) struct Rest {
    line: Line,
    taken: usize,
}

impl Model for Rest {
    ghost use Rattle.std.specs.Prelude.{ℕ, ◌≤◌, List, length, drop};

    ghost Value = { List ℕ };

    ghost view = { λ r. drop r.taken r.line };

    ghost invariant = { λ r. r.taken ≤ length r.line };
}

impl Rest {
    /// All of the line.
    pub(crate) fn of(line: Line) -> Rest
        ensures { result ≡ line }
    {
        Rest { line, taken: 0 }
    }

    /// Takes the next byte, if there is one.
    pub(crate) fn next_byte(&mut self) -> Option<u8>
        ensures { MatchOption result ((self.old ≡ []) × (self.new ≡ [])) (λ byte. self.old ≡ byte ∷ self.new) }
    {
        if self.taken == self.line.len() {
            return None;
        }
        let byte = self.line.byte(self.taken);
        self.taken += 1;
        Some(byte)
    }
}
