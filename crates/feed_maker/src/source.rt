//! The feed as a source.
ghost use Rattle.std.specs.Prelude.{◌≡◌, ◌+◌, ◌*◌, ◌<◌, ◌≤◌, ◌∷◌, [], min, length, drop, IfOk, IsOk, MatchOption};
ghost use Rattle.texts.specs.LineFeeds.{pieces};
ghost use Rattle.outer_io.specs.Memory.{filled};
ghost use Rattle.feed_maker.specs.GeneratedFeed.{generated_columns, generated_rows, generated_feed};

use crate::line::Line;
use crate::rest::Rest;
use crate::rows::{next_state, row_of};
use outer_io::{Failed, Source};
use std::marker::Model;

/// The bytes of a generated feed that are not yet taken. It takes no memory, and no read of it fails.
#[derive(Drop)]
pub struct GenSource {
    line: Rest,
    state: u64,
    rows: u32,
}

impl Model for GenSource {
    ghost use Rattle.std.specs.Prelude.{ℕ, List, ◌++◌};
    ghost use Rattle.feed_maker.specs.GeneratedFeed.{generated_rows};

    ghost Value = { List ℕ };

    ghost view = { λ s. s.line ++ generated_rows s.state s.rows };
}

impl GenSource {
    /// A source of a header and then `rows` rows. Each row takes one step of the generator, which begins in `state`.
    pub fn new(state: u64, rows: u32) -> GenSource
        ensures feed { result ≡ generated_feed state rows }
        ensures short { length result ≤ 14 + 17 * rows }
        ensures header { pieces result ≡ generated_columns ∷ pieces (generated_rows state rows) }
    {
        GenSource {
            line: Rest::of(Line::header()),
            state,
            rows,
        }
    }

    // Takes the next byte, if there is one.
    fn next_byte(&mut self) -> Option<u8>
        ensures { MatchOption result ((self.old ≡ []) × (self.new ≡ [])) (λ byte. self.old ≡ byte ∷ self.new) }
    {
        if let Some(byte) = self.line.next_byte() {
            return Some(byte);
        }
        if self.rows == 0 {
            return None;
        }
        self.rows -= 1;
        self.state = next_state(self.state);
        self.line = Rest::of(row_of(self.state));
        self.line.next_byte()
    }
}

impl Source for GenSource {
    ghost use Rattle.std.specs.Prelude.{Some};

    ghost left = { λ s. Some s };

    ghost faults = { λ _. 0 };

    fn read(&mut self, buf: &mut [u8]) -> Result<usize, Failed>
        requires room { 0 < length buf.old }
        ensures given { IfOk result (λ n. n ≡ min (length buf.old) (length self.old)) }
        ensures buffer { IfOk result (λ n. buf.new ≡ filled buf.old self.old n) }
        ensures rest { IfOk result (λ n. self.new ≡ drop n self.old) }
        ensures succeeds { IsOk result }
    {
        for (i, slot) in buf.iter_mut().enumerate() {
            match self.next_byte() {
                Some(byte) => *slot = byte,
                None => return Ok(i),
            }
        }
        Ok(buf.len())
    }
}
