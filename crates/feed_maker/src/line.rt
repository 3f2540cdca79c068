//! A line of the feed, kept in a fixed place so that it takes no memory.
ghost use Rattle.std.specs.Prelude.{◌≡◌, ◌+◌, ◌<◌, ◌≤◌, ◌^◌, ◌∷◌, [], ◌++◌, length, Some, slice_get};
ghost use Rattle.std.specs.Fmt.{decimal};
ghost use Rattle.feed_maker.specs.GeneratedFeed.{generated_columns};

use std::marker::Model;

/// At most 17 bytes, which is what the longest row has.
#[derive(Drop)]
pub(crate) struct Line {
    bytes: [u8; 17],
    len: usize,
}

impl Model for Line {
    ghost use Rattle.std.specs.Prelude.{ℕ, ◌≤◌, List, take};

    ghost Value = { List ℕ };

    ghost view = { λ l. take l.len l.bytes };

    ghost invariant = { λ l. l.len ≤ 17 };
}

impl Line {
    /// A line without bytes.
    pub(crate) fn new() -> Line
        ensures { result ≡ [] }
    {
        Line {
            bytes: [0; 17],
            len: 0,
        }
    }

    /// The names of the columns, with a line feed.
    pub(crate) fn header() -> Line
        ensures { result ≡ generated_columns ++ 10 ∷ [] }
    {
        Line {
            bytes: *b"x,y,kind,time\n\0\0\0",
            len: 14,
        }
    }

    /// How many bytes it has.
    pub(crate) fn len(&self) -> usize
        ensures { result ≡ length self.now }
    {
        self.len
    }

    /// The byte in this place.
    pub(crate) fn byte(&self, i: usize) -> u8
        requires { i < length self.now }
        ensures { slice_get self.now i ≡ Some result }
    {
        self.bytes[i]
    }

    /// Adds the byte at the end.
    pub(crate) fn push(&mut self, byte: u8)
        requires { length self.old < 17 }
        ensures { self.new ≡ self.old ++ byte ∷ [] }
    {
        self.bytes[self.len] = byte;
        self.len += 1;
    }

    /// Adds the number's digits at the end.
    #[tactic(auto, using(std::proofs::lemmas::Fmt::decimal_digit, std::proofs::lemmas::Fmt::decimal_step, std::proofs::lemmas::Grind::common_steps))]
    pub(crate) fn push_decimal(&mut self, number: u64)
        requires { length self.old + length (decimal number) ≤ 17 }
        ensures { self.new ≡ self.old ++ decimal number }
    {
        if number < 10 {
            self.push(b'0' + number as u8);
        } else {
            self.push_decimal(number / 10);
            self.push(b'0' + (number % 10) as u8);
        }
    }
}
