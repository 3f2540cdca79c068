//! The rows of the feed, each from a state of the generator.
ghost use Rattle.std.specs.Prelude.{◌≡◌};
ghost use Rattle.feed_maker.specs.GeneratedFeed.{next_state, generated_row};

use crate::line::Line;

/// The generator's state after this one.
pub(crate) fn next_state(state: u64) -> u64
    ensures { result ≡ next_state state }
{
    state
        .wrapping_mul(6364136223846793005)
        .wrapping_add(1442695040888963407)
}

/// The row of the state, with a line feed.
#[tactic(auto, using(crate::proofs::Feeds::few_digits, std::proofs::lemmas::Grind::common_steps))]
pub(crate) fn row_of(state: u64) -> Line
    ensures { result ≡ generated_row state }
{
    let mut line = Line::new();
    line.push_decimal(state >> 54);
    line.push(b',');
    line.push_decimal((state >> 44) % 1024);
    line.push(b',');
    line.push(b'a' + ((state >> 42) % 4) as u8);
    line.push(b',');
    line.push_decimal((state >> 32) % 1024);
    line.push(b'\n');
    line
}
