//! Bytes of a run's replies, read on to the end of a line.
ghost use Rattle.std.specs.Prelude.{◌≡◌, ◌==◌, Ok, true, false, position, IfOk, OnOk};
ghost use Rattle.outer_io.specs.Bytes.{Adds, IsAtEnd};
ghost use Rattle.outer_io.specs.Faults.{HasCause};
ghost use Rattle.outer_io.specs.Told.{Told};
ghost use Rattle.texts.specs.LineFeeds.{NoFeed};
ghost use Rattle.live_sums.specs.Rests.{KeepsRest, held_and_left};

use outer_io::{CutFault, Source};
use texts::put;

/// The most bytes that are asked for at once.
const CHUNK_LEN: usize = 4096;

/// The most bytes that a reply has.
const LONGEST_REPLY: usize = 1 << 30;

/// Where the first line feed is.
fn line_feed(bytes: &[u8]) -> Option<usize>
    ensures { result ≡ position (λ b. b == 10) bytes.now }
{
    bytes.iter().position(|b| *b == b'\n')
}

/// Whether a line feed is among the bytes.
fn has_feed(bytes: &[u8]) -> bool
    ensures there { result ≡ true → ¬ NoFeed bytes.now }
    ensures none { result ≡ false → NoFeed bytes.now }
{
    line_feed(bytes).is_some()
}

/// Adds what one read gives at the end, and says how many bytes there were.
fn read_more<S: Source>(source: &mut S, held: &mut Vec<u8>) -> Result<usize, CutFault>
    ensures more { IfOk result (Adds (S.left source.old) (S.left source.new) held.old.items held.new.items) }
    ensures end { IfOk result (λ n. n ≡ 0 → IsAtEnd (S.left source.old)) }
    ensures cause { HasCause (S.faults source.old) (S.faults source.new) result CutFault.Read }
{
    let mut chunk = [0u8; CHUNK_LEN];
    let Ok(n) = source.read(&mut chunk) else {
        return Err(CutFault::Read);
    };
    put(held, &chunk[..n])?;
    Ok(n)
}

/// Reads on until a line feed is held, and says whether there is one: where there is none, the source has ended. A line
/// of more than 2^30 bytes is too much.
pub(crate) fn read_line<S: Source>(source: &mut S, held: &mut Vec<u8>) -> Result<bool, CutFault>
    ensures keeps { OnOk result (KeepsRest (held_and_left S.left source.old held.old.items) (held_and_left S.left source.new held.new.items)) }
    ensures line { result ≡ Ok true → ¬ NoFeed held.new.items }
    ensures ended { result ≡ Ok false → NoFeed held.new.items × Told (held_and_left S.left source.old held.old.items) (λ rest. rest ≡ held.new.items) }
    ensures cause { HasCause (S.faults source.old) (S.faults source.new) result CutFault.Read }
{
    if has_feed(held.as_slice()) {
        return Ok(true);
    }
    'reads: loop {
        let from = held.len();
        if from > LONGEST_REPLY {
            return Err(CutFault::TooMuch);
        }
        let n = read_more(source, held)?;
        if n == 0 {
            return Ok(false);
        }
        if has_feed(&held.as_slice()[from..]) {
            return Ok(true);
        }
    }
}
