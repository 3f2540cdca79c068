//! Words of a line, and pieces of a word.
ghost use Rattle.std.specs.Prelude.{◌≡◌, ◌≢◌, ℕ, ◌+◌, ◌<◌, ◌≤◌, ◌++◌, [], ◌∷◌, false, length, take, drop, filter, IfSome, IfNone};
ghost use Rattle.std.specs.Str.{bytes_eq};
ghost use Rattle.std.specs.Option.{option_copied};
ghost use Rattle.query_syntax.specs.Reading.{GivesRead, word_at};
ghost use Rattle.query_syntax.specs.Words.{quote, cut_pieces, pieces_from, pieces_after, words, is_some_text};

use crate::fault::{QueryFault, WordFault};

/// The same as [`piece_len`], of bytes that may have quotes.
fn quoted_piece_len(bytes: &[u8], mark: u8) -> usize
    ensures within { result ≤ length bytes.now }
    ensures whole { result ≡ length bytes.now → cut_pieces mark bytes.now ≡ bytes.now ∷ [] }
    ensures cut { result < length bytes.now → cut_pieces mark bytes.now ≡ take result bytes.now ∷ cut_pieces mark (drop (result + 1) bytes.now) }
{
    let mut quoted = false;
    for (i, &b) in bytes.iter().enumerate() {
        if b == mark && !quoted {
            return i;
        }
        if b == b'"' {
            quoted = !quoted;
        }
    }
    bytes.len()
}

/// Whether the byte may be the mark or a quote. Where the mark is a space one test says so, since most bytes of a line
/// come behind the quote.
fn may_end(byte: u8, mark: u8) -> bool
    ensures { result ≡ false → (byte ≢ mark) × (byte ≢ quote) }
{
    byte <= b'"' || byte == mark
}

/// Where the first of the pieces ends that the mark cuts outside quotes. Most pieces have no quote: up to the first one
/// each byte takes a single test.
fn piece_len(bytes: &[u8], mark: u8) -> usize
    ensures within { result ≤ length bytes.now }
    ensures whole { result ≡ length bytes.now → cut_pieces mark bytes.now ≡ bytes.now ∷ [] }
    ensures cut { result < length bytes.now → cut_pieces mark bytes.now ≡ take result bytes.now ∷ cut_pieces mark (drop (result + 1) bytes.now) }
{
    for (i, &b) in bytes.iter().enumerate() {
        if may_end(b, mark) {
            if b == mark {
                return i;
            }
            if b == b'"' {
                return quoted_piece_len(bytes, mark);
            }
        }
    }
    bytes.len()
}

/// The first of the pieces that the mark cuts outside quotes, and what comes after the mark that ends it.
pub fn next_piece(bytes: &[u8], mark: u8) -> (&[u8], Option<&[u8]>)
    ensures pieces { cut_pieces mark bytes.now ≡ result.0.now ∷ pieces_after mark (option_copied result.1) }
    ensures shorter { IfSome result.1 (λ rest. length rest.now < length bytes.now) }
{
    let len = piece_len(bytes, mark);
    let piece = &bytes[..len];
    if len == bytes.len() {
        (piece, None)
    } else {
        (piece, Some(&bytes[len + 1..]))
    }
}

/// The first word of the line and what comes after it, if there is a word.
pub fn next_word(line: &[u8]) -> Option<(&[u8], &[u8])>
    ensures some { IfSome result (λ found. words line.now ≡ found.0.now ∷ words found.1.now) }
    ensures none { IfNone result (words line.now ≡ []) }
{
    let mut rest = line;
    loop {
        let (piece, after) = next_piece(rest, b' ');
        match after {
            Some(after) => {
                if !piece.is_empty() {
                    return Some((piece, after));
                }
                rest = after;
            }
            None => return last_word(piece),
        }
    }
}

/// The piece, if it is a word.
#[tactic(auto, unfolding(crate::specs::Words::words, crate::specs::Words::cut_pieces))]
fn last_word(piece: &[u8]) -> Option<(&[u8], &[u8])>
    ensures some { IfSome result (λ found. filter is_some_text (piece.now ∷ []) ≡ found.0.now ∷ words found.1.now) }
    ensures none { IfNone result (filter is_some_text (piece.now ∷ []) ≡ []) }
{
    if piece.is_empty() {
        None
    } else {
        Some((piece, &[]))
    }
}

/// The first word of the line, which has the number, and what comes after it.
pub fn word_of(line: &[u8], number: u32) -> Result<(&[u8], &[u8]), WordFault>
    ensures { GivesRead (λ x. (x.0.now, words x.1.now)) result (word_at number (words line.now)) }
{
    match next_word(line) {
        Some(found) => Ok(found),
        None => Err(WordFault::at(QueryFault::MissingWord, number)),
    }
}

/// Whether the word is that text.
pub fn is_text(word: &[u8], text: &str) -> bool
    ensures { result ≡ bytes_eq word.now text.now }
{
    word == text.as_bytes()
}
