//! The fields of a regular line: each is bare, without a quote, a carriage return or a line feed in it, or stands whole
//! in quotes without a quote inside. Such a line is one record, whose fields are parts of it. All other lines are left
//! to `folded` and `record`.
ghost use Rattle.std.specs.Prelude.{◌≡◌, ◌∷◌, ◌==◌, IfOk, IfSome, Some, position};
ghost use Rattle.csv.specs.Reading.{default_config, records};
ghost use Rattle.feed_reader.specs.Records.{only};
ghost use Rattle.feed_reader.specs.Regular.{IsFront, begins_record, stops_field};

use crate::line_parts::LineParts;
use std::alloc::Global;
use texts::NoMemory;

/// What comes after a field: a comma and the bytes of further fields, or the end of the line.
#[derive(Clone, Copy)]
pub(crate) enum After<'a> {
    Field(&'a [u8]),
    End,
}

/// A field at the front of bytes, and what comes after it.
#[derive(Clone, Copy)]
pub(crate) struct Front<'a> {
    pub(crate) text: &'a [u8],
    pub(crate) after: After<'a>,
}

// Where the first byte is that no bare field holds, if there is one.
fn field_end(bytes: &[u8]) -> Option<usize>
    ensures { result ≡ position stops_field bytes.now }
{
    bytes
        .iter()
        .position(|byte| matches!(*byte, b',' | b'"' | b'\r' | b'\n'))
}

/// Where the first quote is.
pub(crate) fn first_quote(bytes: &[u8]) -> Option<usize>
    ensures { result ≡ position (λ b. b == 34) bytes.now }
{
    bytes.iter().position(|byte| *byte == b'"')
}

/// A bare field at the front, up to a comma or to the end of the bytes.
pub(crate) fn bare_field(bytes: &[u8]) -> Option<Front<'_>>
    ensures { IfSome result (IsFront bytes.now) }
{
    match field_end(bytes) {
        None => Some(Front {
            text: bytes,
            after: After::End,
        }),
        Some(n) if bytes[n] == b',' => Some(Front {
            text: &bytes[..n],
            after: After::Field(&bytes[n + 1..]),
        }),
        Some(_) => None,
    }
}

/// What comes after a comma at the front, if there is one.
pub(crate) fn after_comma(bytes: &[u8]) -> Option<&[u8]>
    ensures { IfSome result (λ rest. bytes.now ≡ 44 ∷ rest.now) }
{
    match bytes {
        [b',', rest @ ..] => Some(rest),
        _ => None,
    }
}

/// What comes after a quote at the front, if there is one.
pub(crate) fn after_quote(bytes: &[u8]) -> Option<&[u8]>
    ensures { IfSome result (λ rest. bytes.now ≡ 34 ∷ rest.now) }
{
    match bytes {
        [b'"', rest @ ..] => Some(rest),
        _ => None,
    }
}

// A field after its opening quote, where a comma or the end of the bytes follows the next quote.
fn quoted_field(bytes: &[u8]) -> Option<Front<'_>>
    ensures { IfSome result (IsFront (34 ∷ bytes.now)) }
{
    let n = first_quote(bytes)?;
    let (text, rest) = (&bytes[..n], &bytes[n + 1..]);
    if rest.is_empty() {
        return Some(Front {
            text,
            after: After::End,
        });
    }
    let further = after_comma(rest)?;
    Some(Front {
        text,
        after: After::Field(further),
    })
}

// The field at the front, if it is one of a regular line.
fn first_field(bytes: &[u8]) -> Option<Front<'_>>
    ensures { IfSome result (IsFront bytes.now) }
{
    match after_quote(bytes) {
        Some(quoted) => quoted_field(quoted),
        None => bare_field(bytes),
    }
}

/// Whether the bytes begin with one that begins a record.
pub(crate) fn begins_record(bytes: &[u8]) -> bool
    ensures { result ≡ begins_record bytes.now }
{
    match bytes {
        [first, ..] => *first != b'\r' && *first != b'\n',
        [] => false,
    }
}

/// The fields of a regular line. None where it is not regular, of which nothing is said.
pub(crate) fn regular_fields<'a>(
    alloc: Global,
    line: &'a [u8],
) -> Result<Option<LineParts<'a>>, NoMemory>
    ensures { IfOk result (λ found. IfSome found (λ parts. only (records default_config line.now) ≡ Some parts)) }
{
    if !begins_record(line) {
        return Ok(None);
    }
    let mut parts = LineParts::new(alloc)?;
    let mut left = line;
    while let Some(Front { text, after }) = first_field(left) {
        parts.add(text)?;
        match after {
            After::Field(rest) => left = rest,
            After::End => return Ok(Some(parts)),
        }
    }
    Ok(None)
}
