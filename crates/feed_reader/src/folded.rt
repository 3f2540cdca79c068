//! The record of a line whose fields are bare or stand whole in quotes, where a quote inside is doubled. Its fields are
//! copied, a doubled quote as one. All stranger lines are left to `record`.
ghost use Rattle.std.specs.Prelude.{◌≡◌, ◌∷◌, [], IfOk, IfSome, Some};
ghost use Rattle.csv.specs.Reading.{default_config, records};
ghost use Rattle.csv.specs.Records.{fields_of, partial_of};
ghost use Rattle.feed_reader.specs.Records.{only};
ghost use Rattle.feed_reader.specs.Regular.{ReadsField, TakesFront};

use crate::regular::{After, after_comma, after_quote, bare_field, begins_record, first_quote};
use csv::ByteRecord;
use std::alloc::Global;
use texts::{NoMemory, put, put_byte};

// Puts the text of a field after its opening quote, and gives what comes after the field. None where something else
// than a comma, a quote or the end of the bytes follows a quote, or no quote comes.
fn put_quoted<'a>(bytes: &'a [u8], text: &mut Vec<u8>) -> Result<Option<After<'a>>, NoMemory>
    requires { text.old.items ≡ [] }
    ensures { IfOk result (λ found. IfSome found (ReadsField (34 ∷ bytes.now) text.new.items)) }
{
    let mut left = bytes;
    while let Some(n) = first_quote(left) {
        put(text, &left[..n])?;
        let rest = &left[n + 1..];
        if rest.is_empty() {
            return Ok(Some(After::End));
        }
        if let Some(further) = after_comma(rest) {
            return Ok(Some(After::Field(further)));
        }
        let Some(doubled) = after_quote(rest) else {
            return Ok(None);
        };
        put_byte(text, b'"')?;
        left = doubled;
    }
    Ok(None)
}

// Adds the field at the front of bytes to a record, and gives what comes after it. The text has room for a field in
// quotes.
fn take_front<'a>(
    bytes: &'a [u8],
    text: &mut Vec<u8>,
    row: &mut ByteRecord,
) -> Result<Option<After<'a>>, NoMemory>
    requires { partial_of row.old ≡ [] }
    ensures { IfOk result (λ found. IfSome found (TakesFront bytes.now row.old row.new)) }
{
    match after_quote(bytes) {
        Some(quoted) => {
            text.clear();
            let Some(after) = put_quoted(quoted, text)? else {
                return Ok(None);
            };
            row.push_field(text)?;
            Ok(Some(after))
        }
        None => {
            let Some(front) = bare_field(bytes) else {
                return Ok(None);
            };
            row.push_field(front.text)?;
            Ok(Some(front.after))
        }
    }
}

/// The record of a line whose fields are bare or in quotes. None where one is neither, of which nothing is said.
pub(crate) fn folded_record(alloc: Global, line: &[u8]) -> Result<Option<ByteRecord>, NoMemory>
    ensures { IfOk result (λ found. IfSome found (λ row. only (records default_config line.now) ≡ Some (fields_of row))) }
{
    if !begins_record(line) {
        return Ok(None);
    }
    let mut row = ByteRecord::new(alloc);
    let mut text = Vec::new(alloc);
    let mut left = line;
    while let Some(after) = take_front(left, &mut text, &mut row)? {
        match after {
            After::Field(rest) => left = rest,
            After::End => return Ok(Some(row)),
        }
    }
    Ok(None)
}
