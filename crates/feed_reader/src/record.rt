//! The one record of a line, by a reader of `csv`. It builds its tables anew for each line, so a line whose fields are
//! bare or stand whole in quotes is not read by it.
ghost use Rattle.std.specs.Prelude.{◌≡◌, ◌<◌, [], IfOk, Some, false, get_or, length, option_map};
ghost use Rattle.csv.specs.Records.{fields_of};
ghost use Rattle.feed_reader.specs.Records.{IsReaderOf, begins_with_mark, record_of};

use csv::{ByteRecord, Reader, ReaderBuilder};
use std::alloc::Global;
use texts::NoMemory;

// A reader that has yet to read the line.
fn reader(alloc: Global, line: &[u8]) -> Reader<&[u8]>
    ensures { IsReaderOf (λ rest. Some rest.now) result line.now }
{
    ReaderBuilder::new()
        .has_headers(false)
        .flexible(true)
        .from_reader(alloc, line)
}

/// The record of a line that has no mark at its start and is exactly one.
pub(crate) fn one_record(alloc: Global, line: &[u8]) -> Result<Option<ByteRecord>, NoMemory>
    requires { begins_with_mark line.now ≡ false }
    ensures { IfOk result (λ found. option_map fields_of found ≡ record_of line.now) }
{
    let mut reader = reader(alloc, line);
    let mut row = ByteRecord::new(alloc);
    let Ok(found) = reader.read_byte_record(&mut row) else {
        return Err(NoMemory);
    };
    if !found {
        return Ok(None);
    }
    let mut further = ByteRecord::new(alloc);
    let Ok(more) = reader.read_byte_record(&mut further) else {
        return Err(NoMemory);
    };
    if more { Ok(None) } else { Ok(Some(row)) }
}

/// The field of a record at a place, from 0.
pub(crate) fn field_of(row: &ByteRecord, place: usize) -> &[u8]
    requires { place < length (fields_of row.now) }
    ensures { result.now ≡ get_or (fields_of row.now) place [] }
{
    match row.get(place) {
        Some(field) => field,
        None => unreachable!(),
    }
}
