//! The fields of a line, where it is one record.
ghost use Rattle.std.specs.Prelude.{◌≡◌, ◌<◌, [], IfOk, false, get_or, length};
ghost use Rattle.feed_reader.specs.Headers.{count_named, place_in};
ghost use Rattle.feed_reader.specs.Records.{begins_with_mark, record_of};
ghost use Rattle.feed_reader.specs.Rows.{is_short};

use crate::folded::folded_record;
use crate::held::Held;
use crate::line_parts::LineParts;
use crate::record::{field_of, one_record};
use crate::regular::regular_fields;
use cube_view::is_same_text;
use std::alloc::Global;
use std::marker::Model;
use texts::NoMemory;

/// The fields of a line, seen as the list of their bytes.
#[derive(Drop)]
pub(crate) struct Fields<'a> {
    held: Held<'a>,
}

impl<'a> Model for Fields<'a> {
    ghost use Rattle.std.specs.Prelude.{List, ℕ};
    ghost use Rattle.feed_reader.specs.Held.{texts_of};

    ghost Value = { List (List ℕ) };

    ghost view = { λ fields. texts_of fields.held };
}

// Whether the bytes begin with a byte order mark, which `csv` would pass over.
fn begins_with_mark(line: &[u8]) -> bool
    ensures { result ≡ begins_with_mark line.now }
{
    match line {
        [a, b, c, ..] => *a == 0xEF && *b == 0xBB && *c == 0xBF,
        _ => false,
    }
}

impl<'a> Fields<'a> {
    /// The fields that are these parts.
    pub(crate) fn of_parts(parts: LineParts<'a>) -> Fields<'a>
        ensures { result ≡ parts.entry }
    {
        Fields {
            held: Held::Parts(parts),
        }
    }

    /// The fields of a line that has no mark at its start and is exactly one record.
    pub(crate) fn read(alloc: Global, line: &'a [u8]) -> Result<Option<Fields<'a>>, NoMemory>
        ensures { IfOk result (λ found. found ≡ record_of line.now) }
    {
        if begins_with_mark(line) {
            return Ok(None);
        }
        match regular_fields(alloc, line)? {
            Some(parts) => Ok(Some(Fields::of_parts(parts))),
            None => Fields::read_irregular(alloc, line),
        }
    }

    // The same of a line that is not regular, whose fields are copied.
    fn read_irregular(alloc: Global, line: &[u8]) -> Result<Option<Fields<'a>>, NoMemory>
        requires { begins_with_mark line.now ≡ false }
        ensures { IfOk result (λ found. found ≡ record_of line.now) }
    {
        match folded_record(alloc, line)? {
            Some(row) => Ok(Some(Fields {
                held: Held::Record(row),
            })),
            None => Fields::read_record(alloc, line),
        }
    }

    /// The same, always as a reader of `csv` reads the line.
    pub(crate) fn read_record(alloc: Global, line: &[u8]) -> Result<Option<Fields<'a>>, NoMemory>
        ensures { IfOk result (λ found. found ≡ record_of line.now) }
    {
        if begins_with_mark(line) {
            return Ok(None);
        }
        match one_record(alloc, line)? {
            Some(row) => Ok(Some(Fields {
                held: Held::Record(row),
            })),
            None => Ok(None),
        }
    }

    /// The field at a place, from 0.
    pub(crate) fn field(&self, place: usize) -> &[u8]
        requires { place < length self.now }
        ensures { result.now ≡ get_or self.now place [] }
    {
        match &self.held {
            Held::Parts(parts) => parts.part(place),
            Held::Record(row) => field_of(row, place),
        }
    }

    /// How many fields there are.
    fn len(&self) -> usize
        ensures { result ≡ length self.now }
    {
        match &self.held {
            Held::Parts(parts) => parts.len(),
            Held::Record(row) => row.len(),
        }
    }

    /// How many fields are the name.
    pub(crate) fn count(&self, name: &[u8]) -> usize
        ensures { result ≡ count_named self.now name.now }
    {
        let mut count = 0;
        for place in 0..self.len() {
            if is_same_text(name, self.field(place)) {
                count += 1;
            }
        }
        count
    }

    /// The place of the first field that is the name, or the number of fields.
    pub(crate) fn place(&self, name: &[u8]) -> usize
        ensures { result ≡ place_in self.now name.now }
    {
        let count = self.len();
        for place in 0..count {
            if is_same_text(name, self.field(place)) {
                return place;
            }
        }
        count
    }

    /// Whether one of the places is past the last field.
    pub(crate) fn is_short(&self, places: &[usize]) -> bool
        ensures { result ≡ is_short places.now self.now }
    {
        let count = self.len();
        for place in places {
            if count <= *place {
                return true;
            }
        }
        false
    }
}
