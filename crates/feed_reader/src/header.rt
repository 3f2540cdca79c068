//! Headers: in which column of a feed each part of a record stands.
ghost use Rattle.std.specs.Prelude.{◌≡◌, ◌≢◌, ◌<◌, IfOk, IfErr, IfSome, position, Ok, Err, Some, [], length, map, get_or, nat_lt, ◌==◌};
ghost use Rattle.feed_reader.specs.Columns.{further_names, needed_names, needed_count, further_column, column_at};
ghost use Rattle.feed_reader.specs.Headers.{column_fault, counts_named, head_of, place_in};
ghost use Rattle.feed_reader.specs.Rows.{row_of, row_of_record, IsValidRow};

use crate::fields::Fields;
use crate::row::row_of_record;
use crate::{Column, Row, RowFault};
use cube_view::Schema;
use ghost_values::GhostValue;
use std::alloc::Global;
use std::marker::Model;
use texts::{List, NoMemory};

/// Why a line is no header.
#[derive(Clone, Copy, PartialEq, Eq, Debug)]
pub enum HeadFault {
    BadRow,
    NoColumn(Column),
    TwoColumns(Column),
    NoMemory,
}

impl From<NoMemory> for HeadFault {
    ghost use Rattle.feed_reader.specs.declared.header.HeadFault.TheVariants as fault;

    ghost from_gives = { λ _ e. e ≡ fault.NoMemory };

    fn from(_fault: NoMemory) -> HeadFault {
        HeadFault::NoMemory
    }
}

/// The place of each needed column in a line, from 0, under the schema that the header was read with.
#[derive(Drop)]
pub struct Header {
    places: List<usize>,
    schema: GhostValue<Schema>,
}

impl Model for Header {
    ghost use Rattle.std.specs.Prelude.{◌≡◌, length};
    ghost use Rattle.feed_reader.specs.Columns.{needed_count};
    ghost use Rattle.feed_reader.specs.Headings.{Heading};

    ghost Value = { Heading };

    ghost view = { λ header. record { schema = header.schema.value; places = header.places } };

    ghost invariant = { λ header. length header.places ≡ needed_count header.schema.value };
}

// How many columns are needed.
fn needed_count(schema: &Schema) -> usize
    ensures count { result ≡ needed_count schema.now }
    ensures few { result < 9 }
{
    match &schema.weight {
        Some(_) => 4 + schema.categories.len(),
        None => 3 + schema.categories.len(),
    }
}

// The needed column at a place after time, from 0.
fn further_column(schema: &Schema, place: usize) -> Column
    requires { place < 6 }
    ensures { result ≡ further_column schema.now.weight place }
{
    match (&schema.weight, place) {
        (Some(_), 0) => Column::Weight,
        (Some(_), _) => Column::Category((place - 1) as u8),
        (None, _) => Column::Category(place as u8),
    }
}

// The needed column at a place in their order.
fn column_at(schema: &Schema, place: usize) -> Column
    requires { place < 9 }
    ensures { result ≡ column_at schema.now place }
{
    match place {
        0 => Column::X,
        1 => Column::Y,
        2 => Column::Time,
        _ => further_column(schema, place - 3),
    }
}

// The name of the needed column at a place after time, from 0.
fn further_name(schema: &Schema, place: usize) -> &[u8]
    requires { place < length (further_names schema.now) }
    ensures { result.now ≡ get_or (further_names schema.now) place [] }
{
    match (&schema.weight, place) {
        (Some(name), 0) => name.as_str().as_bytes(),
        (Some(_), _) => schema.categories.get(place - 1).name.as_str().as_bytes(),
        (None, _) => schema.categories.get(place).name.as_str().as_bytes(),
    }
}

// The name of the needed column at a place in their order.
fn needed_name(schema: &Schema, place: usize) -> &[u8]
    requires { place < needed_count schema.now }
    ensures { result.now ≡ get_or (needed_names schema.now) place [] }
{
    match place {
        0 => b"x",
        1 => b"y",
        2 => b"time",
        _ => further_name(schema, place - 3),
    }
}

// How many fields each needed column's name is.
fn counts(alloc: Global, schema: &Schema, fields: &Fields<'_>) -> Result<List<usize>, NoMemory>
    ensures { IfOk result (λ counts. counts ≡ counts_named schema.now fields.now) }
{
    let mut counts = List::new(alloc);
    for place in 0..needed_count(schema) {
        counts.add(fields.count(needed_name(schema, place)))?;
    }
    Ok(counts)
}

// The first place of a 0.
fn first_absent(counts: &[usize]) -> Option<usize>
    ensures place { result ≡ position (λ count. count == 0) counts.now }
    ensures within { IfSome result (λ place. place < length counts.now) }
{
    counts.iter().position(|count| *count == 0)
}

// The first place of a number over 1.
fn first_repeated(counts: &[usize]) -> Option<usize>
    ensures place { result ≡ position (λ count. nat_lt 1 count) counts.now }
    ensures within { IfSome result (λ place. place < length counts.now) }
{
    counts.iter().position(|count| *count > 1)
}

// The fault of a header in which so many fields are the name of each needed column, if it has one.
fn column_fault(schema: &Schema, counts: &[usize]) -> Option<HeadFault>
    requires { length counts.now < 9 }
    ensures { result ≡ column_fault schema.now counts.now }
{
    if let Some(place) = first_absent(counts) {
        return Some(HeadFault::NoColumn(column_at(schema, place)));
    }
    first_repeated(counts).map(|place| HeadFault::TwoColumns(column_at(schema, place)))
}

// The place of each needed column in the line.
fn places(alloc: Global, schema: &Schema, fields: &Fields<'_>) -> Result<List<usize>, NoMemory>
    ensures { IfOk result (λ places. places ≡ map (place_in fields.now) (needed_names schema.now)) }
{
    let mut places = List::new(alloc);
    for place in 0..needed_count(schema) {
        places.add(fields.place(needed_name(schema, place)))?;
    }
    Ok(places)
}

impl Header {
    /// The header that a line is. After `NoMemory` nothing is said of the line.
    pub fn read(alloc: Global, schema: &Schema, line: &[u8]) -> Result<Header, HeadFault>
        ensures places { IfOk result (λ header. head_of schema.now line.now ≡ Ok header.places) }
        ensures schema { IfOk result (λ header. header.schema ≡ schema.now) }
        ensures fault { IfErr result (λ fault. fault ≢ HeadFault.NoMemory → head_of schema.now line.now ≡ Err fault) }
    {
        let Some(fields) = Fields::read_record(alloc, line)? else {
            return Err(HeadFault::BadRow);
        };
        let counts = counts(alloc, schema, &fields)?;
        if let Some(fault) = column_fault(schema, counts.as_slice()) {
            return Err(fault);
        }
        Ok(Header {
            places: places(alloc, schema, &fields)?,
            schema: GhostValue::of(schema),
        })
    }

    /// What a line after the header is. It keeps nothing between lines.
    pub fn row(&self, alloc: Global, schema: &Schema, line: &[u8]) -> Result<Row, NoMemory>
        requires { self.now.schema ≡ schema.now }
        ensures meaning { IfOk result (λ row. row ≡ row_of schema.now self.now.places line.now) }
        ensures valid { IfOk result (IsValidRow schema.now) }
    {
        if line.is_empty() {
            return Ok(Row::Blank);
        }
        match Fields::read(alloc, line)? {
            Some(fields) => Ok(row_of_record(schema, self.places.as_slice(), &fields)),
            None => Ok(Row::Refused(RowFault::BadRow)),
        }
    }
}
