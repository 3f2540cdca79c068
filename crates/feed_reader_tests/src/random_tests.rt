//! Rows beside `csv`'s own reader.
ghost use Rattle.std.specs.Prelude.{◌≡◌};

use csv::{ByteRecord, ReaderBuilder};
use cube_view::Schema;
use example_schemas::schema_of_kinds;
use feed_reader::{Header, Row, RowFault};
use std::alloc::{AllocError, Global};
use std::test::Fail;

/// What random lines are made of, with a comma after most.
const PIECES: [&[u8]; 16] = [
    b"0",
    b"3",
    b"7",
    b"1",
    b"a",
    b"b",
    b"a",
    b"b",
    b"\"a\"",
    b"\"5\"",
    b"\"b\"",
    b"\"",
    b"\"\"",
    b" ",
    b"\r",
    b"\xC3\xA9",
];

/// Numbers of a linear congruence.
#[derive(Drop)]
struct Random {
    state: u64,
}

impl Random {
    fn next(&mut self) -> u64 {
        self.state = self
            .state
            .wrapping_mul(6_364_136_223_846_793_005)
            .wrapping_add(1_442_695_040_888_963_407);
        self.state >> 33
    }
}

/// A line of at most nine pieces.
fn random_line(alloc: Global, random: &mut Random) -> Result<Vec<u8>, AllocError> {
    let mut line = Vec::new(alloc);
    for _ in 0..random.next() % 10 {
        line.extend_from_slice(PIECES[(random.next() % 16) as usize])?;
        if random.next() % 8 > 0 {
            line.push(b',')?;
        }
    }
    Ok(line)
}

/// Adds the field in quotes, each quote in it twice.
fn add_quoted(line: &mut Vec<u8>, field: &[u8]) -> Result<(), AllocError> {
    line.push(b'"')?;
    for &byte in field {
        if byte == b'"' {
            line.push(b'"')?;
        }
        line.push(byte)?;
    }
    line.push(b'"')?;
    Ok(())
}

/// A line whose fields are the record's, each in quotes.
fn quoted_line(alloc: Global, record: &ByteRecord) -> Result<Vec<u8>, AllocError> {
    let mut line = Vec::new(alloc);
    for (i, field) in record.iter().enumerate() {
        if i > 0 {
            line.push(b',')?;
        }
        add_quoted(&mut line, field)?;
    }
    Ok(line)
}

/// The one record that `csv`'s reader reads of the line, or none.
fn only_record(alloc: Global, line: &[u8]) -> Result<Option<ByteRecord>, Fail> {
    let mut reader = ReaderBuilder::new()
        .has_headers(false)
        .flexible(true)
        .from_reader(alloc, line);
    let mut record = ByteRecord::new(alloc);
    let mut further = ByteRecord::new(alloc);
    let Ok(found) = reader.read_byte_record(&mut record) else {
        return Err(Fail::from("no room"));
    };
    let Ok(more) = reader.read_byte_record(&mut further) else {
        return Err(Fail::from("no room"));
    };
    Ok(if found && !more { Some(record) } else { None })
}

/// What a line is by the fields that `csv`'s reader reads of it.
fn row_by_reader(alloc: Global, schema: &Schema, header: &Header, line: &[u8]) -> Result<Row, Fail>
    requires { header.now.schema ≡ schema.now }
{
    if line.is_empty() {
        return Ok(Row::Blank);
    }
    match only_record(alloc, line)? {
        Some(record) => {
            let quoted = quoted_line(alloc, &record)?;
            Ok(header.row(alloc, schema, quoted.as_slice())?)
        }
        None => Ok(Row::Refused(RowFault::BadRow)),
    }
}

/// The first random line under that header that is another row than by `csv`'s reader.
fn first_other(alloc: Global, schema: &Schema, head: &str) -> Result<Option<Vec<u8>>, Fail> {
    let header = Header::read(alloc, schema, head.as_bytes())?;
    let mut random = Random { state: 1 };
    for _ in 0..20_000 {
        let line = random_line(alloc, &mut random)?;
        let row = header.row(alloc, schema, line.as_slice())?;
        if row != row_by_reader(alloc, schema, &header, line.as_slice())? {
            return Ok(Some(line));
        }
    }
    Ok(None)
}

#[test]
fn rows_mean_what_the_reader_of_csv_reads(rt: HostRuntime) -> Result<(), Fail> {
    let schema = schema_of_kinds(rt.alloc())?;
    let heads = [
        "x,y,kind,time",
        "time,x,y,kind",
        "kind,time,x,y",
        "y,kind,time,x",
    ];
    for head in heads {
        let other = first_other(rt.alloc(), &schema, head)?;
        assert!(rt; other.is_none(), "{head}: {other:?}");
    }
    Ok(())
}
