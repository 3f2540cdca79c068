//! A feed: its header in the first line, and the rows after it.
ghost use Rattle.std.specs.Prelude.{◌≡◌, ◌≢◌, Ok, Err, Some, None, IfOk, IfErr, IfSome, IsErrOf, MatchOption};
ghost use Rattle.feed_reader.specs.Headers.{head_of};
ghost use Rattle.feed_reader.specs.Reading.{AcceptsRows, IsAtStart, IsHeadRefused, LeavesAccepted, PassesOneAtMost, ReadsHeader, ReadsRow};
ghost use Rattle.feed_reader.specs.Rows.{IsValidRow};
ghost use Rattle.outer_io.specs.Cuts.{IsEnd, IsTooMuch};
ghost use Rattle.outer_io.specs.Faults.{HasCause};
ghost use Rattle.outer_io.specs.Progress.{IsGoing};

use crate::{HeadFault, Header, Row, RowFault};
use cube_view::Schema;
use outer_io::{Cut, CutFault, LineCutter, Source};
use std::alloc::Global;
use texts::NoMemory;

/// Why a feed has no header.
#[derive(Clone, Copy, PartialEq, Eq, Debug)]
pub enum NoHeader {
    /// The first line is none, for this fault; a missing or a long line is a `BadRow`.
    Refused(HeadFault),
    Read,
    NoMemory,
}

// The header that a line is, with want of memory apart from the faults of the line.
fn header_of(alloc: Global, schema: &Schema, line: &[u8]) -> Result<Header, NoHeader>
    ensures places { IfOk result (λ header. head_of schema.now line.now ≡ Ok header.places) }
    ensures schema { IfOk result (λ header. header.schema ≡ schema.now) }
    ensures refused { (fault : HeadFault) → result ≡ Err (NoHeader.Refused fault) → (fault ≢ HeadFault.NoMemory) × (head_of schema.now line.now ≡ Err fault) }
    ensures no_read { result ≢ Err NoHeader.Read }
{
    match Header::read(alloc, schema, line) {
        Ok(header) => Ok(header),
        Err(HeadFault::NoMemory) => Err(NoHeader::NoMemory),
        Err(fault) => Err(NoHeader::Refused(fault)),
    }
}

/// The header in the cutter's next line. After `NoMemory` the line may be gone; the cutter goes on.
pub fn read_header<S: Source>(
    alloc: Global,
    schema: &Schema,
    cutter: &mut LineCutter<S>,
) -> Result<Header, NoHeader>
    requires { IsGoing cutter.old }
    ensures header { IfOk result (λ header. ReadsHeader S.left S.faults schema.now cutter.old cutter.new header.places) }
    ensures schema { IfOk result (λ header. header.schema ≡ schema.now) }
    ensures accepted { IfOk result (λ header. IsAtStart cutter.old → LeavesAccepted S.left schema.now header.places cutter.old cutter.new) }
    ensures refused { (fault : HeadFault) → result ≡ Err (NoHeader.Refused fault) → IsHeadRefused S.left schema.now cutter.old fault }
    ensures told_apart { result ≢ Err (NoHeader.Refused HeadFault.NoMemory) }
    ensures cause { HasCause (S.faults cutter.old.source) (S.faults cutter.new.source) result NoHeader.Read }
    ensures no_memory { IsErrOf result NoHeader.NoMemory → PassesOneAtMost S.left S.faults cutter.old cutter.new }
{
    match cutter.next() {
        Ok(Cut::Line(line, _)) => header_of(alloc, schema, line.as_slice()),
        Ok(Cut::Long(_)) | Ok(Cut::End) | Err(CutFault::TooMuch) => Err(NoHeader::Refused(
            HeadFault::BadRow,
        )),
        Err(CutFault::Read) => Err(NoHeader::Read),
        Err(CutFault::NoMemory) => Err(NoHeader::NoMemory),
    }
}

/// What the cutter's next line is under the header, with the line's number from 1, or none at the end of the feed.
/// After `NoMemory` the line may be gone; the cutter goes on.
pub fn next_row<S: Source>(
    alloc: Global,
    schema: &Schema,
    header: &Header,
    cutter: &mut LineCutter<S>,
) -> Result<Option<(Row, u64)>, CutFault>
    requires schema { header.now.schema ≡ schema.now }
    requires going { IsGoing cutter.old }
    ensures row { IfOk result (λ found. IfSome found (ReadsRow S.left S.faults schema.now header.now.places cutter.old cutter.new)) }
    ensures valid { IfOk result (λ found. IfSome found (λ row. IsValidRow schema.now row.0)) }
    ensures end { result ≡ Ok None → IsEnd S.left S.faults cutter.old cutter.new }
    ensures too_much { IsErrOf result CutFault.TooMuch → IsTooMuch S.left cutter.old }
    ensures cause { HasCause (S.faults cutter.old.source) (S.faults cutter.new.source) result CutFault.Read }
    ensures no_memory { IsErrOf result CutFault.NoMemory → PassesOneAtMost S.left S.faults cutter.old cutter.new }
{
    match cutter.next()? {
        Cut::Line(line, number) => match header.row(alloc, schema, line.as_slice()) {
            Ok(row) => Ok(Some((row, number))),
            Err(NoMemory) => Err(CutFault::NoMemory),
        },
        Cut::Long(number) => Ok(Some((Row::Refused(RowFault::LongLine), number))),
        Cut::End => Ok(None),
    }
}
