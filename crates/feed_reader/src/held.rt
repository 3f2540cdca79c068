//! Where the fields of a line stand.
use crate::line_parts::LineParts;
use csv::ByteRecord;

/// The fields of a line: parts of it, where it is regular, or a record of copies.
#[derive(Drop)]
pub(crate) enum Held<'a> {
    Parts(LineParts<'a>),
    Record(ByteRecord),
}
