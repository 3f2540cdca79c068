//! Text. The lines of a feed: a header, which says in which column each part of a record stands, and rows, which are
//! points.
//!
//! A line is read by itself. What a field and a record are is `csv`'s own definition, which `record_of` of
//! `specs/Records.antt` cites; a regular line is split in place, one with doubled quotes is copied, and a stranger one
//! is read by `csv`. What the bytes mean is the definition `head_of` of `specs/Headers.antt` for a header and `row_of`
//! of `specs/Rows.antt` for a row; [`Header::read`] and [`Header::row`] answer exactly that. [`read_header`] and
//! [`next_row`] take the lines from a cutter: a [`FeedJob`] is a cutter that has given the header's line, and the
//! header. `accepted` of `specs/Feeds.antt` says which points a whole feed has, and [`accepted_laws`] what is known of
//! them. How many of some rows are accepted, blank and refused, and which refusals come first, are the definitions of
//! `specs/RowCounts.antt`; [`FeedCounts`] has such counts, and [`FirstRefusals`] keeps the refusals. The crate stands
//! on `cube_view` for schemas and points and on `outer_io` for lines; where the points go, and what is said of refused
//! rows, is left to the crates above.
//!
//! ```text
//! let header = Header::read(alloc, &schema, b"id,x,y,kind,time")?;
//! header.row(alloc, &schema, b"2,7,7,b,12")?;  // a point at x 7, y 7, where `b` is a value of `kind` and time 12 in a bin
//! header.row(alloc, &schema, b"2,7,7,b")?;     // Row::Refused(RowFault::ShortRow)
//! ```
#![tactic(auto)]

mod column;
mod counts;
mod feed;
mod fields;
mod folded;
mod header;
mod held;
mod job;
mod laws;
mod line_parts;
mod record;
mod refusal;
mod regular;
mod row;

pub use column::Column;
pub use counts::FeedCounts;
pub use feed::{NoHeader, next_row, read_header};
pub use header::{HeadFault, Header};
pub use job::FeedJob;
pub use laws::accepted_laws;
pub use refusal::{FirstRefusals, Refusal};
pub use row::{Row, RowFault};
