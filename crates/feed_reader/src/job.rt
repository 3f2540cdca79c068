//! A feed that is read up to its rows.

use crate::Header;
use outer_io::{LineCutter, Source};

/// A feed whose first line the cutter has given, and the header that it is.
pub struct FeedJob<I: Source> {
    pub cutter: LineCutter<I>,
    pub header: Header,
}
