//! What a feeder leaves.

use feed_reader::FeedCounts;
use outer_io::Source;

/// A feed that was read: its source, and what was counted of it.
pub struct FeedDone<I: Source> {
    pub source: I,
    pub counts: FeedCounts,
}
