//! That a feeder's work may go to another thread.

use crate::{FeedDone, FeedWork};
use feed_reader::FeedJob;
use outer_io::Source;
use side_by_side::{MayGo, may_go};

/// What a feeder is given, its work and what it leaves may go to another thread where its source may.
pub fn feeders_may_go<I: Source + Send>() -> MayGo<(FeedJob<I>, FeedWork<I>, FeedDone<I>)> {
    may_go()
}
