//! What is counted of a feed.

use crate::Refusal;
use outer_io::CutFault;
use texts::List;

/// Of a feed: how many rows were accepted, blank and refused, its first refusals, and the fault that ended it.
#[derive(Drop)]
pub struct FeedCounts {
    pub accepted: u64,
    pub blank: u64,
    pub refused: u64,
    pub fault: Option<CutFault>,
    pub first: List<Refusal>,
}
