//! Worlds: where all points stand, and what sessions saw.

use crate::Entry;
use cube_view::Point;
use query_syntax::Table;
use texts::List;

/// What a look gave: the session, from 0, and the table of its query.
#[derive(Drop)]
pub struct Shot {
    pub session: u32,
    pub table: Table,
}

/// What each feeder hasn't pushed yet, what was pushed and not popped, what was popped and not published,
/// and what is published. Further, for each session, how much was published at its last look and when
/// it was last told; all looks; and the numbers of the events, from 0, that weren't possible.
#[derive(Drop)]
pub struct World {
    pub rest: List<List<Point>>,
    pub queue: List<Entry>,
    pub pending: List<Entry>,
    pub journal: List<Entry>,
    pub seen: List<u64>,
    pub told: List<u64>,
    pub shots: List<Shot>,
    pub skipped: List<u64>,
}
