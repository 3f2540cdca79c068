//! What a run is given, and what it gives back.

use crew_feeder::FeedDone;
use feed_queue::Drawn;
use feed_reader::FeedJob;
use live_session::{Session, SessionDone};
use mailbox::MailIn;
use outer_io::{Sink, Source};
use texts::List;
use world_core::Entry;

/// The feeds of a run, the sessions that run beside them, and the sessions that run after them.
pub struct Jobs<I: Source, O: Sink> {
    pub feeds: List<FeedJob<I>>,
    pub asks: List<Session<I, O>>,
    pub finals: List<Session<I, O>>,
}

/// What a run gives back: its feeds and sessions in order, the published entries, all entries that were drawn, the
/// putting end of each ask's mailbox, whether memory was wanted anywhere, and whether every viewer was closed over the
/// journal.
pub struct Crewed<I: Source, O> {
    pub feeds: List<FeedDone<I>>,
    pub asks: List<SessionDone<I, O>>,
    pub finals: List<SessionDone<I, O>>,
    pub journal: List<Entry>,
    pub drawn: Drawn,
    pub mails: List<MailIn>,
    pub starved: bool,
    pub closed: bool,
}
