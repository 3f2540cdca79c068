//! What an audit says.

/// The test that holds at the first place at which one does, of a line of the journal or of a reply.
#[derive(Clone, Copy, PartialEq, Eq, Debug)]
pub enum Why {
    /// The line of the journal has no line feed, or is that of no valid entry.
    NotEntry,
    /// The entry's feeder is over the number of feeders, or its number is not that of the feeder's entries before it.
    WrongNumber,
    /// There is no reply to an asked line.
    TooFew,
    /// There is a line after the reply to the last asked line.
    TooMany,
    /// The line has no line feed, or is that of no reply.
    NotReply,
    /// The reply prints a number of points seen or told that is over the number of the journal's entries.
    PastEnd,
    /// The reply prints a number of points seen that is less than one seen or told before, or of points told that is
    /// less than one told before.
    Fell,
    /// The reply is not the one to what was asked, nor the one for want of memory.
    Wrong,
}

/// The texts agree, in so many replies, of which some are the line for want of memory; or the number, from 1, of the
/// first line of the journal, or of the replies, at which a test holds.
#[derive(Clone, Copy, PartialEq, Eq, Debug)]
pub enum Verdict {
    Agree { replies: u64, without: u64 },
    Journal(u64, Why),
    Replies(u64, Why),
}
