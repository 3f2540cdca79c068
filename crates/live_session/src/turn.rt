//! What a turn of a session answers.

/// What a turn did: the line asked nothing, a reply was put, or the session is at its end.
#[derive(Clone, Copy, PartialEq, Eq, Debug)]
pub enum Turn {
    Skipped,
    Replied,
    Ended,
}
