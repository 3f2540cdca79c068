//! What a builder answers.

/// What became of an item: it was kept, a batch was published, or it was the last End. The numbers tell how many
/// entries are published then.
#[derive(Clone, Copy, PartialEq, Eq, Debug)]
pub enum Taken {
    Kept,
    Published(u64),
    LastEnd(u64),
}
