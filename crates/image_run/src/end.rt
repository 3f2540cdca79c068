//! How a run of an image ends.

/// How a run of an image ended that no trouble ended.
#[derive(Clone, Copy, PartialEq, Eq, Debug)]
pub enum ImageEnd {
    /// All was done.
    Done,
    /// The image is refused, which was said.
    Refused,
}
