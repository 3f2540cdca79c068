//! The columns that a feed must have.

/// A column that is read. A category goes by its number, from 0.
#[derive(Clone, Copy, PartialEq, Eq, Debug)]
pub enum Column {
    X,
    Y,
    Time,
    Weight,
    Category(u8),
}
