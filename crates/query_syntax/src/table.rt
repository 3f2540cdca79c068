//! What a query of a table verb answers.

use cube_view::Tile;
use texts::{List, Text};

/// A row of a table: a total alone, or the total of a value of a category, of a tile, of the bins from the first one of
/// the row on, or of two values of two categories.
#[derive(Drop)]
pub enum RowOut {
    One(u64),
    Value(Text, u64),
    Area(Tile, u64),
    Bin(u64, u64),
    Pair(Text, Text, u64),
}

/// The rows that a query asks for, and how many records were counted in all.
#[derive(Drop)]
pub struct Table {
    pub rows: List<RowOut>,
    pub seen: u64,
}
