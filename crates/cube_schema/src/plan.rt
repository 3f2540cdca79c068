//! What a run is told.
use cube_view::Schema;
use texts::{List, Text};

/// What a run is told: the schema, and the names of its files.
#[derive(Drop)]
pub struct Plan {
    /// What the records may be.
    pub schema: Schema,
    /// The files that are read as feeds.
    pub feeds: List<Text>,
    /// The file that the journal is written to.
    pub journal: Text,
    /// The scripts that run beside the feeds.
    pub asks: List<Text>,
    /// The scripts that run after the feeds.
    pub finals: List<Text>,
}
