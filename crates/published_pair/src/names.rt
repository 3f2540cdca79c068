//! What contracts know of a pair. No value of these types is made. A clause reads an array as a list, of any length.
use crate::book::{Front, Law};
use crate::note::Note;
use cube_view::{Point, Schema};
use logbook::Word;

/// The points that a copy counts, the published list that it stands at, and the schema that it goes by.
pub struct Standing {
    pub points: [Point; 0],
    pub front: Front,
    pub schema: Schema,
}

/// What an end of the pair knows: which pair it is, its schema, and the list of the copy that it saw last.
pub struct Names {
    pub head: Word<Note, u64, Law>,
    pub schema: Schema,
    pub seen: [Point; 0],
}
