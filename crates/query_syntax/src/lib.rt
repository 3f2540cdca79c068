//! Text. The query language, read and printed, and what a query asks for.
//!
//! [`parse`] answers the meaning of a line, which `specs/Meaning.antt` defines: a query, or the first fault from the
//! left with the number of its word. [`print`] answers the line of a query, which `specs/Spelling.antt` defines; that
//! line means the query. [`is_valid_query`] says which queries a schema takes. What a query counts, its box and the
//! total of a list of points in it, is defined in `specs/Boxes.antt`, and its table in `specs/Tables.antt`, with those
//! of windows, cross tables and best tiles in `specs/Windows.antt`, `CrossTables.antt` and `TopTiles.antt`.
//! [`has_table`] says which verbs ask for a table, and [`is_drill`] for which of them [`table_of`] counts it row by
//! row, for small lists and as the answer that tests compare with. Schemas and points come from `cube_view`; how a cube
//! finds a total is left to the crates above.
//!
//! ```
//! let parsed = parse(alloc, &schema, b"count  in 01/0/1")?;
//! // of `Parsed::Ask(query)`:
//! assert_eq!(print(alloc, &schema, &query)?.as_slice(), b"count in 1/0/1".as_slice());
//! ```
#![tactic(auto)]

mod fault;
mod filters;
mod filters_read;
mod item;
mod parsing;
mod printing;
mod query;
mod rect;
mod table;
mod tables;
mod tile_word;
mod totals;
mod valid_query;
mod value_set;
mod verb_words;
mod words;

pub use fault::QueryFault;
pub use parsing::{parse, parse_into};
pub use printing::print;
pub use query::{Choice, Parsed, Query, Span, Verb};
pub use rect::Rect;
pub use table::{RowOut, Table};
pub use tables::table_of;
pub use valid_query::{has_table, is_drill, is_valid_query};
pub use value_set::ValueSet;
