//! Cube. The tables of queries over a list of points, in one pass.
//!
//! [`list_rows`] gives the rows that `query_syntax` defines, over any list of points: it goes through the points once,
//! adds each one's weight to the total of the row that it is of, and makes the rows of the totals. The row of a point
//! is found by its values, by a division of its bin, or by its tile: no row looks at points again. So a table takes one
//! look at each point and one at each row, where a map's are all tiles of its level in its region, and room for as many
//! numbers.
//! [`count_window`] is the total of a window, and [`count_box`] that of a query's box, for who has the points of a part
//! of space. How points are kept, how many of them are looked at, and how a table is written are left to the crates
//! above.
//!
//! ```text
//! list_rows(alloc, &schema, &query, points)?     // of `series 0 10 3`: three rows, of ten bins each
//! ```
#![tactic(auto)]

mod areas;
mod cells;
mod count;
mod marks;
mod pairs;
mod rows;
mod totals;
mod values;

pub use count::{count_box, count_window};
pub use marks::ValueMarks;
pub use rows::list_rows;
