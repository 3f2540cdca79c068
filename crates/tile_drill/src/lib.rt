//! Cube. The table of a count, a histogram, a map or a series over any cube view.
//!
//! [`answer`] gives the rows that `query_syntax` defines over any list of points that the view counts. It reads the
//! view by cursors alone. The rows of a histogram are walks from one cursor at the region, those of a series are read
//! off at the tables that one walk comes to, and those of a map are `query_walk`'s. How a line is read and how a table
//! is written is left to `query_syntax` and `reply_json`, the tables of the other verbs to `window_cover` and
//! `cross_table`.
//!
//! ```text
//! answer(alloc, &view, &query, &mut steps)?     // of `map 1`: a row for each tile of level 1 that weighs something
//! ```
#![tactic(auto)]

mod bins;
mod sums;
mod table;
mod values;

pub use table::answer;
