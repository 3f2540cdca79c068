//! Cube. How much fell into each bin of time.
//!
//! A [`TimeTable`] is seen as a finite map from a bin to its count. The count of an interval is the
//! difference of two calls of `before`, and each of these takes at most one step more than the number
//! of bins has binary digits. A table of up to three rows has them in its own bytes, where their totals
//! have 32 bits. A longer one is a list of running totals on the heap, and a long one a list of blocks
//! under their heads. A row there takes 8 bytes, and 16 once the total of the table needs more than 32
//! bits. An addition rewrites one block, and the heads between it and the last addition's, or up to the
//! end where it comes earlier. No contract sees which of these a table is. The crate stands on
//! `probe_core` for its rows and steps. What a bin is, and where a table stands, it leaves to the crates
//! above.
//!
//! ```text
//! table.add_many(5, 2)?;
//! table.before(6, &mut steps); // 2
//! table.next_row(3, &mut steps); // the bin 5 with its count 2
//! ```
#![tactic(auto)]

mod block;
mod blocks_of;
mod change;
mod few;
mod form;
mod heads;
mod pair;
mod place;
mod row;
mod row_list;
mod rows;
mod run;
mod series;
mod split;
mod stored;
mod table;

pub use table::TimeTable;
