//! Tests. What rows mean beside `csv`'s own reader, on random lines.
//!
//! A feed's reader reads regular lines by itself, and the others by `csv`. A line has to mean the same row as the line
//! in which each field that `csv` reads stands in quotes. It stands on `feed_reader` for rows and on `csv`. All of it
//! is tests; which headers and rows are refused are cases of `worked_rows`.
//!
//! ```text
//! let row = header.row(alloc, &schema, b"3,7,a,5")?;   // as that of `"3","7","a","5"`
//! ```
#![tactic(auto)]

#[cfg(test)]
mod random_tests;
