//! Cube. Tables by two categories, and the tiles with the greatest totals, over any cube view.
//!
//! [`cross_answer`] gives a row for each value of one category and, within it, each value of another. It walks to the
//! region once, and from there on for each row with these two values alone: `specs/Costs.antt`. [`best_answer`] gives
//! the first rows of a map in the order of their totals, the greatest first and equal ones in path order: it has the
//! map's rows from `query_walk` and sorts them by [`first_by_total`], which serves a map's rows from elsewhere too.
//! [`cross_sum`] says that the rows of a cross table add up, and [`top_order`] which tiles are the best ones. How a
//! line asks for either table is left to `query_syntax`.
//!
//! ```text
//! cross_answer(alloc, &view, &query, &mut steps)?     // of `cross k m`: a row for each value of k and of m
//! best_answer(alloc, &view, &query, &mut steps)?      // of `best 3 5`: the 5 tiles of level 3 that weigh most
//! ```
#![tactic(auto)]

mod best;
mod cross;
mod laws;

pub use best::{best_answer, first_by_total};
pub use cross::cross_answer;
pub use laws::{cross_sum, top_order};
