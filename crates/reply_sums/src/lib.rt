//! Shares. Replies to one question over disjoint lists of points, added up.
//!
//! Totals over disjoint lists of points add up, so the reply over all of them is the sum of the replies over each.
//! [`reply_over_none`] is the reply over no points, and [`sum_replies`] adds two: the rows of `count`, `hist`,
//! `series`, `window` and `cross` by their keys, those of `map` by their tiles, in path order, and the numbers of
//! points. That the sum is the reply over the lists joined, for any two lists, is its clause `law`, of
//! `specs/AddingUp.antt`; what a sum is of any two replies, and which have none, is defined in `specs/Sums.antt`. The
//! tiles of `best` and the numbers of `stat` do not add up, which [`adds_up`] tells. Which files replies come from, and
//! how they are read, is left to the crates above; lines are read by `query_syntax`, and replies read and printed by
//! `reply_json`.
//!
//! ```text
//! let sum = sum_replies(alloc, &asked, &first, &second)?;   // of `count`: [[2]], seen 2, and [[3]], seen 4: [[5]], seen 6
//! ```
#![tactic(auto)]

mod areas;
mod cursor;
mod empty;
mod fault;
mod rows;
mod sums;
mod totals;

pub use empty::reply_over_none;
pub use fault::SumFault;
pub use sums::{adds_up, sum_replies};
