//! Tests. Lists of blocks that are filled, cut at each border of a block, read by two threads and moved to another.
//!
//! It stands on `block_list` alone, with the steps of `probe_core`. All of it is tests, which stand here since each
//! of them would be proved with every check of the list.
//!
//! ```text
//! counts_of(alloc, 129, 64);   // 65 items are dropped by the cut, and the other 64 with the list
//! ```
#![tactic(auto)]

#[cfg(test)]
mod tests;
