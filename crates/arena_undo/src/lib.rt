//! Cube. An arena whose changes can be taken back.
//!
//! A [`Work`] holds an arena and a trail of the changes that were made on it. The memory for the trail
//! is taken before the changes, at the beginning or by [`Work::reserve`], so neither [`Work::keep`] nor
//! [`Work::undo`] can be refused. Changes of slots that were added meanwhile are not in the trail, since
//! undoing cuts these off, nor is a content that stood so already. The crate stands on `node_arena`, whose calls it
//! makes and notes. When to keep and when to undo it leaves to its callers.
//!
//! ```text
//! let mut work = Work::begin(alloc, arena, 7)?;
//! work.table_add_many(table, 5, 5)?;
//! let arena = work.undo(); // as it was
//! ```
#![tactic(auto)]

mod change;
#[cfg(test)]
mod tests;
mod work;

pub use work::Work;
