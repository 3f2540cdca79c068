//! Threads. Values that exist for contracts alone. They take no bytes, their methods do nothing when the program runs,
//! and since they own nothing they may go to any thread and be shared, as what holds a `Snapshot` of std may not.
//!
//! A [`GhostValue`] carries one value, a [`GhostList`] a list that grows. A struct that holds one says by its own
//! clauses what the carried value is. The crate stands on std alone.
//!
//! ```text
//! let start = GhostValue::of(&position);    // a clause reads `start.value`
//! let seen = GhostList::new().and(&first);  // a clause reads `seen.items`
//! ```
#![tactic(auto)]

mod list;
#[cfg(test)]
mod tests;
mod value;

pub use list::GhostList;
pub use value::GhostValue;
