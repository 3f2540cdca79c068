//! Cube. A list whose items keep their places in memory for as long as they are in it.
//!
//! Items lie in blocks of 64, each of which is asked for where all before it are full, and none of which grows. So no
//! item is ever moved, and growing never wants the old and the new memory at once: `push_item` and `pop_item` of
//! `block` state that what stays in the list stays where it lies, and `item_at` that a reference points there. A block
//! takes 8 bytes in the list of blocks, which alone moves where it grows.
//!
//! The six functions of `raw` hold a pointer, and are proved by hand; all others are plain code above them. The crate
//! stands on `probe_core`, whose steps count the reads, and for those six on the definitions of `core` and `std_alloc`.
//! What the items are it leaves to its callers.
//!
//! ```text
//! let place = list.push(7)?; // the number of items before
//! list.get(place, &mut steps); // 7, in one step
//! ```
//!
//! The list lends its items, so one cannot be held over a push: the compiler refuses
//! `let item = list.get(0, &mut steps); list.push(8); read(item)` with
//! "cannot borrow `*list` as mutable because it is also borrowed as immutable", as `.ci/must_not_compile` sees.
#![tactic(auto)]

mod block;
mod blocks;
mod raw;

pub use blocks::BlockList;
