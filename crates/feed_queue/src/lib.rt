//! Threads. The lane from feeders to the builder: a bounded queue whose order is proved, whatever its threads do.
//!
//! [`open_lane`] gives an end for each feeder, which sends entries and last its End, and one end that draws them.
//! Contracts see each end as a small record (`specs/Ends.antt`), so that one clause says what a call does. Of each item
//! that is drawn they tell that its feeder is one of the lane's, that its number goes on what was drawn of that feeder,
//! and that its point is valid. [`DrawEnd::settle`] tells that all that was drawn is an interleaving of what was sent.
//! The queue keeps the rule of `specs/Rule.antt`, and each of its steps is an event of the loading machine or none:
//! that is a clause of [`lane_laws`]. The crate stands on `crossbeam_queue` for the queue and on `world_core` for
//! entries and their interleavings. Who runs the ends in threads, and what becomes of the entries, is left to the
//! crates above.
//!
//! ```
//! let (mut feeds, mut draws) = open_lane(alloc, &schema, 1024, 1)?;
//! let Some(mut feed) = feeds.pop() else { .. };
//! feed.send(rt, Item::One(Entry { feeder: 1, number: 0, point }));
//! feed.send(rt, Item::End(1, 1));
//! let ended = feed.finish();
//! draws.draw(rt);  // Item::One(Entry { feeder: 1, number: 0, point })
//! draws.draw(rt);  // Item::End(1, 1)
//! ```
#![tactic(auto)]

mod draw;
mod feed;
mod item;
mod laws;
mod line;
mod open;
mod printing;
mod reading;
mod steps;

pub use draw::{DrawEnd, Drawn};
pub use feed::{Ended, FeedEnd};
pub use item::Item;
pub use laws::{journal_laws, lane_ends_may_go, lane_laws};
pub use open::open_lane;
pub use printing::print_entry;
pub use reading::read_entry;
