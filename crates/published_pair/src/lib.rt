//! Threads. A pair of copies of a cube: one publisher adds points to it, and viewers look at it without waiting for the
//! publisher.
//!
//! [`open`] gives a [`Publisher`] and its viewers. What is appended is seen by nobody until it is published. Each
//! [`Viewer::look`] shows a view that counts a published list, of which every list that this viewer was shown or told
//! of is a prefix. [`Publisher::end`] ends the list: after a viewer learned its [`Last`] each look shows the ended
//! list.
//! Where memory is wanted the pair is given up, and viewers see what they saw: the end is marked in the book all the
//! same, and `end` answers a [`GivenUp`]. Whatever a viewer of the pair was shown or told of is a prefix of its list
//! ([`GivenUp::covers`]).
//! Any view that takes points is published (`cube_view::Grow`). The two copies are those of `left_right`, the lists
//! are kept for contracts alone in a `logbook`, and `specs/` says what holds at each atomic step. Batches, feeds and
//! queries are left to the crates above.
//!
//! ```
//! let (mut publisher, mut viewers) = open(rt, alloc, first, again, 1)?;
//! publisher.append(point)?;
//! publisher.publish(rt)?;
//! let viewer = viewers.pop().unwrap();
//! let shown = viewer.look(rt);
//! assert_eq!(shown.view().seen(), 1);
//! let mut viewer = shown.leave();
//! let (rested, mut lasts) = publisher.end(rt, alloc)?;
//! viewer.learn_last(lasts.pop().unwrap());
//! assert_eq!(viewer.close(rt).seen, 1);
//! rested.finish(rt);
//! ```
#![tactic(auto)]

mod book;
mod laws;
mod looks;
mod names;
mod note;
mod opening;
mod publisher;
mod rested;
mod rule;
mod stand;
mod told;
mod viewer;

pub use book::{Front, Whole};
pub use laws::{pair_ends_may_go, pair_laws};
pub use opening::open;
pub use publisher::{Of, Pairing, Publisher, PublisherOf};
pub use rested::{Rested, RestedOf};
pub use told::{Closed, GivenUp, Last, Told};
pub use viewer::{Shown, Viewer};
