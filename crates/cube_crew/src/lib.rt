//! Threads. A whole run of feeds and scripts on threads: feeders, the builder and the asks beside each other, and then
//! the finals.
//!
//! [`run_crew`] is given [`Jobs`], each with its own source and sink, and two empty views of one schema. It opens a
//! lane, a pair of the views and a mailbox for each session, runs all works by fork and join, ends the pair, runs the
//! finals over all that was published, and closes every viewer. What it gives back is a [`Crewed`]; what that says of
//! the jobs is the one record `IsCrewed` of `specs/Crewed.antt`, over every order of the threads' steps: the journal is
//! an interleaving of what the feeders sent, and each session's sink gained a transcript over the journal. No clause
//! speaks of queues, copies or places. The crate stands on `crew_feeder`, `builder_core` and `live_session` for the
//! three works. Where sources and sinks come from, and what is printed of a run, is left to the crates above.
//!
//! Feeders and builder wait for each other, so the feeders' side and the other one begin only once each has a thread.
//! Where the machine gives none, feeders and builder go in turn on one thread, and then the asks.
//!
//! ```
//! let jobs = Jobs { feeds, asks, finals };
//! match run_crew(rt, alloc, first, again, jobs) {
//!     Ok(crewed) => crewed.journal.len(),  // how many entries are published
//!     Err(jobs) => jobs.feeds.len(),       // memory was wanted: nothing was read or written
//! }
//! ```
#![tactic(auto)]

mod ending;
mod feeds;
mod jobs;
mod opening;
mod rooms;
mod run;
mod sessions;
mod starving;
mod together;
mod turns;

pub use jobs::{Crewed, Jobs};
pub use run::run_crew;
