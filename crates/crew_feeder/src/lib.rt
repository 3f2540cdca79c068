//! Threads. The feeders of a run: each reads the rows of one feed and sends their points through a lane.
//!
//! A feed's job with its end of a lane becomes a [`FeedWork`], which one thread runs in place; [`FeedWork::finish`]
//! then takes it apart into a [`FeedDone`] and what is left of the end. What a run leaves is the record `HasFed` of
//! `specs/Leaving.antt`: the points that were sent, the counts and the first refusals are those of the rows of the
//! lines that were given, and the End was sent, whatever fault the run met. The crate stands on `feed_reader` for jobs,
//! rows and what is counted of them, and on `feed_queue` for the lane. Where the sources come from, who draws, and what
//! is printed of a feed is left to the crates above.
//!
//! ```
//! let header = read_header(alloc, &schema, &mut cutter)?;
//! let first = FirstRefusals::new(alloc)?;
//! let mut work = FeedWork::new(FeedJob { cutter, header }, end, first);
//! work.run(rt, alloc, &schema);
//! let (done, ended) = work.finish();
//! done.counts.accepted;  // how many entries were sent
//! ```
#![tactic(auto)]

mod done;
mod laws;
mod work;

pub use done::FeedDone;
pub use laws::feeders_may_go;
pub use work::FeedWork;
