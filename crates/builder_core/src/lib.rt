//! Threads. The builder: it takes the items that a lane's drawing end draws, appends their entries to a pair, and
//! publishes.
//!
//! A [`Builder`] publishes whenever as many entries are pending as its batch has, and what is left at the last feeder's
//! End. Its journal is, entry for entry, the list that viewers have been shown beginnings of, and a prefix of the
//! entries taken: all of them once every End was taken, unless it has answered want of memory. It is spent then: it
//! drops each further entry, publishes no more, and still counts Ends. **Whoever loops over a builder ends by
//! [`Builder::ended`]**, which holds once every End was taken, also where the last one met want of memory and `LastEnd`
//! was not answered.
//!
//! A [`BuilderWork`] is the builder's work of a run. It owns the drawing end, the builder, and the putting end of each
//! ask's mailbox. [`BuilderWork::run`] runs it in place, on one thread: each item that is drawn is taken, and after
//! each publication and after the last End the length of the published list is put into every mailbox. It ends once the
//! End of every feeder was taken; a spent builder goes on drawing. What it leaves is one relation (`specs/Built.antt`),
//! and with `into_parts` it is all that the crates above need to settle the lane and to end the pair.
//!
//! The crate stands on `feed_queue` for items, on `published_pair` for what is published, and on `mailbox` for what is
//! told. Threads, feeders, and who reads the mailboxes are left to the crates above.
//!
//! ```text
//! let mut builder = Builder::new(alloc, publisher, 2, 2);
//! builder.take(rt, Item::One(Entry { feeder: 1, number: 0, point }));  // Ok(Taken::Kept)
//! let mut work = BuilderWork::new(draws, Builder::new(alloc, publisher, 2, 2), mails);
//! work.run(rt);                // over a batch of two and five entries, 2, 4 and 5 are put into each mailbox
//! let (draws, builder, mails) = work.into_parts();
//! let (journal, ended) = builder.into_journal(rt, alloc);  // five entries, and the answer of the pair's `end`
//! ```
#![tactic(auto)]

mod builder;
mod entry_publisher;
mod laws;
mod taken;
mod telling;
mod work;

pub use builder::{Builder, BuilderOf};
pub use laws::{builder_laws, builder_may_go};
pub use taken::Taken;
pub use work::{BuilderWork, BuilderWorkOf};
