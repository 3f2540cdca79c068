//! Threads. A mailbox from a pair's publisher to one session: a place for one told length, the last that was put.
//!
//! [`open_mail`] gives the end that puts and the end that takes. Contracts see in both the mailbox's own name and the
//! pair's, in [`MailIn`] the lengths that were put, in order, and in [`MailOut`] how often it was asked
//! (`specs/Ends.antt`). The rule of `specs/Rule.antt` holds at every moment: the place is empty, or holds the last that
//! was put. So what is taken was put last: that is the law [`mail_laws`]. None of the steps is an event of the loading
//! machine. The crate stands on `published_pair` for what is told and on `crossbeam_queue` for the place. When a length
//! is told, and what is done with it, is left to the crates above.
//!
//! ```
//! let (mut put, mut take) = open_mail(alloc, &publisher)?;
//! put.put(rt, publisher.tell());
//! take.take(rt);   // Some(told), whose count is publisher.len()
//! take.take(rt);   // None
//! take.takes();    // 2
//! ```
#![tactic(auto)]

mod laws;
mod mail;
mod place;

pub use laws::{mail_ends_may_go, mail_laws};
pub use mail::{MailIn, MailOut, open_mail};
