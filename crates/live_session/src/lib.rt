//! Sessions. A session at a live pair: a script answered line by line, each line over what the pair shows then.
//!
//! [`Session::turn`] reads one line, learns what the session's mailbox holds, looks once where the line asks for it,
//! and puts at most one reply, in one put; [`Session::run`] does so to the script's end. What the sink gained is a
//! transcript of what was asked, over the list that the viewer was last shown, and stays one as that list grows
//! (`specs/SoFar.antt`; the transcript is `session_core`'s). A reply that finds no memory is the line that says so.
//!
//! A [`SessionWork`] owns a session, its viewer and its end of a mailbox, so that one thread can run it through `&mut`,
//! and afterwards gives back what is left: a [`SessionDone`] and the viewer, which the caller closes. What its run
//! leaves is one relation (`specs/Leaves.antt`).
//!
//! The crate stands on `session_core` for what a line means and its reply, on `published_pair` for looks and on
//! `mailbox` for what is told. When the pair grows and ends, how many sessions run, and on which threads, is left to
//! the crates above.
//!
//! ```
//! let mut work = SessionWork::new(Session::new(alloc, cutter, sink), viewer, mail);
//! work.run(rt, alloc);
//! let (done, viewer) = work.finish();
//! // of the script "told\nquit\n", where the mailbox held a told length of three points:
//! assert!(done.fault.is_none() && done.replies == 1);
//! assert_eq!(done.sink.bytes(), b"{\"told\":3}\n");
//! ```
#![tactic(auto)]

mod answering;
mod asking;
mod done;
mod laws;
mod session;
mod turn;
mod work;

pub use done::SessionDone;
pub use laws::{session_work_laws, sessions_may_go, transcript_laws};
pub use session::Session;
pub use turn::Turn;
pub use work::SessionWork;
