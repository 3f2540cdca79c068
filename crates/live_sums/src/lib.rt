//! Shares. The sums of live runs: each question goes to all of them, and the sum of their replies is put at once.
//!
//! A live run has an ask, which it reads questions from, and replies to them over a first part of its own journal.
//! [`add_live_runs`] creates the asks of all runs, opens their replies, and then reads questions line by line. Each
//! that asks for a reply goes to every ask before the first reply to it is read, and the sum of the replies is put
//! before the next question is read. A run that replies otherwise, no more, or over fewer records than before ends it,
//! with a line that names the run, the reply and why. That a question goes to every ask, and that what is put is the
//! line of the sum of one reply of each run, is the clause `ends` of `answer_question`, of `specs/Turns.antt`; what is
//! wrong with a run is said in `specs/Runs.antt`. That asks are created and replies opened in order, up to the first
//! that is refused, are clauses of `create_asks` and `open_replies`.
//!
//! It stands on `share_replies` for the sum with a reply and its line, on `recount` for reading a reply, and on
//! `run_files` for files. Which words ask for it, and which exit code an end has, is left to the crate above.
//!
//! ```text
//! let runs = [RunNames { ask: "1/one.txt", replies: "1/one.txt.out" }, ..];
//! let names = LiveNames { plan: "plan.json", questions: "/dev/stdin", runs: &runs };
//! let outcome = add_live_runs(alloc, &names, &mut place, &mut out)?;                 // LiveOutcome::Ended
//! ```
#![tactic(auto)]

mod asking;
mod fault;
mod live;
mod opening;
mod question;
mod reading;
mod replies;
mod serving;
mod turn;

pub use fault::WrongShare;
pub use live::{LiveOutcome, add_live_runs};
pub use opening::{LiveNames, RunNames};
