//! Shares. The replies of shares to one script, added up from files.
//!
//! A share is a list of points of its own, with the final replies to a script over them. [`add_shares`] reads the plan,
//! the script and the replies of each share, and puts the replies over all of them. That these are the final transcript
//! over the lists joined, for any lists, is its clause `law`, of `specs/Ends.antt`; a share whose replies are none, or
//! do not answer the script, is named with its line, and nothing else is put. It stands on `reply_sums` for the sum of
//! two replies, on `recount` for what a script asks and for reading replies, and on `run_files` for files. Which words
//! ask for it, and which [`Status`] an end has, is left to the crates above; the exit codes of statuses stand here.
//!
//! ```text
//! let names = ShareNames { plan: "plan.json", script: "q.txt", replies: &names };    // "1/q.txt.out", "2/q.txt.out"
//! let outcome = add_shares(alloc, &names, &mut place, &mut out)?;                    // Outcome::Added
//! ```
#![tactic(auto)]

mod adding;
mod fault;
mod files;
mod first;
mod line;
mod put;
mod status;
mod summed;
mod text;

pub use adding::{Outcome, ShareNames, add_shares, share_line, why_name};
pub use fault::{LineFault, TextFault, WrongReply};
pub use first::{first_sum, first_sums};
pub use line::add_reply;
pub use put::{put_sum, put_sums};
pub use status::Status;
pub use summed::Summed;
pub use text::add_text;
