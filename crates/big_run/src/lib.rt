//! Program. A large run from one number: two generated feeds, a session beside them, and a summary over all records.
//!
//! [`run_big`] makes the feeds of the states 1 and 2, runs them with two cubes by `cube_crew`, drops what the session
//! beside them replied, and puts two lines of the report and the replies of the session after them in one put. The text
//! is the definition `big_text` of `specs/Text.antt`, which depends on the number of rows alone: final replies are over
//! all records, whatever order the journal had. [`big_run_laws`] says that the report's lines count every row as
//! accepted. It reads and writes no file. The crate stands on `feed_maker` for the feeds, on `cube_crew` for the run,
//! and on `run_files` for the lines. Which words ask for it is left to the program.
//!
//! ```
//! run_big(rt, alloc, 1, &mut out)?;   // "feed gen1: 1 accepted, 0 blank, 0 refused\n" and five lines more
//! ```
#![tactic(auto)]

mod built_in;
mod feeds;
mod jobs;
mod laws;
mod printing;
mod run;
mod sessions;
mod source;

pub use laws::big_run_laws;
pub use run::run_big;
