//! Program. The program `flat PLAN SCRIPT`: a script answered over the records of a plan's feeds, without a cube.
//!
//! [`flat_files`] reads the plan and the headers as a run does, reads the feeds in the plan's order into one list of
//! points, puts these in path order, and answers the script over them as `load` does over a cube of them, but for
//! `stat`.
//! It creates nothing, and how it ends is the record `FlatEnds` of `specs/Ends.antt`: with `Ok` each reply is that of
//! direct totals over the accepted records of the feeds.
//!
//! The crate stands on `run_files` for the plan and the headers, on `feed_reader` for rows, on `flat_view` for the
//! points, on `flat_session` for the answers, and on `save_run` for what is said of feeds that were read. Which words
//! ask for it, and which exit code an end has, is left to the crate above.
//!
//! ```text
//! let end = flat_files(&rt, alloc, &FlatNames { plan: "plan.json", script: "q.txt" }, &mut place, &mut out);
//! // Ok(()), with all replies put
//! ```
#![tactic(auto)]

mod answering;
mod files;
mod reading;

pub use files::{FlatNames, flat_files};
