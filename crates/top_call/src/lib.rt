//! Program. The top call. [`nanocube`] does what the words of the command line say over a place and a sink.
//!
//! It stands on all crates that the program uses, and leaves to them what a feed, a script and a reply are, and to
//! `program_forms` which words are a form; it decides what each form reads and writes, and why a status comes. The
//! program `cube_main` calls it over the real files and standard output, and `worked_rows` over files in memory.
//!
//! ```text
//! let mut place = MemPlace::new(alloc);                        // or FilePlace::new(alloc, &rt)
//! let status = nanocube(&rt, &words, &mut place, &mut out);    // words: run plan.json
//! ```
#![tactic(auto)]

mod built_in;
mod call;
mod demo;
mod status;

pub use call::nanocube;
pub use status::Status;
