//! Tests. What the calls of `outer_io` do, on worked examples: lines of every form, sources, sinks and places that fail
//! where they are to fail, and the system's own files.
//!
//! Expected values are those of the definitions in `specs/` of `outer_io`, written out. A test is a table of cases, or
//! of steps on one place, that a helper takes one by one. All of it is tests; what a line means, and what a run does
//! with its files, is tested above.
//!
//! ```text
//! let steps = [
//!     Step::File("a", b"old", 0),
//!     Step::FailsAtPuts("a", [2, 0]),                        // the second put of its next sink fails
//!     Step::Writes("a", Ok([false, true, false])),           // of the puts `ab`, `cde` and `f`
//!     Step::Has("a", b"abcf"),
//! ];
//! assert_eq!(rt; first_missed(rt.alloc(), &steps), None);
//! ```
#![tactic(auto)]

#[cfg(test)]
mod cutter_tests;
#[cfg(test)]
mod memory_tests;
#[cfg(test)]
mod place_tests;
#[cfg(test)]
mod shared;
#[cfg(test)]
mod steps;
#[cfg(test)]
mod system_tests;
