//! Tests. What no run of a program here shows, on worked examples: how a plan is printed, which tiles cover a
//! rectangle, a lane that is drawn without waiting, and the lines of a report that tell of memory and of sessions that
//! were not closed.
//!
//! It stands on `cube_schema` for plans, on `window_cover` for covers, on `feed_queue` for the lane and on `run_files`
//! for reports. All of it is tests; what programs show of the rest are cases of `worked_rows`.
//!
//! ```text
//! let plan = read_plan(alloc, text.as_bytes())?;                       // a text whose members stand in byte order
//! assert_eq!(rt; print_plan(alloc, &plan)?.as_slice(), text.as_bytes());
//! ```
#![tactic(auto)]

#[cfg(test)]
mod cover_tests;
#[cfg(test)]
mod lane_tests;
#[cfg(test)]
mod printing_tests;
#[cfg(test)]
mod report_tests;
