//! Tests. Time tables that grow, are split and shrink, each test a list of cases that one helper takes; and single
//! records in a table, in one of an arena, and in a work that is undone.
//!
//! It stands on `time_table` for the tables, on `node_arena` and `arena_undo` for those in an arena, and on
//! `probe_core` for steps. All of it is tests.
//!
//! ```text
//! let cases = [Case::Add(5, 1), Case::Before(5, 0), Case::Before(6, 1), Case::Take(5, 1), Case::Before(6, 0)];
//! expect::<Brand>(&rt, Blank::new(1), &mut table, 1, &cases);
//! ```
#![tactic(auto)]

#[cfg(test)]
mod arena_tests;
#[cfg(test)]
mod single_tests;
#[cfg(test)]
mod table_tests;
