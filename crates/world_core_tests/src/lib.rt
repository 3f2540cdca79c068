//! Tests. Runs of the loading machine, against worlds that were worked out by hand and against a straight program over
//! lists.
//!
//! It stands on `world_core`, and on `query_syntax` for the queries of looks. All of it is tests; which steps of the
//! lane are events of the machine is proved in `feed_queue`.
//!
//! ```text
//! let events = [Event::Push(1), Event::Pop, Event::Look(1, count()), Event::Tell(0)];
//! check(rt, alloc, &case)?;                                                     // the world that the case names
//! ```
#![tactic(auto)]

#[cfg(test)]
mod machine_tests;
#[cfg(test)]
mod random_tests;
