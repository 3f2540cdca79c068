//! Tests. Counts over a cube of many records, and how many steps they take; cubes beside plain cubes of the same
//! points, at every address; and how many nodes, tables and links a cube of a few points has.
//!
//! Each clause is proved from those of `cube_store` and `query_walk` alone, so the crate shows that they suffice for a
//! number that speaks of values and bins, and of no records. All of it is tests. What other queries cost is left to the
//! bounds of `query_walk` and `tile_drill`.
//!
//! ```text
//! let equal = count_of_equal_records(rt, alloc, 1_000_000, &mut steps)?;   // in at most 11 steps
//! assert_eq!(rt; equal, 1_000_000);
//! ```
#![tactic(auto)]

#[cfg(test)]
mod agreement_tests;
#[cfg(test)]
mod insertion_tests;
#[cfg(test)]
mod tests;
