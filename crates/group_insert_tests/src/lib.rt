//! Tests. Cubes that take their points in batches, against plain counts over the list of the points.
//!
//! A cube of drawn points is made again in several batchings: one by one, in groups of one size, and single points and
//! groups by turns. After each the total at every address is what a plain count over the list gives, and each slot but
//! the root has one proper link. The crate stands on `cube_store` for the cubes, on `query_walk` for their totals and
//! on `cube_schema` for schemas. All of it is tests. What an insertion does slot by slot is left to `group_insert`.
//!
//! ```text
//! insert_in(rt, &mut cube, points, &[1, 4])?;         // one point, a group of four, one point, a group of four ..
//! check_totals(rt, &cube, points, &shape);            // at each tile, choice of values and span
//! ```
#![tactic(auto)]

#[cfg(test)]
mod batches;
#[cfg(test)]
mod counts;
#[cfg(test)]
mod draws;
#[cfg(test)]
mod random_tests;
#[cfg(test)]
mod schemas;
#[cfg(test)]
mod worked_tests;
