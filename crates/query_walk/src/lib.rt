//! Cube. The total of a query over any cube view, and the rows of a map.
//!
//! [`total`] walks from all of space to the query's region, through each category, by the values of its set where it
//! has one, and to time, where it reads two running totals. So its steps are bounded by what the query's addresses
//! cost, one by one, and a walk that finds nothing ends there: `specs/Costs.antt`. [`total_in_box`] does so for each
//! query whose box can be walked.
//!
//! Its parts stand by themselves, so that no row of a table walks through space again. [`region_cursor`] walks to a
//! tile.
//! From a cursor there [`total_in_tile`] goes on, [`total_in_region`] where the walk has come to the query's region or
//! has found nothing, and [`value_total`] with one value of a category alone. [`total_from`] goes on from a category.
//! [`area_rows`] gives a map's rows: it comes from the region down to the tiles that have a spot, and goes on from
//! each.
//! The crate stands on `cube_view` and `query_syntax`; the other tables are left to `tile_drill`, `window_cover` and
//! `cross_table`.
//!
//! ```text
//! total(&view, &query, &mut steps)                // of `count in 3/0/7`: what the bag weighs in that tile
//! area_rows(alloc, &view, &query, 1, &mut steps)  // of `map 1`: a row for each tile of level 1 that weighs something
//! ```
#![tactic(auto)]

mod areas;
mod categories;
mod region;
mod search;
mod span;
mod tile;
mod value;

pub use areas::area_rows;
pub use categories::total_from;
pub use region::region_cursor;
pub use search::{total, total_in_box};
pub use tile::{total_in_region, total_in_tile};
pub use value::value_total;
