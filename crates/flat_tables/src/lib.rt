//! Cube. The tables of queries over points in path order.
//!
//! [`flat_answer`] gives the table that `query_syntax` defines over all points. The points of a query's region stand
//! side by side: `list_tables` goes over those alone, since no other point is in a row. [`window_total`] counts what a
//! query asks for in the rectangle of its verb. It goes from all of space down the tiles that the rectangle crosses,
//! and counts the points of each tile that lies inside it, or that has few points, in one pass: a window costs a pass
//! over the points that it has, and two searches for each tile on its edge. Many points are counted in halves, by a
//! thread each where threads can be made, and the halves added up. [`window_answer`] gives the table, of one row. The
//! crate stands on `flat_view` for the points of a tile, and on `window_cover` for what a rectangle has of a tile. The
//! line of a reply is left to the crates above.
//!
//! ```text
//! let view = FlatView::new(schema, points);
//! window_total(&rt, &view, &query)              // of `window 1 0 8 8`: what its points weigh
//! flat_answer(&rt, alloc, &view, &query)?       // of `hist kind in 1/0/1`: a row for each value
//! ```
#![tactic(auto)]

mod answer;
mod halves;
mod window;

pub use answer::flat_answer;
pub use window::{window_answer, window_total};
