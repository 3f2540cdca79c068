//! Cube. Windows over any cube view: totals of rectangles of finest tiles.
//!
//! [`cover`] gives the largest tiles inside a rectangle, in path order: they are the fewest tiles that hold its finest
//! tiles, each of these once. [`has_tile`] and [`crosses`] say what a rectangle has of a tile. [`window_total`] counts
//! what a query asks for in the rectangle of its verb. It walks from all of space down the tiles that the rectangle
//! crosses, and from each tile of the cover that has a spot through the categories to time, so a window costs as much
//! as its edge is long, and not its area: `specs/Costs.antt`. [`window_answer`] gives the table, of one row. The crate
//! stands on `cube_view`, `query_syntax` and `query_walk`; how a line asks for a window is left to `query_syntax`.
//!
//! ```text
//! let all_but_the_first_column = Rect { x0: 1, y0: 0, x1: 8, y1: 8 };      // at depth 3
//! cover(alloc, &schema, &all_but_the_first_column)?;                       // 14 tiles, from 3/1/0 to 1/1/1
//! window_total(&view, &query, &mut steps)                                  // of `window 1 0 8 8`: what they weigh
//! ```
#![tactic(auto)]

mod largest;
mod rect;
mod window;

pub use largest::cover;
pub use rect::{crosses, has_tile};
pub use window::{window_answer, window_total};
