//! Cube. Points in path order, in which the points of each tile stand side by side.
//!
//! [`FlatView`] keeps the points of a schema as a list of 20 bytes each, put in order where it stands. Its points are
//! those that it was made of, in another order, so each total over them is the same. [`FlatView::in_tile`] gives the
//! points of a tile, which two searches find: what is asked of a region takes a pass over its points alone. Path order
//! is that of the quadrant labels of the ways to finest tiles: `path_number` of `specs/Paths.antt`, which `Paths` makes
//! of a column and a row.
//!
//! The crate stands on `cube_view` for points and tiles. How points are read, and what is counted of them, is left to
//! the crates above.
//!
//! ```text
//! let view = FlatView::new(schema, points);                  // points that are sound for the schema
//! view.in_tile(&Tile { z: 1, x: 0, y: 1 })                   // those of the quadrant 1/0/1
//! ```
#![tactic(auto)]

mod paths;
mod ranges;
mod view;

pub use view::FlatView;
