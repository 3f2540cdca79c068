//! Cube. A cube that counts points, and answers without looking at each of them.
//!
//! The type of a [`Cube`] keeps that there are points, sound for the schema, of which the arena has the shape: nodes
//! with one child share its content, tables hold exactly the weights under their addresses, and links are exactly where
//! a point lies. [`Cube::insert`] adds one point and [`Cube::insert_all`] those of a batch, or each leaves the arena as
//! it was where memory is wanted. As a [`CubeView`](cube_view::CubeView) a cube is read by cursors, each at a slot and
//! an address: a step goes along one link, and an amount is one search in a time table. The crate stands on
//! `point_insert` for the insertion and on `arena_undo` for taking it back; what is asked of a cube is left to what
//! comes above.
//!
//! ```text
//! let mut cube = Cube::new(alloc, schema)?;
//! cube.insert(point)?;                              // a point that is sound for the schema
//! cube.next_label(cube.top(), 0, &mut steps)        // Some(label): its quadrant
//! cube.stat()                                       // nodes + tables = proper + 1
//! ```
#![tactic(auto)]

mod batch;
mod cube;
mod laws;
mod view;

pub use cube::Cube;
pub use laws::cost_laws;
pub use view::CubeCursor;
