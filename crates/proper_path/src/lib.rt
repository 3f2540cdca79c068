//! Cube. The trail of a point: its nodes in one dimension, made the root's own.
//!
//! [`trail`] starts at the root of a dimension and follows the point's labels. A child that is not there is added, a
//! shared child is replaced by a shallow copy, and a proper child is kept, so what is written at or below a node of the
//! trail is seen from this root alone. The crate stands on `arena_undo` for the calls on slots and on `cube_view` for
//! labels; it has the insertion invariant, which each trail keeps. What is done at the nodes is left to `point_insert`.
//!
//! ```text
//! trail(&mut work, &schema, &point, 1, SlotId(0), &mut stack)?;
//! stack.len()      // depth + 1: the root, and a node for each level of space
//! ```
#![tactic(auto)]

mod path;
mod step;

pub use path::trail;
pub use step::step_down;
