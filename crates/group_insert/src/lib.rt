//! Cube. The insertion of a group of points, each address that holds some of them visited once.
//!
//! [`add_group`] copies the points and visits the root with all of them. A visit of a node takes the content first and
//! then label after label, from the least up, so whatever is copied is as it was before the group. A node all of whose
//! points and children have one label visits that label alone, and then shares its child's content. A part of one label
//! is passed on as it stands. Another one stands behind the others once more, label after label, while it is visited:
//! its labels are counted, and then each point is put in its place. Few points of a category are gathered value after
//! value. Where all that lies below a child lies below a finer address too, the link to it is put off, and set when the
//! node of space above has been visited. Weights are counted at time tables alone. `specs/Halfway.antt` has the
//! invariant between two visits. What is done after want of memory is left to `cube_store`.
//!
//! ```text
//! add_group(alloc, &mut work, &schema, &points, SlotId(0))?;
//! ```
#![tactic(auto)]

mod count;
mod counting;
mod group;
mod node;
mod parts;
mod put_off;
mod visits;
mod way;

pub use group::add_group;
