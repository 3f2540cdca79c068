//! Cube. Adding a point to a dimension, which is its trail and what each node of it gets as content.
//!
//! [`add`] makes the point's trail and visits its nodes from the finest to the root. A visit takes the first of five
//! cases: an only child's content is shared; a content that is not there is made; a shared one that was not updated is
//! copied; a proper one stays; and a shared one that was updated is left. In the second to fourth case the point is
//! added to the content. [`Updated`] has the contents to which the point was added. The crate stands on `proper_path`
//! for trails and the insertion invariant; what is done after want of memory is left to `cube_store`.
//!
//! ```text
//! let mut updated = Updated::with_room(alloc, insert_room(&schema))?;
//! add(alloc, &mut work, &schema, &point, 1, SlotId(0), &mut updated)?;
//! ```
#![tactic(auto)]

mod adding;
mod content;
mod room;
mod updated;

pub use adding::add;
pub use content::{copy_content, is_time, make_content, only_child, share_content};
pub use room::insert_room;
pub use updated::Updated;
