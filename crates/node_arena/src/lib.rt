//! Cube. Its slots, which are nodes and time tables, and the links between them.
//!
//! An [`Arena`] is seen as a list of slots. A node has children, which are labels with links in rising
//! order of label, and perhaps a content link; a time table has its counts. A link is proper or shared.
//! What makes an arena a cube is the shape of `specs/Shape.antt`. Up to three children of a node lie in its
//! slot, more on the heap. The slots lie in blocks, so none moves when the arena grows. The crate stands on
//! `block_list`, `time_table` and the walks of `cube_view`. Which slots a cube has, and how it comes to
//! them, it leaves to the crates above.
//!
//! ```text
//! let node = arena.add_node()?;
//! let table = arena.add_table()?;
//! arena.table_add(table, 5)?;
//! arena.set_content(node, Some(Link::proper(table)));
//! ```
#![tactic(auto)]

mod arena;
mod child_list;
mod children;
mod laws;
mod link;
mod packed;
mod short;
mod slot;

pub use arena::Arena;
pub use laws::shape_laws;
pub use link::{Link, LinkKind, SlotId};
