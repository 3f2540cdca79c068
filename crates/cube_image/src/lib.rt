//! Cube. The image of a cube: one text of bytes for its slots, whatever way they came about.
//!
//! An arena's slots stand in the order in which the cube's points made them. An image has them in an order of its own:
//! the root, and then the targets of proper links as they appear (`specs/Order.antt`), each link leading to a place in
//! that order. So slots that differ in their order alone have one image, whose bytes `specs/Bytes.antt` defines.
//! [`write_image`] writes it. The crate stands on `node_arena` for the slots, and on `cube_store` for what it says of a
//! cube. What the slots count, and to which file the bytes go, it leaves to others.
//!
//! ```text
//! let bytes = write_image(alloc, &arena, root, size)?;   // 28 bytes for a root alone
//! ```
#![tactic(auto)]

mod ahead;
mod bytes;
mod children;
mod fault;
mod laws;
mod order;
mod print;
mod rows;
mod save;

pub use fault::SaveFault;
pub use laws::image_laws;
pub use print::MOST_BYTES;
pub use save::write_image;
