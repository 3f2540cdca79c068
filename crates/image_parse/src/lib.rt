//! Cube. Images read back: bytes that are taken for the image of a cube, and the slots of which they are the image.
//!
//! `cube_image` says which bytes are the image of slots, and writes it. [`parse_image`] decides of any bytes whether
//! they are an image, and builds the arena of its slots: `specs/Images.antt` says what an image is, and that bytes are
//! the image of one list of slots at most is a law ([`image_parse_laws`]). It goes through the bytes once, and takes
//! each slot before it is put into the arena. The crate stands on `cube_image` for the bytes of slots and on
//! `node_arena` for the slots. Whether the slots are a cube, of which schema, and how long an image may be, it leaves
//! to others.
//!
//! ```text
//! let image = parse_image(alloc, &bytes)?;   // 28 bytes: Some, a root alone, size 0
//! ```
#![tactic(auto)]

mod build;
mod fault;
mod image;
mod laws;
mod links;
mod numbers;
mod slots;

pub use fault::ImageParseFault;
pub use image::{ParsedImage, parse_image};
pub use laws::image_parse_laws;
