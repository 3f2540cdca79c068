//! Cube. That the least cubes of one bag of records have one image.
//!
//! Two least cubes of the same records differ in the order of their slots alone, and an image numbers slots as proper
//! links appear. So their images are the same bytes, whatever order the records came in. The crate stands on the least
//! cube of `least_cube` and the image of `cube_image`. Which calls make least cubes it leaves to others.
//!
//! ```text
//! TellsOneLeastImage: the images of two least cubes of one bag, with one size, are the same bytes
//! ```
#![tactic(auto)]

mod laws;

pub use laws::least_image_law;
