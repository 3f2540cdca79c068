//! Program. The form `load PLAN IMAGE SCRIPT` of the program: a script answered over the cube of an image, from files.
//!
//! [`load_files`] reads the plan as a run does, reads the image and makes its cube by `image_cube`, and answers the
//! script over it as over a loaded feed. An image that is refused has its line, `image: FAULT`, and the script is not
//! opened; [`refuse_image`] puts that line, for an image that is written too. `load_files` creates nothing, and how it
//! ends is the record `LoadEnds` of `specs/Ends.antt`. The crate stands on `run_files` for the plan, for reading files
//! and for the answers to a script, and on `image_cube` for images. Which words ask for it, and which exit code an end
//! has, is left to the crate above.
//!
//! ```text
//! let names = LoadNames { plan: "plan.json", image: "cube.img", script: "q.txt" };
//! let end = load_files(alloc, &names, &mut place, &mut out)?;    // ImageEnd::Done, with all replies put
//! ```
#![tactic(auto)]

mod end;
mod lines;
mod load;
mod taking;

pub use end::ImageEnd;
pub use load::{LoadNames, load_files};
pub use taking::refuse_image;
