//! Cube. Cubes saved as their images, and made again of them.
//!
//! [`read_image`] takes the bytes that `cube_image` writes, and no others: `image_parse` parses them, and `shape_test`
//! decides whether the slots are a cube of the schema, with a size that some list of its points has. What it answers is
//! one definition, `ReadsImage` of `specs/Read.antt`: each fault comes exactly where it holds.
//!
//! [`save_cube`] writes the one image of a cube, and [`load_cube`] makes the cube of an image, or refuses bytes that
//! are none, or the image of no cube of the schema. What both tell is one definition, `IsCubeImage` of
//! `specs/CubeImages.antt`: the bytes are the image of a cube of a list of points. A cube that counts records of its
//! schema is written as such bytes, and the cube of bytes counts exactly the lists of whose cubes they are the image.
//! So what is loaded counts what was saved. The image of a least cube is that of every least cube of the same points
//! (`IsLeastImage` of `specs/LeastImages.antt`), so two of them are the same bytes: [`one_file_law`]. The crate stands
//! on `cube_image` for the bytes, on `least_image` for what is one, on `image_parse` and `shape_test` for the test of
//! slots, and on `cube_store` for cubes; files it leaves to the crates above.
//!
//! ```text
//! let bytes = save_cube(alloc, &cube)?;               // 28 bytes for a cube of no points
//! let again = load_cube(alloc, schema, bytes)?;       // counts the points that the cube counts
//! ```
#![tactic(auto)]

mod fault;
mod laws;
mod load;
mod read;
mod save;

pub use fault::ImageFault;
pub use laws::one_file_law;
pub use load::load_cube;
pub use read::read_image;
pub use save::save_cube;
