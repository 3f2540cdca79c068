//! Cube. The records that a cube counts, the schema that says what they may be, and a cube as its readers see it.
//!
//! A [`Schema`] names the dimensions; a [`Point`] is a record at a [`Spot`] of them, with a weight. A [`CubeView`] is a
//! bag of spots that is read by cursors: each stands at an [`Address`], and its calls count their steps; a view that
//! takes points is [`Grow`]. The crate stands on `outer_io` for texts and lists, and on `probe_core` for steps. How a
//! cube keeps its points, how a schema is written, and what queries ask of a view are left to the crates above.
//!
//! ```text
//! let at_edge = Point { spot: Spot { x: 8, y: 0, values: [0; 4], bin: 0 }, weight: 1 };
//! is_sound(&schema, &at_edge)      // false where the schema is of depth 3
//! ```
#![tactic(auto)]

mod address;
mod category;
mod copies;
mod labels;
mod laws;
mod same_text;
mod schema;
mod spot;
mod stat;
#[cfg(test)]
mod tests;
mod tiles;
mod validity;
mod view;

pub use address::{Address, Tile};
pub use category::Category;
pub use labels::label;
pub use laws::address_laws;
pub use same_text::is_same_text;
pub use schema::Schema;
pub use spot::{Point, Spot};
pub use stat::Stat;
pub use tiles::{lies_in, quadrant, tile_label};
pub use validity::{are_sound, is_sound, is_valid};
pub use view::{CubeView, Grow};
