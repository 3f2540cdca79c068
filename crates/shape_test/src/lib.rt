//! Cube. What makes slots a cube of a schema, said slot by slot, and tested of single slots.
//!
//! The shape of `node_arena` says of slots and of a list of spots that the slots are a cube which counts the list.
//! Where slots alone are given, as by an image, no list is known. The conditions of `specs/Local.antt` speak of slots
//! alone: homes, levels, a count below each slot, and that along each finest way the content of a node counts what the
//! contents of its children count together. No spot is named, and nothing is walked twice. They hold exactly of a cube,
//! and then of the list that the time tables at whole addresses spell out (`specs/Wholes.antt`).
//!
//! Slots with a size fit a schema if they are such a cube, all labels are the schema's, and some list of so many points
//! has the spelled spots with their weights (`specs/Fits.antt`). So slots that come from outside can be tested one by
//! one: where a home stands, whether each link leads where it may, whether a node or a table has what it needs, and
//! whether a content counts what the contents of the children do. The homes are found from the owners of slots, and a
//! size is tested against the bag. The crate stands on `node_arena` for slots and their shape; bytes and points it
//! leaves to the crates above.
//!
//! ```text
//! let homes = homes_of(alloc, &schema, &arena, &mut steps)?;    // None where slots have no homes of so few steps
//! let place = place_of(&schema, home);                          // None past the schema's levels or labels
//! let fits = links_fit(&arena, &homes, id, &mut steps);         // each link's address is its target's home or coarser
//! ```
#![tactic(auto)]

mod children;
mod counts;
mod filled;
mod fit;
mod home;
mod home_list;
mod homes;
mod laws;
mod links;
mod merging;
mod owner;
mod parts;
mod place;
mod places;
mod remainder;
mod rows;
mod sharing;
mod size;
mod standing;

pub use counts::has_row;
pub use filled::is_filled;
pub use fit::fits;
pub use home::{Move, is_coarser_after};
pub use home_list::HomeList;
pub use homes::{Homed, home_laws, homes_of};
pub use laws::{fit_laws, local_laws};
pub use links::links_fit;
pub use merging::node_merges;
pub use owner::Owner;
pub use place::{Place, place_of};
pub use places::places_of;
pub use rows::Room;
pub use sharing::shares_only;
pub use size::{size_fits, size_laws};
pub use standing::slots_fit;
