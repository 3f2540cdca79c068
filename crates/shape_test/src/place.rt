//! Where an address stands among the dimensions of a schema.
ghost use Rattle.std.specs.Prelude.{◌≡◌, ◌≤◌, MatchOption};
ghost use Rattle.cube_view.specs.Places.{deepest as deepest_level, time_dim as number_of_time};
ghost use Rattle.shape_test.specs.Homes.{step_of, walk_of};
ghost use Rattle.shape_test.specs.Labels.{label_fits};
ghost use Rattle.shape_test.specs.Places.{IsOutside, IsSchemaPlace, IsPlaceOf, next_place as place_after, place_at};

use crate::home::Move;
use cube_view::Schema;

/// A dimension, from 1 on, and how many labels an address has in it.
#[derive(Clone, Copy)]
pub struct Place {
    pub dim: u8,
    pub level: u8,
}

/// The number of time's dimension.
pub fn time_dim(schema: &Schema) -> u8
    ensures time { result ≡ number_of_time schema.now }
    ensures few { result ≤ 6 }
{
    schema.categories.len() as u8 + 2
}

/// How many levels a dimension has.
pub fn deepest(schema: &Schema, dim: u8) -> u8
    ensures deepest { result ≡ deepest_level schema.now dim }
    ensures few { result ≤ 20 }
{
    if dim == 1 {
        schema.depth
    } else if dim < time_dim(schema) {
        1
    } else {
        0
    }
}

/// Whether a label is one of a dimension's.
fn is_label(schema: &Schema, dim: u8, label: u8) -> bool
    requires { 1 ≤ dim }
    ensures { result ≡ label_fits schema.now dim label }
{
    if dim == 1 {
        return label < 4;
    }
    let k = usize::from(dim) - 2;
    k < schema.categories.len() && usize::from(label) < schema.categories.get(k).values.len()
}

/// The place after a step, if the schema has one there.
pub fn next_place(schema: &Schema, place: Place, step: Move) -> Option<Place>
    requires { IsSchemaPlace schema.now place }
    ensures { result ≡ place_after schema.now place (step_of step) }
{
    match step {
        Move::Down(label) => {
            if place.level >= deepest(schema, place.dim) || !is_label(schema, place.dim, label) {
                return None;
            }
            Some(Place {
                dim: place.dim,
                level: place.level + 1,
            })
        }
        Move::Across => {
            if place.dim >= time_dim(schema) {
                return None;
            }
            Some(Place {
                dim: place.dim + 1,
                level: 0,
            })
        }
    }
}

/// Where an address stands, the last step standing first. None comes exactly where it goes past the schema's levels or
/// by a label that the schema doesn't have.
pub fn place_of(schema: &Schema, home: &[Move]) -> Option<Place>
    ensures place { result ≡ place_at schema.now (walk_of home.now) }
    ensures told { MatchOption result (IsOutside schema.now (walk_of home.now)) (IsPlaceOf schema.now (walk_of home.now)) }
{
    let [step, owner @ ..] = home else {
        return Some(Place { dim: 1, level: 0 });
    };
    match place_of(schema, owner) {
        Some(place) => next_place(schema, place, *step),
        None => None,
    }
}
