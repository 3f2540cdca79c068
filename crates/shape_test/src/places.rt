//! The places of all homes, each by that of its owner's.
ghost use Rattle.std.specs.Prelude.{◌≡◌, ◌<◌, length, IfOk, MatchOption};
ghost use Rattle.node_arena.specs.Shape.{home_of, HasProperLinks};
ghost use Rattle.shape_test.specs.Homes.{walks_of};
ghost use Rattle.shape_test.specs.Owners.{HasOwners};
ghost use Rattle.shape_test.specs.Places.{place_at, AreFirstPlaces, ArePlaces, HasOutside};

use crate::home_list::HomeList;
use crate::owner::Owner;
use crate::place::{Place, next_place, place_of};
use cube_view::Schema;
use node_arena::Arena;
use std::alloc::Global;
use texts::{List, NoMemory};

/// Where a slot's home stands: a step from the place of its owner's, where that is known.
fn place_after(
    schema: &Schema,
    arena: &Arena,
    owners: &[Option<Owner>],
    homes: &HomeList,
    places: &List<Place>,
    slot: usize,
) -> Option<Place>
    requires in_range { (slot < length owners.now) × (slot < length homes.now) }
    requires owners { HasOwners arena.now owners.now }
    requires homes { HasProperLinks arena.now (walks_of homes.now) }
    requires places { AreFirstPlaces schema.now (walks_of homes.now) places.now }
    ensures { result ≡ place_at schema.now (home_of (walks_of homes.now) slot) }
{
    let Some(owner) = owners[slot] else {
        return place_of(schema, homes.get(slot));
    };
    let by = owner.by.0 as usize;
    if by >= places.len() {
        return place_of(schema, homes.get(slot));
    }
    next_place(schema, *places.get(by), owner.step)
}

/// Where the homes of all slots stand, by the owners that are known.
fn places_by(
    alloc: Global,
    schema: &Schema,
    arena: &Arena,
    owners: &[Option<Owner>],
    homes: &HomeList,
) -> Result<Option<List<Place>>, NoMemory>
    requires owners { HasOwners arena.now owners.now }
    requires homes { HasProperLinks arena.now (walks_of homes.now) }
    ensures { IfOk result (λ o. MatchOption o (HasOutside schema.now (walks_of homes.now)) (ArePlaces schema.now (walks_of homes.now))) }
{
    let mut places = List::new(alloc);
    places.reserve(homes.len())?;
    for slot in 0..homes.len() {
        let Some(place) = place_after(schema, arena, owners, homes, &places, slot) else {
            return Ok(None);
        };
        places.add(place)?;
    }
    Ok(Some(places))
}

/// Where the homes of all slots stand. None comes where one goes past the schema's levels, or by a label that the
/// schema doesn't have. The owners are let go.
pub fn places_of(
    alloc: Global,
    schema: &Schema,
    arena: &Arena,
    owners: Vec<Option<Owner>>,
    homes: &HomeList,
) -> Result<Option<List<Place>>, NoMemory>
    requires owners { HasOwners arena.now owners.items }
    requires homes { HasProperLinks arena.now (walks_of homes.now) }
    ensures { IfOk result (λ o. MatchOption o (HasOutside schema.now (walks_of homes.now)) (ArePlaces schema.now (walks_of homes.now))) }
{
    places_by(alloc, schema, arena, owners.as_slice(), homes)
}
