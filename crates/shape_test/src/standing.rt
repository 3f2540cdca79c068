//! Whether all slots meet the conditions on single slots.
ghost use Rattle.std.specs.Prelude.{◌≡◌, ◌↔◌, ◌<◌, ◌^◌, length, Some, IsTrue, IfOk};
ghost use Rattle.node_arena.specs.Shape.{HasProperLinks, home_of};
ghost use Rattle.node_arena.specs.Slots.{IsNode, IsTable, slot_of};
ghost use Rattle.node_arena.specs.Stats.{AllRising};
ghost use Rattle.shape_test.specs.Laws.{AllTablesCounted};
ghost use Rattle.shape_test.specs.Fits.{IsSchemaLocal};
ghost use Rattle.shape_test.specs.Homes.{walks_of};
ghost use Rattle.shape_test.specs.Standing.{TableStands, NodeStands, SuitsPlace, SlotStands, AllStand, AllMerge};
ghost use Rattle.shape_test.specs.Places.{ArePlaces, place_at};
ghost use Rattle.shape_test.specs.Testable.{AreLinked, AreReadable};

use crate::counts::has_row;
use crate::filled::is_filled;
use crate::home_list::HomeList;
use crate::links::links_fit;
use crate::merging::node_merges;
use crate::place::{Place, deepest, time_dim};
use crate::rows::Room;
use crate::sharing::shares_only;
use cube_view::Schema;
use node_arena::{Arena, SlotId};
use probe_core::Steps;
use std::alloc::Global;
use std::sync::ledger::Ledger;
use texts::{List, NoMemory};

/// Whether a time table stands where time is and has a row.
fn table_stands<L: Ledger>(
    schema: &Schema,
    arena: &Arena,
    id: SlotId,
    place: Place,
    steps: &mut Steps<L>,
) -> bool
    requires in_range { id.0 < length arena.now }
    requires is_table { IsTable (slot_of arena.now id.0) }
    ensures { IsTrue result ↔ TableStands schema.now arena.now id.0 place }
{
    if place.dim != time_dim(schema) {
        return false;
    }
    has_row(arena, id, steps)
}

/// Whether a node stands before time, has its links and shares an only child's content.
fn node_stands<L: Ledger>(
    schema: &Schema,
    arena: &Arena,
    id: SlotId,
    place: Place,
    steps: &mut Steps<L>,
) -> bool
    requires in_range { id.0 < length arena.now }
    requires is_node { IsNode (slot_of arena.now id.0) }
    requires linked { AreLinked arena.now }
    ensures { IsTrue result ↔ NodeStands schema.now arena.now id.0 place }
{
    if place.dim == time_dim(schema) {
        return false;
    }
    let is_deepest = place.level == deepest(schema, place.dim);
    if !is_filled(arena, id, is_deepest, steps) {
        return false;
    }
    shares_only(arena, id, steps)
}

/// Whether a slot is what stands at a place.
fn suits_place<L: Ledger>(
    schema: &Schema,
    arena: &Arena,
    id: SlotId,
    place: Place,
    steps: &mut Steps<L>,
) -> bool
    requires in_range { id.0 < length arena.now }
    requires readable { AreReadable arena.now }
    ensures { IsTrue result ↔ SuitsPlace schema.now arena.now id.0 place }
{
    if arena.is_table(id) {
        table_stands(schema, arena, id, place, steps)
    } else {
        node_stands(schema, arena, id, place, steps)
    }
}

/// Whether a slot stands where a cube's may, and has what it needs there.
fn slot_stands<L: Ledger>(
    schema: &Schema,
    arena: &Arena,
    homes: &HomeList,
    id: SlotId,
    place: Place,
    steps: &mut Steps<L>,
) -> bool
    requires in_range { id.0 < length arena.now }
    requires homes { length homes.now ≡ length arena.now }
    requires place { place_at schema.now (home_of (walks_of homes.now) id.0) ≡ Some place }
    requires readable { AreReadable arena.now }
    ensures { IsTrue result ↔ SlotStands schema.now arena.now (walks_of homes.now) id.0 }
{
    if !suits_place(schema, arena, id, place, steps) {
        return false;
    }
    links_fit(arena, homes, id, steps)
}

/// Whether all slots stand where a cube's may, and have what they need there.
fn all_stand<L: Ledger>(
    schema: &Schema,
    arena: &Arena,
    homes: &HomeList,
    places: &List<Place>,
    steps: &mut Steps<L>,
) -> bool
    requires few { length arena.now < 2 ^ 32 }
    requires homes { length homes.now ≡ length arena.now }
    requires places { ArePlaces schema.now (walks_of homes.now) places.now }
    requires readable { AreReadable arena.now }
    ensures { IsTrue result ↔ AllStand schema.now arena.now (walks_of homes.now) }
{
    for i in 0..arena.len() {
        let place = *places.get(i);
        if !slot_stands(schema, arena, homes, SlotId(i as u32), place, steps) {
            return false;
        }
    }
    true
}

/// Whether what all slots count merges.
fn all_merge<L: Ledger>(
    alloc: Global,
    schema: &Schema,
    arena: &Arena,
    homes: &HomeList,
    places: &List<Place>,
    steps: &mut Steps<L>,
) -> Result<bool, NoMemory>
    requires few { length arena.now < 2 ^ 32 }
    requires homes { length homes.now ≡ length arena.now }
    requires places { ArePlaces schema.now (walks_of homes.now) places.now }
    requires stand { AllStand schema.now arena.now (walks_of homes.now) }
    requires readable { AreReadable arena.now }
    ensures { IfOk result (λ r. IsTrue r ↔ AllMerge schema.now arena.now (walks_of homes.now)) }
{
    let mut room = Room::new(alloc);
    for i in 0..arena.len() {
        let place = *places.get(i);
        if !node_merges(&mut room, schema, arena, SlotId(i as u32), place, steps)? {
            return Ok(false);
        }
    }
    Ok(true)
}

/// Whether all slots meet the conditions on single slots, their homes and the places of these being given. What slots
/// count is looked at only once all of them stand where they may, since few ways then lead to each.
pub fn slots_fit<L: Ledger>(
    alloc: Global,
    schema: &Schema,
    arena: &Arena,
    homes: &HomeList,
    places: &List<Place>,
    steps: &mut Steps<L>,
) -> Result<bool, NoMemory>
    requires few { length arena.now < 2 ^ 32 }
    requires homes { HasProperLinks arena.now (walks_of homes.now) }
    requires places { ArePlaces schema.now (walks_of homes.now) places.now }
    requires rising { AllRising arena.now }
    requires counted { AllTablesCounted arena.now }
    requires readable { AreReadable arena.now }
    ensures { IfOk result (λ r. IsTrue r ↔ IsSchemaLocal schema.now arena.now (walks_of homes.now)) }
{
    if !all_stand(schema, arena, homes, places, steps) {
        return Ok(false);
    }
    all_merge(alloc, schema, arena, homes, places, steps)
}
