//! Whether slots with a size fit a schema.
ghost use Rattle.std.specs.Prelude.{◌↔◌, ◌<◌, ◌^◌, length, IsTrue, IfOk};
ghost use Rattle.shape_test.specs.Fits.{Fits};
ghost use Rattle.shape_test.specs.Homes.{walks_of};
ghost use Rattle.shape_test.specs.Owners.{AreHomesIn, HasOwners};
ghost use Rattle.shape_test.specs.Places.{ArePlaces};
ghost use Rattle.shape_test.specs.Testable.{AreTestable};

use crate::home_list::HomeList;
use crate::homes::{Homed, homes_of};
use crate::place::Place;
use crate::places::places_of;
use crate::size::size_fits;
use crate::standing::slots_fit;
use cube_view::Schema;
use node_arena::Arena;
use probe_core::Steps;
use std::alloc::Global;
use std::sync::ledger::Ledger;
use texts::{List, NoMemory};

/// Whether slots with a size fit the schema, their homes and the places of these being given.
fn fits_at<L: Ledger>(
    alloc: Global,
    schema: &Schema,
    arena: &Arena,
    homes: &HomeList,
    places: &List<Place>,
    size: u64,
    steps: &mut Steps<L>,
) -> Result<bool, NoMemory>
    requires few { length arena.now < 2 ^ 32 }
    requires homes { AreHomesIn schema.now arena.now homes.now }
    requires places { ArePlaces schema.now (walks_of homes.now) places.now }
    requires testable { AreTestable arena.now }
    ensures { IfOk result (λ r. IsTrue r ↔ Fits schema.now arena.now size) }
{
    if !slots_fit(alloc, schema, arena, homes, places, steps)? {
        return Ok(false);
    }
    Ok(size_fits(schema, arena, homes, places, size, steps))
}

/// Whether slots with a size fit the schema, their homes being given. Their owners are let go before what takes
/// longest.
fn homes_fit<L: Ledger>(
    alloc: Global,
    schema: &Schema,
    arena: &Arena,
    found: Homed,
    size: u64,
    steps: &mut Steps<L>,
) -> Result<bool, NoMemory>
    requires few { length arena.now < 2 ^ 32 }
    requires homes { AreHomesIn schema.now arena.now found.homes }
    requires owners { HasOwners arena.now found.owners.items }
    requires testable { AreTestable arena.now }
    ensures { IfOk result (λ r. IsTrue r ↔ Fits schema.now arena.now size) }
{
    let Homed { homes, owners } = found;
    match places_of(alloc, schema, arena, owners, &homes)? {
        Some(places) => fits_at(alloc, schema, arena, &homes, &places, size, steps),
        None => Ok(false),
    }
}

/// Whether slots with a size fit the schema: they are a cube of the spots that their time tables count, all labels are
/// the schema's, and some list of so many points has these spots with their weights. The homes of the slots are looked
/// for first; slots that have none fit no schema.
pub fn fits<L: Ledger>(
    alloc: Global,
    schema: &Schema,
    arena: &Arena,
    size: u64,
    steps: &mut Steps<L>,
) -> Result<bool, NoMemory>
    requires { AreTestable arena.now }
    ensures { IfOk result (λ r. IsTrue r ↔ Fits schema.now arena.now size) }
{
    match homes_of(alloc, schema, arena, steps)? {
        Some(found) => homes_fit(alloc, schema, arena, found, size, steps),
        None => Ok(false),
    }
}
