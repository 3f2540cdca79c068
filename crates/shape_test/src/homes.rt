//! The homes of all slots, found from their owners.
ghost use Rattle.std.specs.Prelude.{◌≡◌, ◌<◌, ◌≤◌, ◌^◌, ◌∷◌, length, IfOk, IfSome, OnOk, MatchBool, MatchOption};
ghost use Rattle.shape_test.specs.Links.{HasSmallLabels};
ghost use Rattle.shape_test.specs.Owners.{AddsHome, AreHomesIn, AreHomesOf, HasLost, HasNoHomesIn, HasOwners, IsHomeOf, IsLost, IsNearOwner, LeadHome, OwnersWithin, TellsShort, most_steps};

use crate::home::Move;
use crate::home_list::HomeList;
use crate::owner::{Owner, owners_of};
use cube_view::Schema;
use node_arena::Arena;
use probe_core::Steps;
use std::alloc::Global;
use std::sync::ledger::Ledger;
use texts::{List, NoMemory};

/// The steps from a slot back to the root, the last one first. None comes where they end elsewhere or are too many.
fn home_back(
    alloc: Global,
    owners: &[Option<Owner>],
    slot: usize,
    most: usize,
) -> Result<Option<List<Move>>, NoMemory>
    requires in_range { slot < length owners.now }
    requires within { OwnersWithin owners.now }
    ensures { IfOk result (λ o. MatchOption o (IsLost owners.now most slot) (IsHomeOf owners.now most slot)) }
{
    let mut home = List::new(alloc);
    let mut last = slot;
    while last > 0 {
        let Some(owner) = owners[last] else {
            return Ok(None);
        };
        if home.len() >= most {
            return Ok(None);
        }
        home.add(owner.step)?;
        last = owner.by.0 as usize;
    }
    Ok(Some(home))
}

/// The owner of a slot, if its home is known and has room for one step more.
fn near_owner(owners: &[Option<Owner>], homes: &HomeList, slot: usize, most: usize) -> Option<Owner>
    requires in_range { slot < length owners.now }
    requires within { OwnersWithin owners.now }
    ensures { IfSome result (IsNearOwner owners.now homes.now most slot) }
{
    let Some(owner) = owners[slot] else {
        return None;
    };
    let by = owner.by.0 as usize;
    if by >= homes.len() {
        return None;
    }
    if homes.get(by).len() >= most {
        return None;
    }
    Some(owner)
}

/// Adds the home of a slot behind those of the slots before it, by its owner's where that is known. It says no where
/// the slot has none.
fn add_home(
    alloc: Global,
    homes: &mut HomeList,
    owners: &[Option<Owner>],
    slot: usize,
    most: usize,
) -> Result<bool, NoMemory>
    requires in_range { slot < length owners.now }
    requires within { OwnersWithin owners.now }
    requires known { AreHomesOf owners.now most homes.old }
    ensures { IfOk result (λ r. MatchBool r (AddsHome owners.now most slot homes.old homes.new) (IsLost owners.now most slot)) }
{
    if let Some(owner) = near_owner(owners, homes, slot, most) {
        homes.add_step(owner.step, owner.by.0 as usize)?;
        return Ok(true);
    }
    let Some(home) = home_back(alloc, owners, slot, most)? else {
        return Ok(false);
    };
    homes.add(home.as_slice())?;
    Ok(true)
}

/// The homes of all slots by their owners. None comes where a slot has none.
fn homes_back(
    alloc: Global,
    owners: &[Option<Owner>],
    most: usize,
) -> Result<Option<HomeList>, NoMemory>
    requires { OwnersWithin owners.now }
    ensures { IfOk result (λ o. MatchOption o (HasLost owners.now most) (LeadHome owners.now most)) }
{
    let mut homes = HomeList::new(alloc);
    homes.reserve(owners.len())?;
    for slot in 0..owners.len() {
        if !add_home(alloc, &mut homes, owners, slot, most)? {
            return Ok(None);
        }
    }
    Ok(Some(homes))
}

/// The most steps to an address of a schema.
pub fn most_steps_of(schema: &Schema) -> usize
    ensures most { result ≡ most_steps schema.now }
    ensures few { result ≤ 29 }
{
    usize::from(schema.depth) + 2 * schema.categories.len() + 1
}

/// The homes of all slots, and the owners from which they were found.
#[derive(Drop)]
pub struct Homed {
    pub homes: HomeList,
    pub owners: Vec<Option<Owner>>,
}

/// The homes of all slots: each but the root has one owner, and owners lead back to the root. None comes exactly where
/// there are no homes, or not of so few steps as a schema's addresses have, at most 29.
pub fn homes_of<L: Ledger>(
    alloc: Global,
    schema: &Schema,
    arena: &Arena,
    steps: &mut Steps<L>,
) -> Result<Option<Homed>, NoMemory>
    requires labels { HasSmallLabels arena.now }
    ensures homes { IfOk result (λ o. MatchOption o (HasNoHomesIn schema.now arena.now) (λ found. AreHomesIn schema.now arena.now found.homes)) }
    ensures owners { IfOk result (λ o. IfSome o (λ found. HasOwners arena.now found.owners.items)) }
    ensures few { OnOk result (length arena.now < 2 ^ 32) }
{
    let Some(owners) = owners_of(alloc, arena, steps)? else {
        return Ok(None);
    };
    if arena.is_empty() {
        return Ok(None);
    }
    match homes_back(alloc, owners.as_slice(), most_steps_of(schema))? {
        Some(homes) => Ok(Some(Homed { homes, owners })),
        None => Ok(None),
    }
}

/// What the homes of a schema's cubes are, as a law of the definitions: no longer than those that are looked for. It
/// does nothing when run.
pub fn home_laws()
    ensures { TellsShort }
{}
