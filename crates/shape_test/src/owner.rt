//! The owner of each slot: the slot and the step whose proper link leads to it.
ghost use Rattle.std.specs.Prelude.{◌≡◌, ◌↔◌, ◌+◌, ◌<◌, ◌^◌, length, IsTrue, IfOk, OnOk, MatchBool, MatchOption};
ghost use Rattle.node_arena.specs.Slots.{IsNode, slot_of};
ghost use Rattle.shape_test.specs.Links.{HasSmallLabels};
ghost use Rattle.shape_test.specs.Owners.{AreOwners, Before, HasNoHomes, HasOwners, IsFree, IsNoted, IsSecond};

use crate::children::first_child;
use crate::home::Move;
use node_arena::{Arena, Link, SlotId};
use probe_core::Steps;
use std::alloc::Global;
use std::sync::ledger::Ledger;
use texts::NoMemory;

/// A slot that owns another, and the step whose link leads there.
#[derive(Clone, Copy)]
pub struct Owner {
    pub by: SlotId,
    pub step: Move,
}

/// Whether a slot can get an owner: it isn't the root, and has none.
fn is_free(owners: &[Option<Owner>], slot: usize) -> bool
    ensures { IsTrue result ↔ IsFree owners.now slot }
{
    0 < slot && slot < owners.len() && owners[slot].is_none()
}

/// Notes an owner of a link's target, if the link is proper. It says no where the target can't get one.
fn note_link(owners: &mut [Option<Owner>], link: Link, owner: Owner) -> bool
    ensures { MatchBool result (IsNoted owners.old owners.new link owner) (IsSecond owners.old link) }
{
    if !link.is_proper() {
        return true;
    }
    let slot = link.to.0 as usize;
    if !is_free(owners, slot) {
        return false;
    }
    owners[slot] = Some(owner);
    true
}

/// Notes a node as the owner of its children. It says no only where slots have no homes.
fn note_children(owners: &mut [Option<Owner>], arena: &Arena, id: SlotId) -> bool
    requires in_range { id.0 < length arena.now }
    requires is_node { IsNode (slot_of arena.now id.0) }
    requires labels { HasSmallLabels arena.now }
    requires owners { AreOwners arena.now (Before id.0 0) owners.old }
    ensures { MatchBool result (AreOwners arena.now (Before id.0 256) owners.new) (HasNoHomes arena.now) }
{
    let count = arena.child_count(id);
    let mut i = 0;
    let mut from = 0;
    while let Some((label, link)) = first_child(arena, id, count, i, from) {
        let owner = Owner {
            by: id,
            step: Move::Down(label),
        };
        if !note_link(owners, link, owner) {
            return false;
        }
        i += 1;
        from = u16::from(label) + 1;
    }
    true
}

/// Notes a slot as the owner of those that its proper links lead to. It says no only where slots have no homes.
fn note_links<L: Ledger>(
    owners: &mut [Option<Owner>],
    arena: &Arena,
    id: SlotId,
    steps: &mut Steps<L>,
) -> bool
    requires in_range { id.0 < length arena.now }
    requires labels { HasSmallLabels arena.now }
    requires owners { AreOwners arena.now (Before id.0 0) owners.old }
    ensures { MatchBool result (AreOwners arena.now (Before (id.0 + 1) 0) owners.new) (HasNoHomes arena.now) }
{
    if arena.is_table(id) {
        return true;
    }
    if !note_children(owners, arena, id) {
        return false;
    }
    let Some(link) = arena.content(id, steps) else {
        return true;
    };
    let owner = Owner {
        by: id,
        step: Move::Across,
    };
    note_link(owners, link, owner)
}

/// The owner of each slot, in a list that is made at once. None comes only where slots have no homes. An arena of 2^32
/// slots wants more memory than there is.
pub fn owners_of<L: Ledger>(
    alloc: Global,
    arena: &Arena,
    steps: &mut Steps<L>,
) -> Result<Option<Vec<Option<Owner>>>, NoMemory>
    requires labels { HasSmallLabels arena.now }
    ensures owners { IfOk result (λ o. MatchOption o (HasNoHomes arena.now) (λ owners. HasOwners arena.now owners.items)) }
    ensures few { OnOk result (length arena.now < 2 ^ 32) }
{
    let Ok(slots) = u32::try_from(arena.len()) else {
        return Err(NoMemory);
    };
    let mut owners = vec![in alloc; None; arena.len()]?;
    for i in 0..slots {
        if !note_links(owners.as_mut_slice(), arena, SlotId(i), steps) {
            return Ok(None);
        }
    }
    Ok(Some(owners))
}
