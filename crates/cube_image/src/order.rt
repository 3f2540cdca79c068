//! The order in which an image has an arena's slots.
ghost use Rattle.std.specs.Prelude.{◌≡◌, ◌+◌, ◌<◌, ◌≤◌, [], ◌∷◌, ◌++◌, ℕ, length, slice_index, OnOk, IfOk, All};
ghost use Rattle.node_arena.specs.Slots.{IsNode, slot_of, children_of};
ghost use Rattle.cube_image.specs.Conditions.{HasSomeHomes, IsReadable};
ghost use Rattle.cube_image.specs.Order.{IsOrder, owned_by, owned_children, proper_target, order_number, AreNumbers};
ghost use Rattle.cube_image.specs.Rest.{told_children};

use crate::ahead::make_place;
use crate::children::child_count;
use node_arena::{Arena, Link, SlotId};
use probe_core::Steps;
use std::alloc::Global;
use std::sync::ledger::Ledger;
use texts::{List, NoMemory};

/// The slots in an image's order, and the place of each slot in it.
#[derive(Drop)]
pub struct Order {
    pub places: List<u32>,
    pub numbers: Vec<usize>,
    ghost numbered: { AreNumbers places numbers.items },
}

/// The order of an arena's slots, beginning with the root.
pub fn order_of<L: Ledger>(
    alloc: Global,
    arena: &Arena,
    root: SlotId,
    steps: &mut Steps<L>,
) -> Result<Order, NoMemory>
    requires root { root.0 ≡ 0 }
    requires homes { ∥ HasSomeHomes arena.now ∥₁ }
    requires readable { IsReadable arena.now }
    ensures order { IfOk result (λ order. IsOrder arena.now order.places) }
    ensures within { IfOk result (λ order. All (λ i. i < length arena.now) order.places) }
    ensures all { IfOk result (λ order. length order.numbers.items ≡ length arena.now) }
{
    let places = places_of(alloc, arena, root, steps)?;
    let numbers = numbers_of(alloc, places.as_slice(), arena.len())?;
    Ok(Order { places, numbers })
}

/// The slots in order: each brings in those that it owns.
fn places_of<L: Ledger>(
    alloc: Global,
    arena: &Arena,
    root: SlotId,
    steps: &mut Steps<L>,
) -> Result<List<u32>, NoMemory>
    requires root { root.0 ≡ 0 }
    requires homes { ∥ HasSomeHomes arena.now ∥₁ }
    requires readable { IsReadable arena.now }
    ensures order { IfOk result (λ places. IsOrder arena.now places) }
    ensures within { IfOk result (λ places. All (λ i. i < length arena.now) places) }
{
    let mut places = List::new(alloc);
    places.add(root.0)?;
    for i in 0..arena.len() {
        if i >= places.len() {
            return Ok(places);
        }
        make_place(&mut places, arena, i)?;
        let place = *places.get(i);
        put_owned(arena, SlotId(place), &mut places, steps)?;
    }
    Ok(places)
}

/// Puts the slots at the end that a slot owns.
fn put_owned<L: Ledger>(
    arena: &Arena,
    id: SlotId,
    places: &mut List<u32>,
    steps: &mut Steps<L>,
) -> Result<(), NoMemory>
    requires { id.0 < length arena.now }
    ensures { OnOk result (places.new ≡ places.old ++ owned_by (slot_of arena.now id.0)) }
{
    if arena.is_table(id) {
        return Ok(());
    }
    put_owned_children(arena, id, places)?;
    match arena.content(id, steps) {
        Some(link) => put_target(link, places),
        None => Ok(()),
    }
}

/// Puts the children at the end that a node owns.
fn put_owned_children(arena: &Arena, id: SlotId, places: &mut List<u32>) -> Result<(), NoMemory>
    requires in_range { id.0 < length arena.now }
    requires is_node { IsNode (slot_of arena.now id.0) }
    ensures { OnOk result (places.new ≡ places.old ++ owned_children (told_children arena.now id.0)) }
{
    for i in 0..child_count(arena, id) {
        put_target(arena.child_at(id, i).1, places)?;
    }
    Ok(())
}

/// Puts the slot at the end that a link owns, if it is proper.
fn put_target(link: Link, places: &mut List<u32>) -> Result<(), NoMemory>
    ensures { OnOk result (places.new ≡ places.old ++ proper_target link) }
{
    if link.is_proper() {
        places.add(link.to.0)
    } else {
        Ok(())
    }
}

/// For each of n slots its place in the order.
fn numbers_of(alloc: Global, places: &[u32], n: usize) -> Result<Vec<usize>, NoMemory>
    requires { All (λ i. i < n) places.now }
    ensures numbers { IfOk result (λ numbers. AreNumbers places.now numbers.items) }
    ensures all { IfOk result (λ numbers. length numbers.items ≡ n) }
{
    let mut numbers = vec![in alloc; places.len(); n]?;
    let mut at = places.len();
    while at > 0 {
        at -= 1;
        numbers[places[at] as usize] = at;
    }
    Ok(numbers)
}
