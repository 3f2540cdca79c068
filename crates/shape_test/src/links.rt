//! Whether the links of a slot lead where a cube's may.
ghost use Rattle.std.specs.Prelude.{◌≡◌, ◌↔◌, ◌<◌, length, IsTrue};
ghost use Rattle.node_arena.specs.Slots.{IsNode, slot_of};
ghost use Rattle.shape_test.specs.Homes.{step_of, walk_of, walks_of};
ghost use Rattle.shape_test.specs.Links.{HasSmallLabels, LinkFits, LinksFit, ChildrenFit};

use crate::children::first_child;
use crate::home::{Move, is_coarser_after};
use crate::home_list::HomeList;
use node_arena::{Arena, Link, SlotId};
use probe_core::Steps;
use std::sync::ledger::Ledger;

/// Whether each link of a slot leads to a slot whose home is the link's address or finer.
pub fn links_fit<L: Ledger>(
    arena: &Arena,
    homes: &HomeList,
    id: SlotId,
    steps: &mut Steps<L>,
) -> bool
    requires in_range { id.0 < length arena.now }
    requires homes { length homes.now ≡ length arena.now }
    requires labels { HasSmallLabels arena.now }
    ensures { IsTrue result ↔ LinksFit arena.now (walks_of homes.now) id.0 }
{
    if arena.is_table(id) {
        return true;
    }
    if !children_fit(arena, homes, id) {
        return false;
    }
    match arena.content(id, steps) {
        Some(link) => link_fits(homes, id, Move::Across, link),
        None => true,
    }
}

/// Whether each child of a node is one whose home is the link's address or finer.
fn children_fit(arena: &Arena, homes: &HomeList, id: SlotId) -> bool
    requires in_range { id.0 < length arena.now }
    requires is_node { IsNode (slot_of arena.now id.0) }
    requires homes { length homes.now ≡ length arena.now }
    requires labels { HasSmallLabels arena.now }
    ensures { IsTrue result ↔ ChildrenFit arena.now (walks_of homes.now) id.0 }
{
    let count = arena.child_count(id);
    let mut i = 0;
    let mut from = 0;
    while let Some((label, link)) = first_child(arena, id, count, i, from) {
        if !link_fits(homes, id, Move::Down(label), link) {
            return false;
        }
        i += 1;
        from = u16::from(label) + 1;
    }
    true
}

/// Whether a link of a slot leads to a slot whose home is the link's address or finer.
fn link_fits(homes: &HomeList, id: SlotId, step: Move, link: Link) -> bool
    requires { id.0 < length homes.now }
    ensures { IsTrue result ↔ LinkFits (walks_of homes.now) id.0 (step_of step) link }
{
    let to = link.to.0 as usize;
    if to >= homes.len() {
        return false;
    }
    is_coarser_after(step, homes.get(id.0 as usize), homes.get(to))
}
