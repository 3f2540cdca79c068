//! What a node of the trail gets as content, in each of the five cases of a visit.
ghost use Rattle.std.specs.Prelude.{◌≡◌, ℕ, ◌+◌, ◌<◌, ◌≤◌, ◌↔◌, List, length, IfOk, None, Some, IsTrue, Contains};
ghost use Rattle.cube_view.specs.Places.{time_dim};
ghost use Rattle.cube_view.specs.Walks.{across};
ghost use Rattle.node_arena.specs.Slots.{IsNode, slot_of, link_of, target, shared};
ghost use Rattle.proper_path.specs.Stepped.{KeepsRoom, LeadsInside};
ghost use Rattle.point_insert.specs.Visited.{IsFilled, Fills, FillsByCopy, SharesOf, TellsOnlyChild, place_of};

use crate::updated::Updated;
use arena_undo::Work;
use cube_view::Schema;
use node_arena::{Link, SlotId};
use probe_core::Steps;
use std::sync::ledger::Ledger;
use texts::NoMemory;

/// Whether a dimension is time.
pub fn is_time(schema: &Schema, dim: u8) -> bool
    requires { 2 ≤ dim }
    ensures { IsTrue result ↔ (dim ≡ time_dim schema.now) }
{
    dim as usize - 2 == schema.categories.len()
}

/// The link to the node's only child. None comes exactly where it has two children or none.
pub fn only_child(work: &Work, at: SlotId) -> Option<Link>
    requires in_range { at.0 < length work.now.slots }
    requires is_node { IsNode (slot_of work.now.slots at.0) }
    ensures { TellsOnlyChild work.now.slots at.0 result }
{
    work.only_child(at)
}

/// The first case: the node takes its only child's content, as a shared link.
pub fn share_content<L: Ledger>(work: &mut Work, at: SlotId, child: Link, steps: &mut Steps<L>)
    requires room { work.old.made + 1 ≤ work.old.room }
    requires at_in { at.0 < length work.old.slots }
    requires is_node { IsNode (slot_of work.old.slots at.0) }
    requires child_in { target child < length work.old.slots }
    requires child_node { IsNode (slot_of work.old.slots (target child)) }
    ensures shared { SharesOf work.old.slots work.new.slots at.0 child }
    ensures changes { KeepsRoom 1 work.old work.new }
{
    // The child was visited before, so it has a content.
    if let Some(content) = work.content(child.to, steps) {
        work.set_content(at, Some(content.shared()));
    }
}

/// The second case: a node that has no content gets an empty one of its own, which is a time table in the last
/// dimension.
pub fn make_content(
    work: &mut Work,
    schema: &Schema,
    dim: u8,
    at: SlotId,
) -> Result<SlotId, NoMemory>
    requires dim { (1 ≤ dim) × (dim < time_dim schema.now) }
    requires room { work.old.made + 2 ≤ work.old.room }
    requires in_range { at.0 < length work.old.slots }
    requires is_node { IsNode (slot_of work.old.slots at.0) }
    requires none { link_of work.old.slots at.0 across ≡ None }
    ensures filled { IfOk result (λ content. Fills (time_dim schema.now) (dim + 1) work.old.slots at.0 work.new.slots content.0) }
    ensures changes { KeepsRoom 2 work.old work.new }
{
    if is_time(schema, dim + 1) {
        let table = work.add_table()?;
        work.set_content(at, Some(Link::proper(table)));
        Ok(table)
    } else {
        let node = work.add_node()?;
        work.set_content(at, Some(Link::proper(node)));
        Ok(node)
    }
}

/// The third case: a shared content to which the point was not added is replaced by a copy of the node's own.
pub fn copy_content(work: &mut Work, at: SlotId, from: SlotId) -> Result<SlotId, NoMemory>
    requires room { work.old.made + 2 ≤ work.old.room }
    requires in_range { at.0 < length work.old.slots }
    requires is_node { IsNode (slot_of work.old.slots at.0) }
    requires from { link_of work.old.slots at.0 across ≡ Some (shared from.0) }
    requires from_in { from.0 < length work.old.slots }
    ensures filled { IfOk result (λ content. FillsByCopy from.0 work.old.slots at.0 work.new.slots content.0) }
    ensures changes { KeepsRoom 2 work.old work.new }
{
    let copy = work.copy_slot(from)?;
    work.set_content(at, Some(Link::proper(copy)));
    Ok(copy)
}

/// The content of a node that has not exactly one child, made its own, as the second to fourth case say. None comes in
/// the fifth: the content is shared, and the point was added to it.
pub fn own_content<L: Ledger>(
    work: &mut Work,
    schema: &Schema,
    dim: u8,
    at: SlotId,
    updated: &Updated,
    steps: &mut Steps<L>,
) -> Result<Option<SlotId>, NoMemory>
    requires dim { (1 ≤ dim) × (dim < time_dim schema.now) }
    requires room { work.old.made + 2 ≤ work.old.room }
    requires in_range { at.0 < length work.old.slots }
    requires is_node { IsNode (slot_of work.old.slots at.0) }
    requires inside { LeadsInside work.old.slots at.0 across }
    ensures filled { IfOk result (λ content. IsFilled (time_dim schema.now) (dim + 1) updated.now work.old.slots at.0 work.new.slots (place_of content)) }
    ensures changes { KeepsRoom 2 work.old work.new }
{
    // Case 2: the node is new.
    let Some(link) = work.content(at, steps) else {
        let made = make_content(work, schema, dim, at)?;
        return Ok(Some(made));
    };
    // Case 4.
    if link.is_proper() {
        return Ok(Some(link.to));
    }
    // Case 5: it is the content of a finer node, which was visited before, and the point was added to it then.
    if updated.has(link.to) {
        return Ok(None);
    }
    // Case 3: its home does not hold the point, so what is counted there stays as it is.
    let copy = copy_content(work, at, link.to)?;
    Ok(Some(copy))
}
