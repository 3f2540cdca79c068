//! A change of an arena, with what it takes to undo it.
ghost use Rattle.std.specs.Prelude.{◌≡◌, ◌+◌, ◌<◌, ◌≤◌, nat_lt, [], ◌∷◌, length, vec_len, vec_capacity};
ghost use Rattle.arena_undo.specs.Undone.{CanTake, counted_each, take_back, with_notes, TellsNewContent};

use node_arena::{Arena, Link, SlotId};

/// A change of a slot that stood at the beginning. One of a slot that was added since then is not noted: undoing cuts
/// the slot off.
#[derive(Clone, Copy)]
pub enum Change {
    /// A child of a new label was put.
    Put(SlotId, u8),
    /// A child's link was replaced. The old link is kept.
    Relinked(SlotId, u8, Link),
    /// A content was set. The old one is kept.
    Filled(SlotId, Option<Link>),
    /// An amount was counted in a bin.
    Counted(SlotId, u32, u64),
}

/// Takes the change back, where it is the last one that was made.
pub fn take_change_back(arena: &mut Arena, change: Change)
    requires { CanTake change arena.old }
    ensures { arena.new ≡ take_back change arena.old }
{
    match change {
        Change::Put(id, label) => {
            arena.drop_child(id, label);
        }
        Change::Relinked(id, label, old) => {
            arena.set_child(id, label, old);
        }
        Change::Filled(id, old) => {
            arena.set_content(id, old);
        }
        Change::Counted(id, bin, amount) => arena.table_take_many(id, bin, amount),
    }
}

/// Whether a slot stood at the beginning, when there were so many.
pub fn is_old(id: SlotId, first: usize) -> bool
    ensures { result ≡ nat_lt id.0 first }
{
    (id.0 as usize) < first
}

/// Whether a content that was set has to be noted: the slot stood at the beginning, and had another content.
pub fn is_new_content(id: SlotId, first: usize, old: Option<Link>, link: Option<Link>) -> bool
    ensures { TellsNewContent id.0 first old link result }
{
    if !is_old(id, first) {
        return false;
    }
    match (old, link) {
        (Some(old), Some(link)) => old != link,
        (None, None) => false,
        _ => true,
    }
}

/// Notes a change, if one is wanted, in the room that was taken for it.
pub fn note(changes: &mut Vec<Change>, wanted: bool, change: Change)
    requires { vec_len changes.old < vec_capacity changes.old }
    ensures noted { changes.new.items ≡ with_notes wanted (change ∷ []) changes.old.items }
    ensures room { vec_capacity changes.old ≤ vec_capacity changes.new }
{
    if !wanted {
        return;
    }
    match changes.push(change) {
        Ok(()) => {}
        Err(_) => unreachable!(),
    }
}

/// Notes a change for each amount of a run, if they are wanted, in the room that was taken for them.
pub fn note_run(changes: &mut Vec<Change>, wanted: bool, id: SlotId, run: &[(u32, u64)])
    requires { vec_len changes.old + length run.now ≤ vec_capacity changes.old }
    ensures noted { changes.new.items ≡ with_notes wanted (counted_each id run.now) changes.old.items }
    ensures room { vec_capacity changes.old ≤ vec_capacity changes.new }
{
    if !wanted {
        return;
    }
    for i in 0..run.len() {
        let (bin, amount) = run[i];
        note(changes, true, Change::Counted(id, bin, amount));
    }
}
