//! An arena at work.
ghost use Rattle.std.specs.Prelude.{◌≡◌, ◌+◌, ◌<◌, ◌≤◌, ◌^◌, length, None, Some, IfOk, IfErr, OnOk, OnErr, IsSome};
ghost use Rattle.probe_core.specs.Bits.{bits};
ghost use Rattle.time_table.specs.Counts.{AllCounted, IsBinRun, run_total, total_count};
ghost use Rattle.cube_view.specs.Walks.{down, across};
ghost use Rattle.node_arena.specs.Slots.{id_of, IsNode, IsTable, is_table, IsRising, slot_of, children_of, counts_of, link_of};
ghost use Rattle.node_arena.specs.Calls.{add_node, add_table, copy_slot, put_child, set_child, set_content, table_add, table_add_many, table_add_run, child_from, only_link};
ghost use Rattle.node_arena.specs.Stats.{stat_of, AllRising, TellsStat};
ghost use Rattle.arena_undo.specs.Worked.{begun, changed, changed_by};

use crate::change::{Change, is_new_content, is_old, note, note_run, take_change_back};
use cube_view::Stat;
use node_arena::{Arena, Link, SlotId};
use probe_core::Steps;
use std::alloc::Global;
use std::marker::Model;
use std::sync::ledger::Ledger;
use texts::NoMemory;
use time_table::TimeTable;

/// An arena, and a trail of the changes that were made on it, with room for a number of them. The trail has those of
/// the slots that stood at the beginning, the `first` ones. All others are `made` too, and take no room of the trail.
#[derive(Drop)]
pub struct Work {
    arena: Arena,
    changes: Vec<Change>,
    first: usize,
    made: usize,
    room: usize,
}

impl Model for Work {
    ghost use Rattle.std.specs.Prelude.{take};
    ghost use Rattle.std.specs.Vec.{vec_capacity};
    ghost use Rattle.std.specs.Coded.{codes};
    ghost use Rattle.node_arena.specs.Slots.{counts_code};
    ghost use Rattle.arena_undo.specs.Worked.{Worked};

    ghost Value = { Worked };

    ghost coded = { Prim.hlevel (codes, counts_code) };

    ghost use Rattle.arena_undo.specs.Undone.{undone};
    ghost use Rattle.arena_undo.specs.Trail.{IsChangeTrail};

    ghost view = { λ w. record { slots = w.arena; start = undone w.changes.items (take w.first w.arena); made = w.made; room = w.room } };

    ghost invariant = { λ w. IsChangeTrail w.arena w.changes.items w.first w.made w.room (vec_capacity w.changes) };
}

impl Work {
    /// Takes the arena and the memory for `room` changes. For want of memory the arena comes back.
    pub fn begin(alloc: Global, arena: Arena, room: usize) -> Result<Work, Arena>
        ensures begun { IfOk result (λ work. work ≡ begun arena room) }
        ensures back { IfErr result (λ again. again ≡ arena) }
    {
        let first = arena.len();
        match Vec::with_capacity(alloc, room) {
            Ok(changes) => Ok(Work {
                arena,
                changes,
                first,
                made: 0,
                room,
            }),
            Err(_) => Err(arena),
        }
    }

    /// Makes room for so many changes more. For want of memory nothing is changed.
    pub fn reserve(&mut self, more: usize) -> Result<(), NoMemory>
        ensures room { OnOk result (self.old.made + more ≤ self.new.room) }
        ensures kept { (self.new.slots ≡ self.old.slots) × (self.new.start ≡ self.old.start) × (self.new.made ≡ self.old.made) }
        ensures not_less { self.old.room ≤ self.new.room }
    {
        if self.changes.try_reserve(more).is_err() {
            return Err(NoMemory);
        }
        // No memory holds so many changes that the sum has no number.
        let free = self.changes.capacity() - self.changes.len();
        match self.made.checked_add(free) {
            Some(room) => {
                self.room = room;
                Ok(())
            }
            None => Err(NoMemory),
        }
    }

    /// The arena as it is.
    pub fn keep(self) -> Arena
        ensures { result ≡ self.slots }
    {
        let Work {
            arena,
            changes: _,
            first: _,
            made: _,
            room: _,
        } = self;
        arena
    }

    /// The arena as it was at the beginning.
    pub fn undo(self) -> Arena
        ensures { result ≡ self.start }
    {
        let Work {
            mut arena,
            mut changes,
            first,
            made: _,
            room: _,
        } = self;
        arena.cut(first);
        while let Some(change) = changes.pop() {
            take_change_back(&mut arena, change);
        }
        arena
    }

    /// Adds an empty node. For want of memory nothing is changed or recorded.
    pub fn add_node(&mut self) -> Result<SlotId, NoMemory>
        requires { self.old.made < self.old.room }
        ensures id { IfOk result (λ id. id ≡ id_of (length self.old.slots)) }
        ensures added { OnOk result (self.new ≡ changed self.old (add_node self.old.slots)) }
        ensures unchanged { OnErr result (self.new ≡ self.old) }
    {
        let id = self.arena.add_node()?;
        self.made += 1;
        Ok(id)
    }

    /// Adds an empty time table. For want of memory nothing is changed or recorded.
    pub fn add_table(&mut self) -> Result<SlotId, NoMemory>
        requires { self.old.made < self.old.room }
        ensures id { IfOk result (λ id. id ≡ id_of (length self.old.slots)) }
        ensures added { OnOk result (self.new ≡ changed self.old (add_table self.old.slots)) }
        ensures unchanged { OnErr result (self.new ≡ self.old) }
    {
        let id = self.arena.add_table()?;
        self.made += 1;
        Ok(id)
    }

    /// Adds a shallow copy of a slot. For want of memory nothing is changed or recorded.
    pub fn copy_slot(&mut self, id: SlotId) -> Result<SlotId, NoMemory>
        requires room { self.old.made < self.old.room }
        requires in_range { id.0 < length self.old.slots }
        ensures id { IfOk result (λ copy. copy ≡ id_of (length self.old.slots)) }
        ensures copied { OnOk result (self.new ≡ changed self.old (copy_slot self.old.slots id.0)) }
        ensures unchanged { OnErr result (self.new ≡ self.old) }
    {
        let copy = self.arena.copy_slot(id)?;
        self.made += 1;
        Ok(copy)
    }

    /// Puts a child of a new label. For want of memory nothing is changed or recorded.
    pub fn put_child(&mut self, id: SlotId, label: u8, link: Link) -> Result<(), NoMemory>
        requires room { self.old.made < self.old.room }
        requires in_range { id.0 < length self.old.slots }
        requires is_node { IsNode (slot_of self.old.slots id.0) }
        requires is_new { link_of self.old.slots id.0 (down label) ≡ None }
        ensures put { OnOk result (self.new ≡ changed self.old (put_child self.old.slots id.0 label link)) }
        ensures unchanged { OnErr result (self.new ≡ self.old) }
    {
        self.arena.put_child(id, label, link)?;
        self.made += 1;
        let wanted = is_old(id, self.first);
        note(&mut self.changes, wanted, Change::Put(id, label));
        Ok(())
    }

    /// Sets another link to a child that is there, and gives the old one.
    pub fn set_child(&mut self, id: SlotId, label: u8, link: Link) -> Link
        requires room { self.old.made < self.old.room }
        requires in_range { id.0 < length self.old.slots }
        requires is_node { IsNode (slot_of self.old.slots id.0) }
        requires is_there { IsSome (link_of self.old.slots id.0 (down label)) }
        ensures given { link_of self.old.slots id.0 (down label) ≡ Some result }
        ensures set { self.new ≡ changed self.old (set_child self.old.slots id.0 label link) }
    {
        let old = self.arena.set_child(id, label, link);
        self.made += 1;
        let wanted = is_old(id, self.first);
        note(&mut self.changes, wanted, Change::Relinked(id, label, old));
        old
    }

    /// Sets the content, or none, and gives the old one.
    pub fn set_content(&mut self, id: SlotId, link: Option<Link>) -> Option<Link>
        requires room { self.old.made < self.old.room }
        requires in_range { id.0 < length self.old.slots }
        requires is_node { IsNode (slot_of self.old.slots id.0) }
        ensures given { result ≡ link_of self.old.slots id.0 across }
        ensures set { self.new ≡ changed self.old (set_content self.old.slots id.0 link) }
    {
        let old = self.arena.set_content(id, link);
        self.made += 1;
        let wanted = is_new_content(id, self.first, old, link);
        note(&mut self.changes, wanted, Change::Filled(id, old));
        old
    }

    /// Counts a record more in a bin of a time table. For want of memory nothing is changed or recorded.
    pub fn table_add(&mut self, id: SlotId, bin: u32) -> Result<(), NoMemory>
        requires room { self.old.made < self.old.room }
        requires in_range { id.0 < length self.old.slots }
        requires is_table { IsTable (slot_of self.old.slots id.0) }
        requires fits { total_count (counts_of (slot_of self.old.slots id.0)) < 2 ^ 63 }
        ensures added { OnOk result (self.new ≡ changed self.old (table_add self.old.slots id.0 bin)) }
        ensures unchanged { OnErr result (self.new ≡ self.old) }
        ensures was_counted { AllCounted (counts_of (slot_of self.old.slots id.0)) }
    {
        self.table_add_many(id, bin, 1)
    }

    /// Counts an amount more in a bin of a time table, as one change. For want of memory nothing is
    /// changed or recorded.
    pub fn table_add_many(&mut self, id: SlotId, bin: u32, amount: u64) -> Result<(), NoMemory>
        requires room { self.old.made < self.old.room }
        requires in_range { id.0 < length self.old.slots }
        requires is_table { IsTable (slot_of self.old.slots id.0) }
        requires some { 0 < amount }
        requires fits { total_count (counts_of (slot_of self.old.slots id.0)) + amount ≤ 2 ^ 63 }
        ensures added { OnOk result (self.new ≡ changed self.old (table_add_many self.old.slots id.0 bin amount)) }
        ensures unchanged { OnErr result (self.new ≡ self.old) }
        ensures was_counted { AllCounted (counts_of (slot_of self.old.slots id.0)) }
    {
        self.arena.table_add_many(id, bin, amount)?;
        self.made += 1;
        let wanted = is_old(id, self.first);
        note(&mut self.changes, wanted, Change::Counted(id, bin, amount));
        Ok(())
    }

    /// Counts amounts more in a time table, each in its bin, as a change for each. For want of memory
    /// nothing is changed or recorded.
    pub fn table_add_run(&mut self, id: SlotId, run: &[(u32, u64)]) -> Result<(), NoMemory>
        requires room { self.old.made + length run.now ≤ self.old.room }
        requires in_range { id.0 < length self.old.slots }
        requires is_table { IsTable (slot_of self.old.slots id.0) }
        requires run { IsBinRun run.now }
        requires fits { total_count (counts_of (slot_of self.old.slots id.0)) + run_total run.now ≤ 2 ^ 63 }
        ensures added { OnOk result (self.new ≡ changed_by (length run.now) self.old (table_add_run self.old.slots id.0 run.now)) }
        ensures unchanged { OnErr result (self.new ≡ self.old) }
    {
        self.arena.table_add_run(id, run)?;
        self.made += run.len();
        let wanted = is_old(id, self.first);
        note_run(&mut self.changes, wanted, id, run);
        Ok(())
    }

    /// How many slots there are.
    pub fn len(&self) -> usize
        ensures { result ≡ length self.now.slots }
    {
        self.arena.len()
    }

    /// How many nodes and time tables there are, and how many proper and shared links.
    pub fn stat(&self) -> Stat
        ensures numbers { result ≡ stat_of self.now.slots }
        ensures in_order { AllRising self.now.slots }
        ensures links { TellsStat self.now.slots result }
    {
        self.arena.stat()
    }

    /// Whether a slot is a time table.
    pub fn is_table(&self, id: SlotId) -> bool
        requires { id.0 < length self.now.slots }
        ensures { result ≡ is_table (slot_of self.now.slots id.0) }
    {
        self.arena.is_table(id)
    }

    /// The link to the child of a label. None comes exactly where there is none.
    pub fn child<L: Ledger>(&self, id: SlotId, label: u8, steps: &mut Steps<L>) -> Option<Link>
        requires in_range { id.0 < length self.now.slots }
        requires is_node { IsNode (slot_of self.now.slots id.0) }
        ensures link { result ≡ link_of self.now.slots id.0 (down label) }
        ensures cost { steps.new ≤ steps.old + (1 + bits (length (children_of (slot_of self.now.slots id.0)))) }
        ensures a_step { steps.old + 1 ≤ steps.new }
        ensures in_order { IsRising (children_of (slot_of self.now.slots id.0)) }
    {
        self.arena.child(id, label, steps)
    }

    /// The first child whose label is `from` or later. None comes exactly where there is none.
    pub fn next_child<L: Ledger>(
        &self,
        id: SlotId,
        from: u8,
        steps: &mut Steps<L>,
    ) -> Option<(u8, Link)>
        requires in_range { id.0 < length self.now.slots }
        requires is_node { IsNode (slot_of self.now.slots id.0) }
        ensures child { result ≡ child_from (children_of (slot_of self.now.slots id.0)) from }
        ensures cost { steps.new ≤ steps.old + (1 + bits (length (children_of (slot_of self.now.slots id.0)))) }
        ensures a_step { steps.old + 1 ≤ steps.new }
        ensures in_order { IsRising (children_of (slot_of self.now.slots id.0)) }
    {
        self.arena.next_child(id, from, steps)
    }

    /// The link to the content. None comes exactly where there is none.
    pub fn content<L: Ledger>(&self, id: SlotId, steps: &mut Steps<L>) -> Option<Link>
        requires in_range { id.0 < length self.now.slots }
        requires is_node { IsNode (slot_of self.now.slots id.0) }
        ensures link { result ≡ link_of self.now.slots id.0 across }
        ensures cost { steps.new ≡ steps.old + 1 }
    {
        self.arena.content(id, steps)
    }

    /// A time table.
    pub fn table<L: Ledger>(&self, id: SlotId, steps: &mut Steps<L>) -> &TimeTable
        requires in_range { id.0 < length self.now.slots }
        requires is_table { IsTable (slot_of self.now.slots id.0) }
        ensures counts { result.now ≡ counts_of (slot_of self.now.slots id.0) }
        ensures cost { steps.new ≡ steps.old + 1 }
    {
        self.arena.table(id, steps)
    }

    /// The link to the only child. None comes exactly where there is not exactly one.
    pub fn only_child(&self, id: SlotId) -> Option<Link>
        requires in_range { id.0 < length self.now.slots }
        requires is_node { IsNode (slot_of self.now.slots id.0) }
        ensures link { result ≡ only_link (children_of (slot_of self.now.slots id.0)) }
        ensures in_order { IsRising (children_of (slot_of self.now.slots id.0)) }
    {
        self.arena.only_child(id)
    }
}
