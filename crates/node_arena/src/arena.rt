//! The arena: slots in a list, each named by its place.
ghost use Rattle.std.specs.Prelude.{◌≡◌, ◌+◌, ◌≤◌, ◌<◌, ◌^◌, ◌↔◌, [], length, take, None, Some, IfOk, OnOk, OnErr, is_some, IsSome, IsTrue};
ghost use Rattle.std.specs.FinMap.{contains_key};
ghost use Rattle.probe_core.specs.Bits.{bits};
ghost use Rattle.probe_core.specs.Blanks.{IsBlankOf};
ghost use Rattle.time_table.specs.Counts.{AllCounted, IsBinRun, run_total, total_count};
ghost use Rattle.cube_view.specs.Walks.{down, across};
ghost use Rattle.node_arena.specs.Slots.{id_of, IsNode, IsTable, is_table, count, IsRising, slot_of, children_of, counts_of, link_of};
ghost use Rattle.node_arena.specs.Stats.{stat_of, AllRising, TellsStat};
ghost use Rattle.node_arena.specs.Calls.{with_slot, add_node, add_table, copy_slot, put_child, set_child, drop_child, set_content, table_add, table_take, table_add_many, table_add_run, table_take_many, child_from, only_link};

mod whole;

use crate::children::Children;
use crate::link::{Link, SlotId};
use crate::packed::Content;
use crate::slot::Stored;
use block_list::BlockList;
use cube_view::Stat;
use probe_core::Steps;
use std::alloc::Global;
use std::marker::{Brand, Model};
use std::sync::ledger::{Blank, Ledger};
use texts::NoMemory;
use time_table::TimeTable;

/// The slots of a cube. Nodes and time tables are added at the end, and a slot keeps its place; where
/// there are 2^32 slots, an addition answers want of memory. Readers count a step for each slot that they
/// visit and for each child that they probe.
#[derive(Drop)]
pub struct Arena {
    alloc: Global,
    slots: BlockList<Stored>,
}

impl Model for Arena {
    ghost use Rattle.std.specs.Prelude.{List, map};
    ghost use Rattle.std.specs.Coded.{codes};
    ghost use Rattle.node_arena.specs.Slots.{Slot, counts_code};
    ghost use Rattle.node_arena.specs.Stored.{slot_from};

    ghost Value = { List Slot };

    ghost coded = { Prim.hlevel (codes, counts_code) };

    ghost view = { λ a. map slot_from a.slots };
}

impl Arena {
    ghost use Rattle.node_arena.specs.Stored.{slot_from};

    /// No slots.
    pub fn new(alloc: Global) -> Arena
        ensures { result ≡ [] }
    {
        Arena {
            alloc,
            slots: BlockList::new(alloc),
        }
    }

    /// How many slots there are.
    pub fn len(&self) -> usize
        ensures { result ≡ length self.now }
    {
        self.slots.len()
    }

    /// Whether there are none.
    pub fn is_empty(&self) -> bool
        ensures { IsTrue result ↔ (self.now ≡ []) }
    {
        self.len() == 0
    }

    /// How many nodes and time tables there are, and how many proper and shared links. In the shape of a
    /// cube every slot but the root has one proper link.
    pub fn stat(&self) -> Stat
        ensures numbers { result ≡ stat_of self.now }
        ensures in_order { AllRising self.now }
        ensures links { TellsStat self.now result }
    {
        let mut stat = Stat {
            nodes: 0,
            tables: 0,
            proper: 0,
            shared: 0,
        };
        for i in 0..self.slots.len() {
            stat = self.slot(i).counted_with(stat);
        }
        stat
    }

    /// Adds an empty node. For want of memory the slots are as before.
    pub fn add_node(&mut self) -> Result<SlotId, NoMemory>
        ensures id { IfOk result (λ id. id ≡ id_of (length self.old)) }
        ensures added { OnOk result (self.new ≡ add_node self.old) }
        ensures unchanged { OnErr result (self.new ≡ self.old) }
    {
        let node = Stored::Node(Children::new(self.alloc), Content::new(None));
        self.add(node)
    }

    /// Adds an empty time table. For want of memory the slots are as before.
    pub fn add_table(&mut self) -> Result<SlotId, NoMemory>
        ensures id { IfOk result (λ id. id ≡ id_of (length self.old)) }
        ensures added { OnOk result (self.new ≡ add_table self.old) }
        ensures unchanged { OnErr result (self.new ≡ self.old) }
    {
        let table = Stored::Table(TimeTable::new(self.alloc));
        self.add(table)
    }

    /// Adds a shallow copy of a slot: all links of the copy are shared, and a time table has the same
    /// counts. For want of memory the slots are as before.
    pub fn copy_slot(&mut self, id: SlotId) -> Result<SlotId, NoMemory>
        requires { id.0 < length self.old }
        ensures id { IfOk result (λ copy. copy ≡ id_of (length self.old)) }
        ensures copied { OnOk result (self.new ≡ copy_slot self.old id.0) }
        ensures unchanged { OnErr result (self.new ≡ self.old) }
    {
        let copy = self.slot(id.0 as usize).copied(self.alloc)?;
        self.add(copy)
    }

    /// Puts a child of a new label. For want of memory the slots are as before.
    pub fn put_child(&mut self, id: SlotId, label: u8, link: Link) -> Result<(), NoMemory>
        requires in_range { id.0 < length self.old }
        requires is_node { IsNode (slot_of self.old id.0) }
        requires is_new { link_of self.old id.0 (down label) ≡ None }
        ensures put { OnOk result (self.new ≡ put_child self.old id.0 label link) }
        ensures unchanged { OnErr result (self.new ≡ self.old) }
    {
        let slot = self.slots.get_mut(id.0 as usize);
        slot.put_child(label, link)
    }

    /// Sets another link to a child that is there, and gives the old one.
    pub fn set_child(&mut self, id: SlotId, label: u8, link: Link) -> Link
        requires in_range { id.0 < length self.old }
        requires is_node { IsNode (slot_of self.old id.0) }
        requires is_there { IsSome (link_of self.old id.0 (down label)) }
        ensures given { link_of self.old id.0 (down label) ≡ Some result }
        ensures set { self.new ≡ set_child self.old id.0 label link }
    {
        let slot = self.slots.get_mut(id.0 as usize);
        slot.set_child(label, link)
    }

    /// Takes a child off that is there, and gives its link.
    pub fn drop_child(&mut self, id: SlotId, label: u8) -> Link
        requires in_range { id.0 < length self.old }
        requires is_node { IsNode (slot_of self.old id.0) }
        requires is_there { IsSome (link_of self.old id.0 (down label)) }
        ensures given { link_of self.old id.0 (down label) ≡ Some result }
        ensures dropped { self.new ≡ drop_child self.old id.0 label }
    {
        let slot = self.slots.get_mut(id.0 as usize);
        slot.drop_child(label)
    }

    /// Sets the content, or none, and gives the old one.
    pub fn set_content(&mut self, id: SlotId, link: Option<Link>) -> Option<Link>
        requires in_range { id.0 < length self.old }
        requires is_node { IsNode (slot_of self.old id.0) }
        ensures given { result ≡ link_of self.old id.0 across }
        ensures set { self.new ≡ set_content self.old id.0 link }
    {
        let slot = self.slots.get_mut(id.0 as usize);
        slot.set_content(link)
    }

    /// Counts a record more in a bin of a time table. For want of memory the slots are as before.
    pub fn table_add(&mut self, id: SlotId, bin: u32) -> Result<(), NoMemory>
        requires in_range { id.0 < length self.old }
        requires is_table { IsTable (slot_of self.old id.0) }
        requires fits { total_count (counts_of (slot_of self.old id.0)) < 2 ^ 63 }
        ensures added { OnOk result (self.new ≡ table_add self.old id.0 bin) }
        ensures unchanged { OnErr result (self.new ≡ self.old) }
        ensures was_counted { AllCounted (counts_of (slot_of self.old id.0)) }
    {
        self.table_add_many(id, bin, 1)
    }

    /// Counts a record less in a bin of a time table that has one.
    pub fn table_take(&mut self, id: SlotId, bin: u32)
        requires in_range { id.0 < length self.old }
        requires is_table { IsTable (slot_of self.old id.0) }
        requires is_there { IsTrue (contains_key (counts_of (slot_of self.old id.0)) bin) }
        ensures { self.new ≡ table_take self.old id.0 bin }
    {
        let slot = self.slots.get_mut(id.0 as usize);
        slot.take_one(bin);
    }

    /// Counts an amount more in a bin of a time table. For want of memory the slots are as before.
    pub fn table_add_many(&mut self, id: SlotId, bin: u32, amount: u64) -> Result<(), NoMemory>
        requires in_range { id.0 < length self.old }
        requires is_table { IsTable (slot_of self.old id.0) }
        requires some { 0 < amount }
        requires fits { total_count (counts_of (slot_of self.old id.0)) + amount ≤ 2 ^ 63 }
        ensures added { OnOk result (self.new ≡ table_add_many self.old id.0 bin amount) }
        ensures unchanged { OnErr result (self.new ≡ self.old) }
        ensures was_counted { AllCounted (counts_of (slot_of self.old id.0)) }
    {
        let slot = self.slots.get_mut(id.0 as usize);
        slot.add_many(bin, amount)
    }

    /// Counts amounts more in a time table, each in its bin. For want of memory the arena is as before.
    pub fn table_add_run(&mut self, id: SlotId, run: &[(u32, u64)]) -> Result<(), NoMemory>
        requires in_range { id.0 < length self.old }
        requires is_table { IsTable (slot_of self.old id.0) }
        requires run { IsBinRun run.now }
        requires fits { total_count (counts_of (slot_of self.old id.0)) + run_total run.now ≤ 2 ^ 63 }
        ensures added { OnOk result (self.new ≡ table_add_run self.old id.0 run.now) }
        ensures unchanged { OnErr result (self.new ≡ self.old) }
        ensures was_counted { AllCounted (counts_of (slot_of self.old id.0)) }
    {
        let slot = self.slots.get_mut(id.0 as usize);
        slot.add_run(run)
    }

    /// Counts an amount less in a bin of a time table that has as much. It takes no memory.
    pub fn table_take_many(&mut self, id: SlotId, bin: u32, amount: u64)
        requires in_range { id.0 < length self.old }
        requires is_table { IsTable (slot_of self.old id.0) }
        requires some { 0 < amount }
        requires is_there { amount ≤ count (slot_of self.old id.0) bin }
        ensures { self.new ≡ table_take_many self.old id.0 bin amount }
    {
        let slot = self.slots.get_mut(id.0 as usize);
        slot.take_many(bin, amount);
    }

    /// Whether a slot is a time table.
    pub fn is_table(&self, id: SlotId) -> bool
        requires { id.0 < length self.now }
        ensures { result ≡ is_table (slot_of self.now id.0) }
    {
        self.slot(id.0 as usize).is_table()
    }

    /// Whether a slot has a content.
    pub fn has_content(&self, id: SlotId) -> bool
        requires { id.0 < length self.now }
        ensures { result ≡ is_some (link_of self.now id.0 across) }
    {
        self.slot(id.0 as usize).has_content()
    }

    /// Takes off the slots from a place on.
    pub fn cut(&mut self, len: usize)
        requires { len ≤ length self.old }
        ensures { self.new ≡ take len self.old }
    {
        self.slots.cut(len);
    }

    /// The link to the child of a label. None comes exactly where there is none.
    pub fn child<L: Ledger>(&self, id: SlotId, label: u8, steps: &mut Steps<L>) -> Option<Link>
        requires in_range { id.0 < length self.now }
        requires is_node { IsNode (slot_of self.now id.0) }
        ensures link { result ≡ link_of self.now id.0 (down label) }
        ensures cost { steps.new ≤ steps.old + (1 + bits (length (children_of (slot_of self.now id.0)))) }
        ensures a_step { steps.old + 1 ≤ steps.new }
        ensures in_order { IsRising (children_of (slot_of self.now id.0)) }
    {
        self.counted_slot(id.0 as usize, steps).child(label, steps)
    }

    /// The first child whose label is `from` or later. None comes exactly where there is none.
    pub fn next_child<L: Ledger>(
        &self,
        id: SlotId,
        from: u8,
        steps: &mut Steps<L>,
    ) -> Option<(u8, Link)>
        requires in_range { id.0 < length self.now }
        requires is_node { IsNode (slot_of self.now id.0) }
        ensures child { result ≡ child_from (children_of (slot_of self.now id.0)) from }
        ensures cost { steps.new ≤ steps.old + (1 + bits (length (children_of (slot_of self.now id.0)))) }
        ensures a_step { steps.old + 1 ≤ steps.new }
        ensures in_order { IsRising (children_of (slot_of self.now id.0)) }
    {
        self.counted_slot(id.0 as usize, steps)
            .next_child(from, steps)
    }

    /// The link to the content. None comes exactly where there is none.
    pub fn content<L: Ledger>(&self, id: SlotId, steps: &mut Steps<L>) -> Option<Link>
        requires in_range { id.0 < length self.now }
        requires is_node { IsNode (slot_of self.now id.0) }
        ensures link { result ≡ link_of self.now id.0 across }
        ensures cost { steps.new ≡ steps.old + 1 }
    {
        self.counted_slot(id.0 as usize, steps).content()
    }

    /// A time table.
    pub fn table<L: Ledger>(&self, id: SlotId, steps: &mut Steps<L>) -> &TimeTable
        requires in_range { id.0 < length self.now }
        requires is_table { IsTable (slot_of self.now id.0) }
        ensures counts { result.now ≡ counts_of (slot_of self.now id.0) }
        ensures cost { steps.new ≡ steps.old + 1 }
    {
        self.counted_slot(id.0 as usize, steps).table()
    }

    /// The link to the only child. None comes exactly where there is not exactly one.
    pub fn only_child(&self, id: SlotId) -> Option<Link>
        requires in_range { id.0 < length self.now }
        requires is_node { IsNode (slot_of self.now id.0) }
        ensures link { result ≡ only_link (children_of (slot_of self.now id.0)) }
        ensures in_order { IsRising (children_of (slot_of self.now id.0)) }
    {
        self.slot(id.0 as usize).only_child()
    }

    /// Adds a slot at the end, unless there are 2^32 of them, as if there were no memory for more.
    fn add(&mut self, slot: Stored) -> Result<SlotId, NoMemory>
        ensures id { IfOk result (λ id. id ≡ id_of (length self.old)) }
        ensures added { OnOk result (self.new ≡ with_slot self.old (slot_from slot)) }
        ensures unchanged { OnErr result (self.new ≡ self.old) }
    {
        // A slot's place has 32 bits, so that three children lie in a slot.
        let Ok(place) = u32::try_from(self.slots.len()) else {
            return Err(NoMemory);
        };
        match self.slots.push(slot) {
            Ok(_) => Ok(SlotId(place)),
            Err(_) => Err(NoMemory),
        }
    }

    /// The slot at a place, in one step.
    fn counted_slot<L: Ledger>(&self, i: usize, steps: &mut Steps<L>) -> &Stored
        requires { i < length self.now }
        ensures slot { slot_from result.now ≡ slot_of self.now i }
        ensures one_step { steps.new ≡ steps.old + 1 }
    {
        self.slots.get(i, steps)
    }

    /// The slot at a place, where nobody counts the steps.
    fn slot(&self, i: usize) -> &Stored
        requires { i < length self.now }
        ensures { slot_from result.now ≡ slot_of self.now i }
    {
        self.slot_in::<Brand>(i, Blank::new(1))
    }

    /// The slot at a place, in a ledger of its own.
    fn slot_in<L: Ledger>(&self, i: usize, blank: Blank) -> &Stored
        requires blank { IsBlankOf L.name L.parts blank }
        requires within { i < length self.now }
        ensures { slot_from result.now ≡ slot_of self.now i }
    {
        let mut steps = Steps::<L>::new(blank);
        self.counted_slot(i, &mut steps)
    }
}
