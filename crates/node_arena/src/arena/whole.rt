//! Slots that are put whole, and children that are read one after another without a search.
ghost use Rattle.std.specs.Prelude.{◌≡◌, ◌<◌, ◌≤◌, ◌^◌, length, slice_index_or, OnOk, OnErr};
ghost use Rattle.std.specs.FinMap.{from_sorted};
ghost use Rattle.time_table.specs.Rows.{AreRows, row_total};
ghost use Rattle.node_arena.specs.Slots.{IsNode, IsRising, node, table, slot_of, children_of};
ghost use Rattle.node_arena.specs.Calls.{with_slot};
ghost use Rattle.node_arena.specs.Stats.{AllRising};

use super::Arena;
use crate::children::Children;
use crate::link::{Link, SlotId};
use crate::packed::Content;
use crate::slot::Stored;
use texts::NoMemory;
use time_table::TimeTable;

impl Arena {
    /// Adds a node with its children, which are listed in rising order of label, and its content. For want of memory
    /// the slots are as before.
    pub fn put_node(
        &mut self,
        children: &[(u8, Link)],
        content: Option<Link>,
    ) -> Result<(), NoMemory>
        requires { IsRising children.now }
        ensures put { OnOk result (self.new ≡ with_slot self.old (node children.now content)) }
        ensures unchanged { OnErr result (self.new ≡ self.old) }
    {
        let children = Children::of_list(self.alloc, children)?;
        let _ = self.add(Stored::Node(children, Content::new(content)))?;
        Ok(())
    }

    /// Adds a time table of bins with their counts, which are listed in rising order of bin. For want of memory the
    /// slots are as before.
    pub fn put_table(&mut self, rows: &[(u32, u64)]) -> Result<(), NoMemory>
        requires fit { AreRows 0 rows.now }
        requires light { row_total rows.now ≤ 2 ^ 63 }
        ensures put { OnOk result (self.new ≡ with_slot self.old (table (from_sorted rows.now))) }
        ensures unchanged { OnErr result (self.new ≡ self.old) }
    {
        let counts = TimeTable::of_rows(self.alloc, rows)?;
        let _ = self.add(Stored::Table(counts))?;
        Ok(())
    }

    /// How many children a slot has: a time table has none.
    pub fn child_count(&self, id: SlotId) -> usize
        requires { id.0 < length self.now }
        ensures count { result ≡ length (children_of (slot_of self.now id.0)) }
        ensures in_order { IsRising (children_of (slot_of self.now id.0)) }
    {
        self.count_at(id.0 as usize)
    }

    /// How many children the slot at a place has.
    fn count_at(&self, i: usize) -> usize
        requires { i < length self.now }
        ensures count { result ≡ length (children_of (slot_of self.now i)) }
        ensures in_order { IsRising (children_of (slot_of self.now i)) }
    {
        match self.slot(i) {
            Stored::Node(children, _) => children.len(),
            Stored::Table(_) => 0,
        }
    }

    /// Contracts learn that the labels of each node rise. What it asks of each slot is not used, so nothing of it is
    /// left at run time.
    pub fn tell_order(&self)
        ensures { AllRising self.now }
    {
        for i in 0..self.slots.len() {
            let _ = self.count_at(i);
        }
    }

    /// The child of a node at a place, from 0 in rising order of label.
    pub fn child_at(&self, id: SlotId, i: usize) -> (u8, Link)
        requires in_range { id.0 < length self.now }
        requires is_node { IsNode (slot_of self.now id.0) }
        requires within { i < length (children_of (slot_of self.now id.0)) }
        ensures child { result ≡ slice_index_or (children_of (slot_of self.now id.0)) i result }
        ensures in_order { IsRising (children_of (slot_of self.now id.0)) }
    {
        match self.slot(id.0 as usize) {
            Stored::Node(children, _) => children.at(i),
            Stored::Table(_) => unreachable!(),
        }
    }
}
