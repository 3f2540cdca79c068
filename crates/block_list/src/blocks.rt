//! The list of blocks.
ghost use Rattle.std.specs.Prelude.{◌≡◌, ◌≢◌, ◌+◌, ◌%◌, ◌<◌, ◌≤◌, ◌↔◌, [], ◌∷◌, ◌++◌, length, take, slice_index_or, IfOk, IfErr, OnOk, OnErr, IsOk, IsTrue};
ghost use Rattle.std.specs.Borrow.{sem};

use crate::block::{item_at, pop_item, push_item};
use crate::raw::{BLOCK, RawBlock};
use probe_core::Steps;
use std::alloc::Global;
use std::marker::Model;
use std::sync::ledger::Ledger;

/// Items in order, each of which keeps its place in memory until it is dropped.
pub struct BlockList<T> {
    alloc: Global,
    blocks: Vec<RawBlock<T, Global>>,
    len: usize,
}

impl<T> Model for BlockList<T> {
    ghost use Rattle.std.specs.Prelude.{◌≡◌, List, length};
    ghost use Rattle.block_list.specs.Blocks.{held, joined, AreBlocks};

    ghost Value = { List T };

    ghost view = { λ list. joined (held list.blocks.items) };

    ghost invariant = { λ list. AreBlocks (held list.blocks.items) × (list.len ≡ length (joined (held list.blocks.items))) };
}

impl<T> BlockList<T> {
    ghost use Rattle.block_list.specs.Lends.{lends_item};

    /// No items, and no memory.
    pub fn new(alloc: Global) -> BlockList<T>
        ensures { result ≡ [] }
    {
        BlockList {
            alloc,
            blocks: Vec::new(alloc),
            len: 0,
        }
    }

    /// How many items there are.
    pub fn len(&self) -> usize
        ensures { result ≡ length self.now }
    {
        self.len
    }

    /// Whether there are none.
    pub fn is_empty(&self) -> bool
        ensures { IsTrue result ↔ (self.now ≡ []) }
    {
        self.len() == 0
    }

    /// Appends an item, and gives its place. Where memory is refused the item comes back, and the list is as
    /// before; memory is asked for only where every block is full.
    pub fn push(&mut self, item: T) -> Result<usize, T>
        ensures place { IfOk result (λ place. place ≡ length self.old) }
        ensures pushed { OnOk result (self.new ≡ self.old ++ item ∷ []) }
        ensures back { IfErr result (λ back. back ≡ item) }
        ensures unchanged { OnErr result (self.new ≡ self.old) }
        ensures not_refused { length self.old % 64 ≢ 0 → IsOk result }
    {
        let place = self.len;
        push_item(self.alloc, &mut self.blocks, place, item)?;
        self.len = place + 1;
        Ok(place)
    }

    /// The item at a place, in one step.
    pub fn get<L: Ledger>(&self, i: usize, steps: &mut Steps<L>) -> &T
        requires { i < length self.now }
        ensures item { result.now ≡ slice_index_or self.now i result.now }
        ensures one_step { steps.new ≡ steps.old + 1 }
    {
        steps.tick();
        item_at(&self.blocks, i)
    }

    /// The item at a place, to be written.
    pub fn get_mut(&mut self, i: usize) -> &mut T
        requires { i < length self.old }
        ensures* writes_back { sem 𝓛 (lends_item T.row self.entry i result) }
        ensures value { result.now ≡ slice_index_or self.old i result.now }
    {
        self.blocks[i / BLOCK].item_mut(i % BLOCK)
    }

    /// Takes the last item.
    fn pop(&mut self) -> T
        requires { 0 < length self.old }
        ensures { self.old ≡ self.new ++ result ∷ [] }
    {
        let last = self.len - 1;
        let item = pop_item(self.alloc, &mut self.blocks, last);
        self.len = last;
        item
    }
}

impl<T: Drop> BlockList<T> {
    /// Drops the items from a place on, each once. It takes no memory.
    pub fn cut(&mut self, n: usize)
        requires { n ≤ length self.old }
        ensures { self.new ≡ take n self.old }
    {
        while self.len > n {
            let _dropped = self.pop();
        }
    }
}

impl<T: Drop> Drop for BlockList<T> {
    fn drop(mut self) {
        self.cut(0);
        let BlockList {
            alloc: _,
            blocks,
            len: _,
        } = self;
        blocks.destroy_empty();
    }
}
