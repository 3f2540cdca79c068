//! Rows in order, each of which is stored in 8 or in 16 bytes.
ghost use Rattle.std.specs.Prelude.{◌≡◌, ◌+◌, ◌<◌, ◌≤◌, ◌^◌, ◌↔◌, [], length, insert, remove, slice_get, slice_index_or, slice_set, option_map, IfOk, OnOk, OnErr, IsOk, IsTrue};
ghost use Rattle.probe_core.specs.Bits.{bits};
ghost use Rattle.probe_core.specs.Places.{RisesBy, IsPlace, item_before};
ghost use Rattle.time_table.specs.Totals.{row_bin};

use crate::row::Row;
use crate::stored::StoredRow;
use probe_core::{Place, Rows, Steps};
use std::alloc::Global;
use std::marker::Model;
use std::sync::ledger::Ledger;
use texts::NoMemory;

/// Rows in order, with room for some more. Contracts see the rows, however they are stored.
#[derive(Drop)]
pub struct RowList<T: StoredRow> {
    stored: Rows<T>,
}

impl<T: StoredRow> Model for RowList<T> {
    ghost use Rattle.std.specs.Prelude.{map};
    ghost use Rattle.probe_core.specs.Roomy.{Roomy};
    ghost use Rattle.time_table.specs.declared.row.Row.{Row as Seen};

    ghost Value = { Roomy Seen };

    ghost view = { λ rows. record { items = map T.seen rows.stored.items; spare = rows.stored.spare } };
}

impl<T: StoredRow> RowList<T> {
    /// No rows.
    pub fn new(alloc: Global) -> RowList<T>
        ensures { result.items ≡ [] }
    {
        RowList {
            stored: Rows::new(alloc),
        }
    }

    /// How many rows there are.
    pub fn len(&self) -> usize
        ensures { result ≡ length self.now.items }
    {
        self.stored.len()
    }

    /// Whether there are none.
    pub fn is_empty(&self) -> bool
        ensures { IsTrue result ↔ (self.now.items ≡ []) }
    {
        self.stored.is_empty()
    }

    /// The row at a place, from 0, in one step.
    pub fn at<L: Ledger>(&self, i: usize, steps: &mut Steps<L>) -> Row
        requires { i < length self.now.items }
        ensures item { result ≡ slice_index_or self.now.items i result }
        ensures small { result.total < T.limit }
        ensures limit { T.limit ≤ 2 ^ 64 }
        ensures one_step { steps.new ≡ steps.old + 1 }
    {
        self.stored.at(i, steps).load()
    }

    /// Puts a row at a place and moves the later ones up. For want of memory the rows are as before.
    pub fn insert(&mut self, i: usize, row: Row) -> Result<(), NoMemory>
        requires within { i ≤ length self.old.items }
        requires small { row.total < T.limit }
        ensures inserted { OnOk result (self.new.items ≡ insert self.old.items i row) }
        ensures unchanged { OnErr result (self.new.items ≡ self.old.items) }
        ensures not_refused { 0 < self.old.spare → IsOk result }
        ensures takes_at_most_one { self.old.spare ≤ self.new.spare + 1 }
    {
        self.stored.insert(i, T::store(row))
    }

    /// Takes the row at a place off and moves the later ones down.
    pub fn remove(&mut self, i: usize) -> Row
        requires { i < length self.old.items }
        ensures item { result ≡ slice_index_or self.old.items i result }
        ensures small { result.total < T.limit }
        ensures limit { T.limit ≤ 2 ^ 64 }
        ensures removed { self.new.items ≡ remove self.old.items i }
        ensures gives_one_back { self.new.spare ≡ self.old.spare + 1 }
    {
        self.stored.remove(i).load()
    }

    /// Writes a row over the one at a place.
    pub fn set(&mut self, i: usize, row: Row)
        requires within { i < length self.old.items }
        requires small { row.total < T.limit }
        ensures written { self.new.items ≡ slice_set self.old.items i row }
        ensures room_stays { self.new.spare ≡ self.old.spare }
    {
        self.stored.set(i, T::store(row));
    }

    /// The same rows once more.
    pub fn copy(&self, alloc: Global) -> Result<RowList<T>, NoMemory>
        ensures { IfOk result (λ rows. rows.items ≡ self.now.items) }
    {
        let stored = self.stored.copy(alloc)?;
        Ok(RowList { stored })
    }

    /// Makes room for n further rows. For want of memory the rows are as before too.
    pub fn reserve(&mut self, n: usize) -> Result<(), NoMemory>
        ensures unchanged { self.new.items ≡ self.old.items }
        ensures room { OnOk result (n ≤ self.new.spare) }
    {
        self.stored.reserve(n)
    }

    /// The first place whose bin is `from` or later, by one binary search, and the rows around it.
    pub fn first_from<L: Ledger>(&self, from: u64, steps: &mut Steps<L>) -> Place<Row>
        requires { RisesBy row_bin self.now.items }
        ensures place { IsPlace row_bin from self.now.items result.index }
        ensures before { result.before ≡ item_before self.now.items result.index }
        ensures first { result.first ≡ slice_get self.now.items result.index }
        ensures cost { steps.new ≤ steps.old + bits (length self.now.items) }
    {
        let place = self.stored.first_from(from, steps);
        Place {
            index: place.index,
            before: loaded(place.before),
            first: loaded(place.first),
        }
    }
}

/// The row that is stored, if there is one.
fn loaded<T: StoredRow>(stored: Option<T>) -> Option<Row>
    ensures { result ≡ option_map T.seen stored }
{
    match stored {
        Some(stored) => Some(stored.load()),
        None => None,
    }
}
