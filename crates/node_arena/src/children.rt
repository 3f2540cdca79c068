//! The children of a node.
ghost use Rattle.std.specs.Prelude.{◌≡◌, ◌+◌, ◌<◌, ◌≤◌, ◌↔◌, [], ◌∷◌, ◌++◌, length, All, slice_get, slice_index_or, None, Some, IfOk, OnOk, OnErr, IsSome};
ghost use Rattle.probe_core.specs.Bits.{bits};
ghost use Rattle.probe_core.specs.Blanks.{IsBlankOf};
ghost use Rattle.probe_core.specs.Places.{IsPlace};
ghost use Rattle.node_arena.specs.Slots.{Children as Listed, IsRising, child, child_label};
ghost use Rattle.node_arena.specs.Calls.{with_child, with_link, without_child, child_from, only_link, share_all};
ghost use Rattle.node_arena.specs.Stats.{children_that, is_proper, is_shared};

use crate::child_list::ChildList;
use crate::link::Link;
use crate::packed::Child;
use crate::short::Found;
use probe_core::Steps;
use std::alloc::Global;
use std::marker::{Brand, Model};
use std::sync::ledger::{Blank, Ledger};
use texts::NoMemory;

/// Labels with links, in rising order of label. A link is found by one binary search.
#[derive(Drop)]
pub struct Children {
    rows: ChildList,
}

impl Model for Children {
    ghost use Rattle.node_arena.specs.Slots.{Children as Listed, IsRising};

    ghost Value = { Listed };

    ghost view = { λ c. c.rows };

    ghost invariant = { λ c. IsRising c.rows };
}

impl Children {
    /// No children.
    pub fn new(alloc: Global) -> Children
        ensures { result ≡ [] }
    {
        Children {
            rows: ChildList::new(alloc),
        }
    }

    /// How many there are.
    pub fn len(&self) -> usize
        ensures count { result ≡ length self.now }
        ensures in_order { IsRising self.now }
    {
        self.rows.len()
    }

    /// The link at a label.
    pub fn child<L: Ledger>(&self, label: u8, steps: &mut Steps<L>) -> Option<Link>
        ensures link { result ≡ child self.now label }
        ensures cost { steps.new ≤ steps.old + bits (length self.now) }
        ensures not_less { steps.old ≤ steps.new }
        ensures in_order { IsRising self.now }
    {
        match self.place_of(label, steps).first {
            Some(child) if child.label() == label => Some(child.link()),
            _ => None,
        }
    }

    /// The first child whose label is `from` or later.
    pub fn child_from<L: Ledger>(&self, from: u8, steps: &mut Steps<L>) -> Option<(u8, Link)>
        ensures child { result ≡ child_from self.now from }
        ensures cost { steps.new ≤ steps.old + bits (length self.now) }
        ensures not_less { steps.old ≤ steps.new }
        ensures in_order { IsRising self.now }
    {
        match self.place_of(from, steps).first {
            Some(child) => Some((child.label(), child.link())),
            None => None,
        }
    }

    /// The place of a label, by one binary search.
    fn place_of<L: Ledger>(&self, label: u8, steps: &mut Steps<L>) -> Found
        ensures place { IsPlace child_label label self.now result.index }
        ensures first { result.first ≡ slice_get self.now result.index }
        ensures cost { steps.new ≤ steps.old + bits (length self.now) }
        ensures not_less { steps.old ≤ steps.new }
        ensures in_order { IsRising self.now }
    {
        self.rows.first_from(label, steps)
    }

    /// A child of a new label. For want of memory the children are as before.
    pub fn put(&mut self, label: u8, link: Link) -> Result<(), NoMemory>
        requires { child self.old label ≡ None }
        ensures put { OnOk result (self.new ≡ with_child self.old label link) }
        ensures unchanged { OnErr result (self.new ≡ self.old) }
    {
        let place = self.seek(label);
        self.rows.insert(place.index, Child::new(label, link))
    }

    /// Another link at a label that has one. The old link is given.
    pub fn replace(&mut self, label: u8, link: Link) -> Link
        requires { IsSome (child self.old label) }
        ensures given { child self.old label ≡ Some result }
        ensures replaced { self.new ≡ with_link self.old label link }
    {
        let place = self.seek(label);
        let old = self.item(place.index);
        self.rows.set(place.index, Child::new(label, link));
        old.link()
    }

    /// Takes the child of a label off, where there is one. Its link is given.
    pub fn remove(&mut self, label: u8) -> Link
        requires { IsSome (child self.old label) }
        ensures given { child self.old label ≡ Some result }
        ensures removed { self.new ≡ without_child self.old label }
    {
        let place = self.seek(label);
        self.rows.remove(place.index).link()
    }

    /// The link of the only child, where there is exactly one.
    pub fn only(&self) -> Option<Link>
        ensures link { result ≡ only_link self.now }
        ensures in_order { IsRising self.now }
    {
        if self.rows.len() == 1 {
            Some(self.item(0).link())
        } else {
            None
        }
    }

    /// The same children, by shared links.
    pub fn shared(&self, alloc: Global) -> Result<Children, NoMemory>
        ensures { IfOk result (λ copy. copy ≡ share_all self.now) }
    {
        let mut rows = self.rows.copy(alloc)?;
        for i in 0..self.rows.len() {
            let child = self.item(i);
            rows.set(i, Child::new(child.label(), child.link().shared()));
        }
        Ok(Children { rows })
    }

    /// How many of the links are proper.
    fn proper_count(&self) -> usize
        ensures count { result ≡ children_that is_proper self.now }
        ensures within { result ≤ length self.now }
        ensures in_order { IsRising self.now }
    {
        let mut count = 0;
        for i in 0..self.rows.len() {
            if self.item(i).link().is_proper() {
                count += 1;
            }
        }
        count
    }

    /// How many of the links are proper, and how many are shared.
    pub fn link_counts(&self) -> (usize, usize)
        ensures proper { result.0 ≡ children_that is_proper self.now }
        ensures shared { result.1 ≡ children_that is_shared self.now }
        ensures in_order { IsRising self.now }
    {
        let proper = self.proper_count();
        (proper, self.len() - proper)
    }

    /// A child whose label is past all others, behind them. For want of memory the children are as before.
    pub fn push(&mut self, label: u8, link: Link) -> Result<(), NoMemory>
        requires { All (λ c. c.0 < label) self.old }
        ensures pushed { OnOk result (self.new ≡ self.old ++ (label, link) ∷ []) }
        ensures unchanged { OnErr result (self.new ≡ self.old) }
    {
        self.rows.insert(self.rows.len(), Child::new(label, link))
    }

    /// Children that are listed in rising order of label.
    pub fn of_list(alloc: Global, list: &[(u8, Link)]) -> Result<Children, NoMemory>
        requires { IsRising list.now }
        ensures { IfOk result (λ children. children ≡ list.now) }
    {
        let mut children = Children::new(alloc);
        for child in list {
            children.push(child.0, child.1)?;
        }
        Ok(children)
    }

    /// The child at a place, from 0.
    pub fn at(&self, i: usize) -> (u8, Link)
        requires { i < length self.now }
        ensures child { result ≡ slice_index_or self.now i result }
        ensures in_order { IsRising self.now }
    {
        let child = self.item(i);
        (child.label(), child.link())
    }

    /// The place of a label, where nobody counts the steps.
    fn seek(&self, label: u8) -> Found
        ensures place { IsPlace child_label label self.now result.index }
        ensures first { result.first ≡ slice_get self.now result.index }
        ensures in_order { IsRising self.now }
    {
        self.seek_in::<Brand>(label, Blank::new(1))
    }

    /// The child at a place, where nobody counts the steps.
    fn item(&self, i: usize) -> Child
        requires { i < length self.now }
        ensures item { result ≡ slice_index_or self.now i result }
        ensures in_order { IsRising self.now }
    {
        self.item_in::<Brand>(i, Blank::new(1))
    }

    /// The place of a label, in a ledger of its own.
    fn seek_in<L: Ledger>(&self, label: u8, blank: Blank) -> Found
        requires { IsBlankOf L.name L.parts blank }
        ensures place { IsPlace child_label label self.now result.index }
        ensures first { result.first ≡ slice_get self.now result.index }
        ensures in_order { IsRising self.now }
    {
        let mut steps = Steps::<L>::new(blank);
        self.place_of(label, &mut steps)
    }

    /// The child at a place, in a ledger of its own.
    fn item_in<L: Ledger>(&self, i: usize, blank: Blank) -> Child
        requires blank { IsBlankOf L.name L.parts blank }
        requires within { i < length self.now }
        ensures item { result ≡ slice_index_or self.now i result }
        ensures in_order { IsRising self.now }
    {
        let mut steps = Steps::<L>::new(blank);
        self.rows.at(i, &mut steps)
    }
}
