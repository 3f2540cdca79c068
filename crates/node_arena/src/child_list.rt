//! A list of children that takes no memory of its own while it is short.
ghost use Rattle.std.specs.Prelude.{◌≡◌, ◌+◌, ◌<◌, ◌≤◌, [], length, slice_get, slice_index_or, slice_set, insert, remove, IfOk, OnOk, OnErr};
ghost use Rattle.probe_core.specs.Bits.{bits};
ghost use Rattle.probe_core.specs.Places.{IsPlace};
ghost use Rattle.node_arena.specs.Slots.{IsRising, child_label};

use crate::packed::Child;
use crate::short::{
    Form, Found, boxed, find_in_one, find_in_three, find_in_two, set_in_three, set_in_two,
    with_fourth, with_second, with_third, without_second, without_third,
};
use probe_core::Steps;
use std::alloc::Global;
use std::marker::Model;
use std::sync::ledger::Ledger;
use texts::NoMemory;

/// Children in the order in which they stand. Up to three lie in the list's own bytes, more on the heap. A child is
/// taken off only where an insertion is undone, so a list that was longer stays on the heap.
#[derive(Drop)]
pub struct ChildList {
    alloc: Global,
    form: Form,
}

// Most nodes of a cube have one child or two.
const _: () = prove!(size_of::<ChildList>() == 24);

impl Model for ChildList {
    ghost use Rattle.node_arena.specs.Slots.{Children};
    ghost use Rattle.node_arena.specs.Short.{form_children};

    ghost Value = { Children };

    ghost view = { λ list. form_children list.form };
}

impl ChildList {
    /// No children.
    pub fn new(alloc: Global) -> ChildList
        ensures { result ≡ [] }
    {
        ChildList {
            alloc,
            form: Form::No,
        }
    }

    /// How many there are.
    pub fn len(&self) -> usize
        ensures { result ≡ length self.now }
    {
        match &self.form {
            Form::No => 0,
            Form::One(_) => 1,
            Form::Two(_, _) => 2,
            Form::Three(_, _, _) => 3,
            Form::Many(rows) => rows.len(),
        }
    }

    /// The child at a place, from 0, in one step.
    pub fn at<L: Ledger>(&self, i: usize, steps: &mut Steps<L>) -> Child
        requires { i < length self.now }
        ensures item { result ≡ slice_index_or self.now i result }
        ensures one_step { steps.new ≡ steps.old + 1 }
    {
        let child = match &self.form {
            Form::Many(rows) => return rows.at(i, steps),
            Form::Three(_, _, c) if i == 2 => *c,
            Form::Three(_, b, _) | Form::Two(_, b) if i == 1 => *b,
            Form::Three(a, _, _) | Form::Two(a, _) | Form::One(a) => *a,
            Form::No => unreachable!(),
        };
        steps.tick();
        child
    }

    /// The first child whose label is `from` or later, by one binary search.
    pub fn first_from<L: Ledger>(&self, from: u8, steps: &mut Steps<L>) -> Found
        requires { IsRising self.now }
        ensures place { IsPlace child_label from self.now result.index }
        ensures first { result.first ≡ slice_get self.now result.index }
        ensures cost { steps.new ≤ steps.old + bits (length self.now) }
        ensures not_less { steps.old ≤ steps.new }
    {
        match &self.form {
            Form::No => Found {
                index: 0,
                first: None,
            },
            Form::One(a) => find_in_one(*a, from, steps),
            Form::Two(a, b) => find_in_two(*a, *b, from, steps),
            Form::Three(a, b, c) => find_in_three(*a, *b, *c, from, steps),
            Form::Many(rows) => {
                let place = rows.first_from(u64::from(from), steps);
                Found {
                    index: place.index,
                    first: place.first,
                }
            }
        }
    }

    /// Puts a child at a place and moves the later ones up. For want of memory the children are as before.
    pub fn insert(&mut self, i: usize, child: Child) -> Result<(), NoMemory>
        requires { i ≤ length self.old }
        ensures inserted { OnOk result (self.new ≡ insert self.old i child) }
        ensures unchanged { OnErr result (self.new ≡ self.old) }
    {
        let form = match &mut self.form {
            Form::No => Form::One(child),
            Form::One(a) => with_second(*a, i, child),
            Form::Two(a, b) => with_third(*a, *b, i, child),
            Form::Three(a, b, c) => with_fourth(self.alloc, *a, *b, *c, i, child)?,
            Form::Many(rows) => return rows.insert(i, child),
        };
        self.form = form;
        Ok(())
    }

    /// Takes the child at a place off and moves the later ones down. It takes no memory.
    pub fn remove(&mut self, i: usize) -> Child
        requires { i < length self.old }
        ensures item { result ≡ slice_index_or self.old i result }
        ensures removed { self.new ≡ remove self.old i }
    {
        let (child, form) = match &mut self.form {
            Form::No => unreachable!(),
            Form::One(a) => (*a, Form::No),
            Form::Two(a, b) => without_second(*a, *b, i),
            Form::Three(a, b, c) => without_third(*a, *b, *c, i),
            Form::Many(rows) => return rows.remove(i),
        };
        self.form = form;
        child
    }

    /// Writes a child over the one at a place.
    pub fn set(&mut self, i: usize, child: Child)
        requires { i < length self.old }
        ensures { self.new ≡ slice_set self.old i child }
    {
        let form = match &mut self.form {
            Form::No => unreachable!(),
            Form::One(_) => Form::One(child),
            Form::Two(a, b) => set_in_two(*a, *b, i, child),
            Form::Three(a, b, c) => set_in_three(*a, *b, *c, i, child),
            Form::Many(rows) => {
                rows.set(i, child);
                return;
            }
        };
        self.form = form;
    }

    /// The same children once more.
    pub fn copy(&self, alloc: Global) -> Result<ChildList, NoMemory>
        ensures { IfOk result (λ list. list ≡ self.now) }
    {
        let form = match &self.form {
            Form::No => Form::No,
            Form::One(a) => Form::One(*a),
            Form::Two(a, b) => Form::Two(*a, *b),
            Form::Three(a, b, c) => Form::Three(*a, *b, *c),
            Form::Many(rows) => Form::Many(boxed(alloc, rows.copy(alloc)?)?),
        };
        Ok(ChildList { alloc, form })
    }
}
