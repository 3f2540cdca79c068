//! The forms of a list of children, and the changes and searches of a short one.
ghost use Rattle.std.specs.Prelude.{◌≡◌, ◌+◌, ◌<◌, ◌≤◌, [], ◌∷◌, length, slice_get, slice_index_or, slice_set, insert, remove, Some, IfOk};
ghost use Rattle.probe_core.specs.Places.{IsPlace};
ghost use Rattle.node_arena.specs.Slots.{child_label};
ghost use Rattle.node_arena.specs.Short.{form_children};

use crate::packed::Child;
use probe_core::{Rows, Steps};
use std::alloc::Global;
use std::sync::ledger::Ledger;
use texts::NoMemory;

/// Up to three children, or rows on the heap.
#[derive(Drop)]
pub enum Form {
    No,
    One(Child),
    Two(Child, Child),
    Three(Child, Child, Child),
    Many(Box<Rows<Child>>),
}

/// A place among children, and the child that stands on it.
#[derive(Clone, Copy)]
pub struct Found {
    pub index: usize,
    pub first: Option<Child>,
}

/// A second child beside one.
pub fn with_second(a: Child, i: usize, child: Child) -> Form
    requires { i ≤ 1 }
    ensures { form_children result ≡ insert (a ∷ []) i child }
{
    if i == 0 {
        Form::Two(child, a)
    } else {
        Form::Two(a, child)
    }
}

/// A third child beside two.
pub fn with_third(a: Child, b: Child, i: usize, child: Child) -> Form
    requires { i ≤ 2 }
    ensures { form_children result ≡ insert (a ∷ b ∷ []) i child }
{
    if i == 0 {
        Form::Three(child, a, b)
    } else if i == 1 {
        Form::Three(a, child, b)
    } else {
        Form::Three(a, b, child)
    }
}

/// A fourth child beside three, which takes the first memory.
pub fn with_fourth(
    alloc: Global,
    a: Child,
    b: Child,
    c: Child,
    i: usize,
    child: Child,
) -> Result<Form, NoMemory>
    requires { i ≤ 3 }
    ensures { IfOk result (λ form. form_children form ≡ insert (a ∷ b ∷ c ∷ []) i child) }
{
    let mut rows = Rows::new(alloc);
    // A node of space has no more than four.
    rows.reserve(4)?;
    rows.insert(0, a)?;
    rows.insert(1, b)?;
    rows.insert(2, c)?;
    rows.insert(i, child)?;
    Ok(Form::Many(boxed(alloc, rows)?))
}

/// One of two children, and the other alone.
pub fn without_second(a: Child, b: Child, i: usize) -> (Child, Form)
    requires { i < 2 }
    ensures child { result.0 ≡ slice_index_or (a ∷ b ∷ []) i result.0 }
    ensures others { form_children result.1 ≡ remove (a ∷ b ∷ []) i }
{
    if i == 0 {
        (a, Form::One(b))
    } else {
        (b, Form::One(a))
    }
}

/// One of three children, and the other two.
pub fn without_third(a: Child, b: Child, c: Child, i: usize) -> (Child, Form)
    requires { i < 3 }
    ensures child { result.0 ≡ slice_index_or (a ∷ b ∷ c ∷ []) i result.0 }
    ensures others { form_children result.1 ≡ remove (a ∷ b ∷ c ∷ []) i }
{
    if i == 0 {
        (a, Form::Two(b, c))
    } else if i == 1 {
        (b, Form::Two(a, c))
    } else {
        (c, Form::Two(a, b))
    }
}

/// Two children, with another one at a place.
pub fn set_in_two(a: Child, b: Child, i: usize, child: Child) -> Form
    requires { i < 2 }
    ensures { form_children result ≡ slice_set (a ∷ b ∷ []) i child }
{
    if i == 0 {
        Form::Two(child, b)
    } else {
        Form::Two(a, child)
    }
}

/// Three children, with another one at a place.
pub fn set_in_three(a: Child, b: Child, c: Child, i: usize, child: Child) -> Form
    requires { i < 3 }
    ensures { form_children result ≡ slice_set (a ∷ b ∷ c ∷ []) i child }
{
    if i == 0 {
        Form::Three(child, b, c)
    } else if i == 1 {
        Form::Three(a, child, c)
    } else {
        Form::Three(a, b, child)
    }
}

/// Where a label stands before a child or behind it, in one step. `next` is the child behind it.
fn before_or_behind<L: Ledger>(
    a: Child,
    next: Option<Child>,
    from: u8,
    steps: &mut Steps<L>,
) -> Found
    ensures before { from ≤ a.0 → (result.index ≡ 0) × (result.first ≡ Some a) }
    ensures behind { a.0 < from → (result.index ≡ 1) × (result.first ≡ next) }
    ensures one_step { steps.new ≡ steps.old + 1 }
{
    steps.tick();
    if a.label() < from {
        Found {
            index: 1,
            first: next,
        }
    } else {
        Found {
            index: 0,
            first: Some(a),
        }
    }
}

/// The place of a label beside one child.
pub fn find_in_one<L: Ledger>(a: Child, from: u8, steps: &mut Steps<L>) -> Found
    ensures place { IsPlace child_label from (a ∷ []) result.index }
    ensures first { result.first ≡ slice_get (a ∷ []) result.index }
    ensures one_step { steps.new ≡ steps.old + 1 }
{
    before_or_behind(a, None, from, steps)
}

/// The place of a label beside two children, in at most two steps.
pub fn find_in_two<L: Ledger>(a: Child, b: Child, from: u8, steps: &mut Steps<L>) -> Found
    requires { a.0 < b.0 }
    ensures place { IsPlace child_label from (a ∷ b ∷ []) result.index }
    ensures first { result.first ≡ slice_get (a ∷ b ∷ []) result.index }
    ensures cost { steps.new ≤ steps.old + 2 }
    ensures not_less { steps.old ≤ steps.new }
{
    steps.tick();
    if b.label() < from {
        Found {
            index: 2,
            first: None,
        }
    } else {
        before_or_behind(a, Some(b), from, steps)
    }
}

/// The place of a label beside three children, in two steps.
pub fn find_in_three<L: Ledger>(
    a: Child,
    b: Child,
    c: Child,
    from: u8,
    steps: &mut Steps<L>,
) -> Found
    requires first { a.0 < b.0 }
    requires second { b.0 < c.0 }
    ensures place { IsPlace child_label from (a ∷ b ∷ c ∷ []) result.index }
    ensures first { result.first ≡ slice_get (a ∷ b ∷ c ∷ []) result.index }
    ensures cost { steps.new ≡ steps.old + 2 }
{
    steps.tick();
    if b.label() < from {
        let found = before_or_behind(c, None, from, steps);
        Found {
            index: 2 + found.index,
            first: found.first,
        }
    } else {
        before_or_behind(a, Some(b), from, steps)
    }
}

/// Rows in a box.
pub fn boxed(alloc: Global, rows: Rows<Child>) -> Result<Box<Rows<Child>>, NoMemory>
    ensures { IfOk result (λ boxed. boxed.value ≡ rows) }
{
    Ok(Box::new(alloc, rows)?)
}
