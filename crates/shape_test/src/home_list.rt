//! The homes of slots in one list of steps.
ghost use Rattle.std.specs.Prelude.{◌≡◌, ◌<◌, ◌++◌, ◌∷◌, [], length, slice_index_or, OnErr, OnOk};
ghost use Rattle.shape_test.specs.Spans.{spanned, with_step, AreSpans};

use crate::home::Move;
use std::alloc::Global;
use std::marker::Model;
use texts::NoMemory;

/// Where the steps of a home lie: from one place up to another.
#[derive(Clone, Copy)]
pub struct Span {
    pub start: usize,
    pub end: usize,
}

/// Homes, each the steps from a slot back to the root, the last one first. All steps lie in one list, so that no home
/// takes memory of its own.
#[derive(Drop)]
pub struct HomeList {
    moves: Vec<Move>,
    spans: Vec<Span>,
}

impl Model for HomeList {
    ghost use Rattle.std.specs.Prelude.{List};
    ghost use Rattle.shape_test.specs.declared.home.Move.{Move};
    ghost use Rattle.shape_test.specs.Spans.{spanned, AreSpans};

    ghost Value = { List (List Move) };

    ghost view = { λ homes. spanned homes.moves.items homes.spans.items };

    ghost invariant = { λ homes. AreSpans homes.moves.items homes.spans.items };
}

impl HomeList {
    /// No homes.
    pub fn new(alloc: Global) -> HomeList
        ensures { result ≡ [] }
    {
        HomeList {
            moves: Vec::new(alloc),
            spans: Vec::new(alloc),
        }
    }

    /// How many homes there are.
    pub fn len(&self) -> usize
        ensures { result ≡ length self.now }
    {
        self.spans.len()
    }

    /// The home at a place, from 0.
    pub fn get(&self, i: usize) -> &[Move]
        requires { i < length self.now }
        ensures { result.now ≡ slice_index_or self.now i result.now }
    {
        let span = self.spans[i];
        &self.moves[span.start..span.end]
    }

    /// Adds a home at the end.
    pub fn add(&mut self, home: &[Move]) -> Result<(), NoMemory>
        ensures { OnOk result (self.new ≡ self.old ++ home.now ∷ []) }
    {
        put_home(&mut self.moves, &mut self.spans, home)
    }

    /// Adds a home with one more step before it.
    pub fn add_step(&mut self, step: Move, by: usize) -> Result<(), NoMemory>
        requires { by < length self.old }
        ensures { OnOk result (self.new ≡ with_step self.old step by) }
    {
        put_step(&mut self.moves, &mut self.spans, step, by)
    }

    /// Makes room for so many homes. The homes are as before.
    pub fn reserve(&mut self, n: usize) -> Result<(), NoMemory>
        ensures { self.new ≡ self.old }
    {
        self.spans.try_reserve(n)?;
        Ok(())
    }
}

/// Adds where a home lies; for want of memory all homes lie as before.
fn add_span(spans: &mut Vec<Span>, span: Span) -> Result<(), NoMemory>
    ensures added { OnOk result (spans.new.items ≡ spans.old.items ++ span ∷ []) }
    ensures unchanged { OnErr result (spans.new.items ≡ spans.old.items) }
{
    spans.push(span)?;
    Ok(())
}

/// Puts a home behind others, which is an earlier one of them with a step before it. Its steps are copied once.
fn put_step(
    moves: &mut Vec<Move>,
    spans: &mut Vec<Span>,
    step: Move,
    above: usize,
) -> Result<(), NoMemory>
    requires spans { AreSpans moves.old.items spans.old.items }
    requires earlier { above < length spans.old.items }
    ensures spans { AreSpans moves.new.items spans.new.items }
    ensures put { OnOk result (spanned moves.new.items spans.new.items ≡ with_step (spanned moves.old.items spans.old.items) step above) }
{
    let behind = spans[above];
    let start = moves.len();
    moves.push(step)?;
    moves.extend_from_within(behind.start..behind.end)?;
    let span = Span {
        start,
        end: moves.len(),
    };
    add_span(spans, span)?;
    Ok(())
}

/// Puts a home behind others.
fn put_home(moves: &mut Vec<Move>, spans: &mut Vec<Span>, home: &[Move]) -> Result<(), NoMemory>
    requires spans { AreSpans moves.old.items spans.old.items }
    ensures spans { AreSpans moves.new.items spans.new.items }
    ensures put { OnOk result (spanned moves.new.items spans.new.items ≡ spanned moves.old.items spans.old.items ++ home.now ∷ []) }
{
    let start = moves.len();
    moves.extend_from_slice(home)?;
    let span = Span {
        start,
        end: moves.len(),
    };
    add_span(spans, span)?;
    Ok(())
}
