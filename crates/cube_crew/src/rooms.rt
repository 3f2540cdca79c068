//! Room for all that a run gives back.
ghost use Rattle.std.specs.Prelude.{◌≡◌, ◌≤◌, [], All, IfOk, OnOk, vec_len, vec_capacity};

use feed_queue::Ended;
use feed_reader::FirstRefusals;
use std::alloc::{AllocError, Global};
use texts::NoMemory;

/// Empty lists: of feeders' works, of what feeds give back, of sessions' works and of what sessions give back. They
/// name no view, source or sink, so that their proofs are short.
pub(crate) struct Rooms<W, F, S, D> {
    pub works: Vec<W>,
    pub dones: Vec<F>,
    pub ended: Vec<Ended>,
    pub asks: Vec<S>,
    pub finals: Vec<S>,
    pub answered: Vec<D>,
    pub final_answered: Vec<D>,
    ghost works_empty: { works.items ≡ [] },
    ghost dones_empty: { dones.items ≡ [] },
    ghost ended_empty: { ended.items ≡ [] },
    ghost asks_empty: { asks.items ≡ [] },
    ghost finals_empty: { finals.items ≡ [] },
    ghost answered_empty: { answered.items ≡ [] },
    ghost final_answered_empty: { final_answered.items ≡ [] },
}

impl<W, F, S, D> Rooms<W, F, S, D> {
    pub(crate) fn new(alloc: Global) -> Rooms<W, F, S, D> {
        Rooms {
            works: Vec::new(alloc),
            dones: Vec::new(alloc),
            ended: Vec::new(alloc),
            asks: Vec::new(alloc),
            finals: Vec::new(alloc),
            answered: Vec::new(alloc),
            final_answered: Vec::new(alloc),
        }
    }

    /// Takes room for so many feeds, asks and finals.
    pub(crate) fn reserve(
        &mut self,
        feeds: usize,
        asks: usize,
        finals: usize,
    ) -> Result<(), AllocError>
        ensures fed { OnOk result ((feeds ≤ vec_capacity self.new.works) × (feeds ≤ vec_capacity self.new.dones) × (feeds ≤ vec_capacity self.new.ended)) }
        ensures asks { OnOk result ((asks ≤ vec_capacity self.new.asks) × (asks ≤ vec_capacity self.new.answered)) }
        ensures finals { OnOk result ((finals ≤ vec_capacity self.new.finals) × (finals ≤ vec_capacity self.new.final_answered)) }
    {
        self.works.reserve(feeds)?;
        self.dones.reserve(feeds)?;
        self.ended.reserve(feeds)?;
        self.asks.reserve(asks)?;
        self.answered.reserve(asks)?;
        self.finals.reserve(finals)?;
        self.final_answered.reserve(finals)
    }

    /// Gives the room back.
    pub(crate) fn let_go(self) {
        let Rooms {
            works,
            dones,
            ended: _,
            asks,
            finals,
            answered,
            final_answered,
        } = self;
        works.destroy_empty();
        dones.destroy_empty();
        asks.destroy_empty();
        finals.destroy_empty();
        answered.destroy_empty();
        final_answered.destroy_empty();
    }
}

/// Room for the first refusals of so many feeds.
pub(crate) fn first_refusals(alloc: Global, feeds: usize) -> Result<Vec<FirstRefusals>, NoMemory>
    ensures len { IfOk result (λ firsts. vec_len firsts ≡ feeds) }
    ensures none { IfOk result (λ firsts. All (λ f. f ≡ []) firsts.items) }
{
    let mut firsts = Vec::new(alloc);
    for _ in 0..feeds {
        let first = FirstRefusals::new(alloc)?;
        firsts.push(first)?;
    }
    Ok(firsts)
}
