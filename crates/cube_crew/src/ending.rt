//! How the sessions of a run end, once nothing more is published.
ghost use Rattle.std.specs.Prelude.{◌≡◌, ◌≤◌, ◌+◌, [], length, vec_len, vec_capacity, All};
ghost use Rattle.std.specs.List.{AllZip};
ghost use Rattle.live_session.specs.Work.{HadNoTurn};
ghost use Rattle.cube_crew.specs.Ending.{EndsAsk, EndsFinal};
ghost use Rattle.live_session.specs.State.{ends_of};

use crate::sessions::{close_sessions, run_sessions, teach};
use crate::starving::has_starved_session;
use cube_view::Grow;
use live_session::{SessionDone, SessionWork};
use outer_io::{Sink, Source};
use published_pair::{Last, Rested};
use std::alloc::Global;
use std::sync::Wait;
use std::thread::Threads;
use texts::List;

/// What the sessions of a run leave, and whether a final found no memory.
pub(crate) struct Answered<I, O> {
    pub asks: Vec<SessionDone<I, O>>,
    pub finals: Vec<SessionDone<I, O>>,
    pub starved: bool,
}

/// Lets every viewer learn the ended list, runs the finals, closes every viewer, and finishes the pair last.
pub(crate) fn end_sessions<
    R: Threads + Wait + Sync,
    V: Grow + Send + Sync,
    I: Source + Send,
    O: Sink + Send,
>(
    rt: &R,
    alloc: Global,
    pair: (Rested<V>, List<Last>),
    asks: (Vec<SessionWork<V, I, O>>, Vec<SessionDone<I, O>>),
    finals: (Vec<SessionWork<V, I, O>>, Vec<SessionDone<I, O>>),
) -> Answered<I, O>
    requires lasts { (length pair.1 ≡ vec_len asks.0 + vec_len finals.0) × All (λ l. l.whole ≡ pair.0.ended) pair.1 }
    requires pair { All (λ w. w.shown.book ≡ pair.0.ended.book) asks.0.items × All (λ w. w.shown.book ≡ pair.0.ended.book) finals.0.items }
    requires no_turn { All (λ w. HadNoTurn w.session) finals.0.items }
    requires asks { (asks.1.items ≡ []) × (vec_len asks.0 ≤ vec_capacity asks.1) }
    requires finals { (finals.1.items ≡ []) × (vec_len finals.0 ≤ vec_capacity finals.1) }
    ensures asks { AllZip (EndsAsk pair.0.ended) asks.0.items result.asks.items }
    ensures finals { AllZip (EndsFinal (ends_of I.Source O.Sink) V.is_stat pair.0.ended result.starved) finals.0.items result.finals.items }
{
    let (rested, lasts) = pair;
    let (mut asks, answered) = asks;
    let (mut finals, final_answered) = finals;
    let mut lasts = lasts.into_vec();
    teach(asks.as_mut_slice(), &mut lasts, &rested);
    teach(finals.as_mut_slice(), &mut lasts, &rested);
    run_sessions(rt, alloc, finals.as_mut_slice());
    let starved = has_starved_session(finals.as_slice());
    let asks = close_sessions(rt, asks, answered);
    let finals = close_sessions(rt, finals, final_answered);
    rested.finish(rt);
    Answered {
        asks,
        finals,
        starved,
    }
}
