//! Room for the sessions of a run and for their sinks, taken before a file is opened.
ghost use Rattle.std.specs.Prelude.{◌≡◌, ◌+◌, ◌≤◌, [], OnOk, vec_capacity};

use live_session::Session;
use outer_io::{Sink, Source};
use std::alloc::{AllocError, Global};

/// Empty lists of sessions and of their sinks.
pub(crate) struct Rooms<I: Source, O: Sink> {
    pub asks: Vec<Session<I, O>>,
    pub finals: Vec<Session<I, O>>,
    pub sinks: Vec<O>,
    ghost asks_empty: { asks.items ≡ [] },
    ghost finals_empty: { finals.items ≡ [] },
    ghost sinks_empty: { sinks.items ≡ [] },
}

impl<I: Source, O: Sink> Rooms<I, O> {
    pub(crate) fn new(alloc: Global) -> Rooms<I, O> {
        Rooms {
            asks: Vec::new(alloc),
            finals: Vec::new(alloc),
            sinks: Vec::new(alloc),
        }
    }

    /// Takes room for so many asks and finals.
    pub(crate) fn reserve(&mut self, asks: usize, finals: usize) -> Result<(), AllocError>
        requires few { (asks ≤ 8) × (finals ≤ 8) }
        ensures sessions { OnOk result ((asks ≤ vec_capacity self.new.asks) × (finals ≤ vec_capacity self.new.finals)) }
        ensures sinks { OnOk result (asks + finals ≤ vec_capacity self.new.sinks) }
    {
        self.asks.reserve(asks)?;
        self.finals.reserve(finals)?;
        self.sinks.reserve(asks + finals)
    }

    /// Gives the room back.
    pub(crate) fn let_go(self) {
        let Rooms {
            asks,
            finals,
            sinks,
        } = self;
        asks.destroy_empty();
        finals.destroy_empty();
        sinks.destroy_empty();
    }
}
