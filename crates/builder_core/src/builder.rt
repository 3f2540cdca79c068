//! The builder.
ghost use Rattle.std.specs.Prelude.{◌≡◌, ◌≤◌, ◌++◌, ◌↔◌, [], false, true, length, All, IsTrue, IfErr, IfOk, MatchResult};
ghost use Rattle.builder_core.specs.Builder.{builder_state, pair_state, MayBeTaken, KeepsJournal};
ghost use Rattle.builder_core.specs.Endings.{EachEnded, all_ended};
ghost use Rattle.builder_core.specs.Taking.{IsTaking};
ghost use Rattle.feed_queue.specs.Items.{entries_in};
ghost use Rattle.feed_queue.specs.declared.item.Item.TheVariants.{One, End};
ghost use Rattle.world_core.specs.Interleaving.{entry_points};
ghost use Rattle.world_core.specs.PairFact.{IsPrefix};

use crate::entry_publisher::EntryPublisherOf;
use crate::taken::Taken;
use cube_view::Grow;
use feed_queue::Item;
use ghost_values::GhostList;
use published_pair::{GivenUp, Last, Of, Pairing, Publisher, Rested, Told};
use std::alloc::Global;
use std::marker::Model;
use std::sync::Wait;
use texts::{List, NoMemory};
use world_core::Entry;

/// The builder of a pairing. Contracts see the items that it has taken, its journal, what is pending, whether it is
/// spent, and the pair's lists.
pub struct BuilderOf<K: Pairing> {
    out: EntryPublisherOf<K>,
    feeders: u8,
    batch: u32,
    /// How many Ends were taken.
    ends: u8,
    spent: bool,
    /// The items taken.
    taken: GhostList<Item>,
}

impl<K: Pairing> Model for BuilderOf<K> {
    ghost use Rattle.builder_core.specs.Builder.{BuilderState, builder_state, pair_state, IsBuilder};

    ghost Value = { BuilderState };

    ghost view = { λ b. builder_state b.feeders b.batch b.taken.items b.out.entries.items b.out.published b.spent (pair_state b.out.publisher.published b.out.publisher.appended.items b.out.publisher.schema b.out.publisher.viewers) };

    ghost invariant = { λ b. IsBuilder (builder_state b.feeders b.batch b.taken.items b.out.entries.items b.out.published b.spent (pair_state b.out.publisher.published b.out.publisher.appended.items b.out.publisher.schema b.out.publisher.viewers)) b.ends };
}

/// The builder of a pair. It is not `Drop`: end it by `into_journal`.
pub type Builder<V> = BuilderOf<Of<V>>;

impl<V: Grow> BuilderOf<Of<V>> {
    /// A builder of that many feeders, which publishes that many entries at once.
    pub fn new(alloc: Global, publisher: Publisher<V>, feeders: u8, batch: u32) -> Builder<V>
        requires none { publisher.appended.items ≡ [] }
        requires feeders { (1 ≤ feeders) × (feeders ≤ 8) }
        requires batch { (1 ≤ batch) × (batch ≤ 65536) }
        ensures new { result ≡ builder_state feeders batch [] [] 0 false (pair_state publisher.published [] publisher.schema publisher.viewers) }
        ensures keeps { KeepsJournal result }
    {
        BuilderOf {
            out: EntryPublisherOf {
                publisher,
                entries: Vec::new(alloc),
                published: 0,
            },
            feeders,
            batch,
            ends: 0,
            spent: false,
            taken: GhostList::new(),
        }
    }

    /// Takes an item that was drawn.
    pub fn take<R: Wait>(&mut self, rt: &R, item: Item) -> Result<Taken, NoMemory>
        requires { MayBeTaken self.old item }
        ensures taking { IsTaking self.old item result self.new }
        ensures keeps { KeepsJournal self.new }
    {
        match item {
            Item::One(entry) => self.take_entry(rt, entry),
            Item::End(feeder, count) => self.take_end(rt, feeder, count),
        }
    }

    /// Takes an entry.
    fn take_entry<R: Wait>(&mut self, rt: &R, entry: Entry) -> Result<Taken, NoMemory>
        requires { MayBeTaken self.old (One entry) }
        ensures taking { IsTaking self.old (One entry) result self.new }
        ensures keeps { KeepsJournal self.new }
    {
        self.taken = self.taken.and(&Item::One(entry));
        if self.spent {
            return Err(NoMemory);
        }
        if self.out.append(entry).is_err() {
            self.spent = true;
            return Err(NoMemory);
        }
        if self.out.pending() < self.batch as usize {
            return Ok(Taken::Kept);
        }
        match self.out.publish(rt) {
            Ok(count) => Ok(Taken::Published(count)),
            Err(NoMemory) => {
                self.spent = true;
                Err(NoMemory)
            }
        }
    }

    /// Takes an End.
    fn take_end<R: Wait>(&mut self, rt: &R, feeder: u8, count: u32) -> Result<Taken, NoMemory>
        requires { MayBeTaken self.old (End feeder count) }
        ensures taking { IsTaking self.old (End feeder count) result self.new }
        ensures keeps { KeepsJournal self.new }
    {
        self.taken = self.taken.and(&Item::End(feeder, count));
        self.ends += 1;
        if self.ends < self.feeders {
            return Ok(Taken::Kept);
        }
        if self.spent || self.out.pending() == 0 {
            return Ok(Taken::LastEnd(self.out.publisher.len()));
        }
        match self.out.publish(rt) {
            Ok(count) => Ok(Taken::LastEnd(count)),
            Err(NoMemory) => {
                self.spent = true;
                Err(NoMemory)
            }
        }
    }

    /// Whether want of memory was answered.
    pub fn spent(&self) -> bool
        ensures { result ≡ self.now.spent }
    {
        self.spent
    }

    /// Whether every feeder's End was taken.
    pub fn ended(&self) -> bool
        ensures test { result ≡ all_ended self.now.feeders self.now.taken }
        ensures each { IsTrue result ↔ EachEnded self.now.feeders self.now.taken }
    {
        self.ends == self.feeders
    }

    /// That there is a feeder. It does nothing when run.
    pub(crate) fn has_feeders(&self)
        ensures { 1 ≤ self.now.feeders }
    {
        let _feeders = self.feeders;
    }

    /// The entries that are published.
    pub fn journal(&self) -> &[Entry]
        ensures journal { result.now ≡ self.now.journal }
        ensures keeps { KeepsJournal self.now }
    {
        &self.out.entries.as_slice()[..self.out.published]
    }

    /// What viewers are to know of: the published list. It takes no memory.
    pub fn tell(&self) -> Told
        ensures { result.front ≡ self.now.published }
    {
        self.out.publisher.tell()
    }

    /// Ends the pair, once every End was taken: the journal, and the pair's end. Where that succeeds the journal has
    /// what a spent builder had pending, since the pair's end publishes it. Where memory is wanted the pair is given
    /// up: viewers see no more than the journal, and all that was published in it is a prefix of what was taken.
    pub fn into_journal<R: Wait>(
        self,
        rt: &R,
        alloc: Global,
    ) -> (List<Entry>, Result<(Rested<V>, List<Last>), GivenUp>)
        requires { EachEnded self.feeders self.taken }
        ensures journal { MatchResult result.1 (λ _. result.0 ≡ self.journal ++ self.pending) (λ _. result.0 ≡ self.journal) }
        ensures whole { self.spent ≡ false → result.0 ≡ entries_in self.taken }
        ensures prefix { IsPrefix result.0 (entries_in self.taken) }
        ensures rested { IfOk result.1 (λ t. (t.0.ended.points ≡ entry_points result.0) × (t.0.ended.book ≡ self.published.book) × (t.0.schema ≡ self.schema)) }
        ensures lasts { IfOk result.1 (λ t. (length t.1 ≡ self.viewers) × All (λ l. l.whole ≡ t.0.ended) t.1) }
        ensures given_up { IfErr result.1 (λ g. (g.whole.book ≡ self.published.book) × IsPrefix g.whole.points (entry_points (entries_in self.taken))) }
        ensures still_shown { IfErr result.1 (λ g. g.shown ≡ self.published) }
    {
        let BuilderOf {
            out,
            feeders: _,
            batch: _,
            ends: _,
            spent: _,
            taken: _taken,
        } = self;
        out.end(rt, alloc)
    }
}
