//! A publisher of entries.
ghost use Rattle.std.specs.Prelude.{◌≡◌, ◌+◌, ◌≤◌, ◌<◌, ◌++◌, ◌∷◌, [], length, take, All, IsTrue, OnOk, OnErr, IfErr, IfOk, MatchResult};
ghost use Rattle.cube_view.specs.Bag.{most_points};
ghost use Rattle.cube_view.specs.Validity.{sound};
ghost use Rattle.world_core.specs.Interleaving.{entry_points};
ghost use Rattle.world_core.specs.PairFact.{IsPrefix};

use cube_view::Grow;
use published_pair::{GivenUp, Last, Of, Pairing, Publisher, PublisherOf, Rested};
use std::alloc::Global;
use std::sync::Wait;
use texts::{List, NoMemory};
use world_core::Entry;

/// A publisher with the entry of each point that was appended to it. Those in front are published.
pub(crate) struct EntryPublisherOf<K: Pairing> {
    pub(crate) publisher: PublisherOf<K>,
    pub(crate) entries: Vec<Entry>,
    pub(crate) published: usize,
    ghost within: { published ≤ length entries.items },
    ghost appended: { publisher.appended.items ≡ entry_points entries.items },
    ghost shown: { publisher.published.points ≡ entry_points (take published entries.items) },
}

impl<V: Grow> EntryPublisherOf<Of<V>> {
    /// Appends the entry's point and keeps the entry, for which room is taken first. After a refusal all is as before.
    pub(crate) fn append(&mut self, entry: Entry) -> Result<(), NoMemory>
        requires sound { IsTrue (sound self.old.publisher.schema entry.point) }
        requires room { length self.old.entries.items < most_points }
        ensures appended { OnOk result (self.new.entries.items ≡ self.old.entries.items ++ entry ∷ []) }
        ensures unchanged { OnErr result (self.new.entries.items ≡ self.old.entries.items) }
        ensures published { (self.new.published ≡ self.old.published) × (self.new.publisher.published ≡ self.old.publisher.published) }
        ensures pair { (self.new.publisher.schema ≡ self.old.publisher.schema) × (self.new.publisher.viewers ≡ self.old.publisher.viewers) }
    {
        self.entries.reserve(1)?;
        self.publisher.append(entry.point)?;
        match self.entries.push(entry) {
            Ok(()) => Ok(()),
            Err(_) => unreachable!(),
        }
    }

    /// Publishes every entry that was appended, and answers how many there are. After a refusal published is what was.
    pub(crate) fn publish<R: Wait>(&mut self, rt: &R) -> Result<u64, NoMemory>
        ensures published { IfOk result (λ n. (self.new.published ≡ length self.old.entries.items) × (n ≡ length self.old.entries.items)) }
        ensures unchanged { OnErr result ((self.new.published ≡ self.old.published) × (self.new.publisher.published ≡ self.old.publisher.published)) }
        ensures entries { self.new.entries.items ≡ self.old.entries.items }
        ensures book { self.new.publisher.published.book ≡ self.old.publisher.published.book }
        ensures pair { (self.new.publisher.schema ≡ self.old.publisher.schema) × (self.new.publisher.viewers ≡ self.old.publisher.viewers) }
    {
        let count = self.publisher.publish(rt)?;
        self.published = self.entries.len();
        Ok(count)
    }

    /// How many entries are pending.
    pub(crate) fn pending(&self) -> usize
        ensures { result + self.now.published ≡ length self.now.entries.items }
    {
        self.entries.len() - self.published
    }

    /// Ends the pair, which publishes all that was appended, and gives the entries that are published then. Where
    /// memory is wanted these are those that were published before, and the pair is given up, whose viewers see what
    /// they saw.
    pub(crate) fn end<R: Wait>(
        self,
        rt: &R,
        alloc: Global,
    ) -> (List<Entry>, Result<(Rested<V>, List<Last>), GivenUp>)
        ensures entries { MatchResult result.1 (λ _. result.0 ≡ self.entries.items) (λ _. result.0 ≡ take self.published self.entries.items) }
        ensures ended { IfOk result.1 (λ t. t.0.ended.points ≡ self.publisher.appended.items) }
        ensures rested { IfOk result.1 (λ t. (t.0.ended.book ≡ self.publisher.published.book) × (t.0.schema ≡ self.publisher.schema)) }
        ensures lasts { IfOk result.1 (λ t. (length t.1 ≡ self.publisher.viewers) × All (λ l. l.whole ≡ t.0.ended) t.1) }
        ensures given_up { IfErr result.1 (λ g. (g.whole.book ≡ self.publisher.published.book) × IsPrefix g.whole.points self.publisher.appended.items) }
        ensures still_shown { IfErr result.1 (λ g. g.shown ≡ self.publisher.published) }
    {
        let EntryPublisherOf {
            publisher,
            mut entries,
            published,
        } = self;
        let outcome = publisher.end(rt, alloc);
        if outcome.is_err() {
            entries.truncate(published);
        }
        (List::from_vec(entries), outcome)
    }
}
