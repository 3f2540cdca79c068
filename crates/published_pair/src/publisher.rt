//! The end that adds points.
ghost use Rattle.std.specs.Prelude.{◌≡◌, ◌+◌, ◌<◌, ◌≤◌, ◌++◌, ◌∷◌, [], length, take, drop, fold, All, IsTrue, Some, OnOk, OnErr, IfOk, MatchResult};
ghost use Rattle.cube_view.specs.Bag.{most_points};
ghost use Rattle.cube_view.specs.Validity.{sound};
ghost use Rattle.left_right.specs.Sides.{view};
ghost use Rattle.world_core.specs.PairFact.{IsPrefix};
ghost use Rattle.published_pair.specs.Rules.{first_word_of};
ghost use Rattle.published_pair.specs.Pair.{HasSent, Pends, standing, names};

use crate::book::{Front, Head};
use crate::looks::Looks;
use crate::names::{Names, Standing};
use crate::rule::{Look, PairRule};
use crate::stand::{Sent, Stand};
use crate::told::{GivenUp, Told};
use core::mem::replace_with;
use crossbeam_utils::rule::Protocol;
use cube_view::{Grow, Point, Schema};
use ghost_values::GhostList;
use left_right::Absorb;
use left_right::writer::Writer;
use std::alloc::Global;
use std::marker::PhantomData;
use std::mem::replace;
use std::sync::{Arc, Wait};
use texts::{List, NoMemory};

pub(crate) type PairWriter<V> = Writer<Stand<V>, Sent, Option<Names>, PairRule<V>>;

/// The copies of a pair, and their rule.
pub trait Pairing {
    type Stand: Absorb<Sent, State = Standing> + Drop;

    type Rule: Protocol<Self::Stand, Option<Names>>;
}

/// The pairing of a view.
pub struct Of<V> {
    of: PhantomData<V>,
}

impl<V: Grow> Pairing for Of<V> {
    type Stand = Stand<V>;

    type Rule = PairRule<V>;
}

/// The publisher of a pairing.
pub struct PublisherOf<K: Pairing> {
    pub(crate) writer: Writer<K::Stand, Sent, Option<Names>, K::Rule>,
    pub(crate) head: Head,
    pub(crate) schema: Schema,
    /// What viewers are shown.
    pub(crate) published: Front,
    /// All that is noted in the book. It is ahead of what viewers are shown only after a publication that was refused.
    pub(crate) noted: Front,
    /// What was appended since, and is sent to the copies once it is noted.
    pub(crate) since: List<Point>,
    pub(crate) alloc: Global,
    /// All that was appended.
    pub(crate) appended: GhostList<Point>,
    pub(crate) viewers: u32,
    /// What it sleeps on while looks are open.
    pub(crate) looks: Arc<Looks>,
    ghost head_is: { head.word ≡ first_word_of published.book },
    ghost book: { noted.book ≡ published.book },
    ghost shown: { K.Stand.state writer.desk.shown.value ≡ standing published.points published schema },
    ghost pends: { (fold K.Stand.applied (K.Stand.state writer.desk.shown.value) (drop writer.behind writer.log.items)).points ≡ noted.points },
    ghost goes_by: { (fold K.Stand.applied (K.Stand.state writer.desk.shown.value) (drop writer.behind writer.log.items)).schema ≡ schema },
    ghost named: { view writer.desk.place ≡ Some (names published.book schema published.points) },
    ghost joined: { appended.items ≡ noted.points ++ since },
    ghost sound: { All (λ p. IsTrue (sound schema p)) since },
    ghost few: { length appended.items ≤ most_points },
    ghost within: { take (length published.points) noted.points ≡ published.points },
}

/// Contracts see its book, which names the pair, its schema, the published list, all that was appended, and how many
/// viewers the pair has. It is not `Drop`: end it by `end` or `finish`.
pub type Publisher<V> = PublisherOf<Of<V>>;

/// Shows viewers what is pending, which ends in a list that is noted. After `Err` they see what they saw.
pub(crate) fn show<V: Grow, R: Wait>(
    rt: &R,
    writer: PairWriter<V>,
    schema: &Schema,
    published: &Front,
    noted: &Front,
) -> (PairWriter<V>, Result<(), NoMemory>)
    requires { HasSent (⟦<Stand<V> as Absorb<Sent>>⟧.state writer.desk.shown.value) writer.behind writer.log.items schema.now published.now noted.now }
    ensures shown { OnOk result.1 (⟦<Stand<V> as Absorb<Sent>>⟧.state result.0.desk.shown.value ≡ standing noted.now.points noted.now schema.now) }
    ensures pends { OnOk result.1 (drop result.0.behind result.0.log.items ≡ []) }
    ensures named { OnOk result.1 (view result.0.desk.place ≡ Some (names noted.now.book schema.now noted.now.points)) }
    ensures unchanged { OnErr result.1 (result.0.desk.shown.value ≡ writer.desk.shown.value) }
    ensures still_pends { OnErr result.1 (drop result.0.behind result.0.log.items ≡ drop writer.behind writer.log.items) }
    ensures still_named { OnErr result.1 (view result.0.desk.place ≡ view writer.desk.place) }
{
    let (after, outcome) = writer.publish_as::<Look<V>, R>(rt);
    match outcome {
        Ok(()) => (after, Ok(())),
        Err(_) => (after, Err(NoMemory)),
    }
}

impl<V: Grow> PublisherOf<Of<V>> {
    /// Adds a point behind those that were appended. Viewers see it once it is published. After a refusal all is as
    /// before.
    pub fn append(&mut self, point: Point) -> Result<(), NoMemory>
        requires sound { IsTrue (sound self.old.schema point) }
        requires room { length self.old.appended.items < most_points }
        ensures appended { OnOk result (self.new.appended.items ≡ self.old.appended.items ++ point ∷ []) }
        ensures unchanged { OnErr result (self.new.appended.items ≡ self.old.appended.items) }
        ensures published { self.new.published ≡ self.old.published }
        ensures pair { (self.new.schema ≡ self.old.schema) × (self.new.viewers ≡ self.old.viewers) }
    {
        self.since.add(point)?;
        self.appended = self.appended.and(&point);
        Ok(())
    }

    #[tactic(auto, using(crate::proofs::Prefixes::taken_prefix))]
    // Sends the copies all that was appended since, as one operation, notes it as published, and sends them the list
    // that they then stand at.
    pub(crate) fn note<R: Wait>(&mut self, rt: &R) -> Result<(), NoMemory>
        ensures sent { OnOk result (let w = self.new.writer in Pends w.behind w.log.items self.new.schema self.new.published self.new.noted) }
        ensures noted { OnOk result (self.new.noted.points ≡ self.new.appended.items) }
        ensures within { IsPrefix self.new.published.points self.new.noted.points }
        ensures book { self.new.noted.book ≡ self.new.published.book }
        ensures same { (self.new.published ≡ self.old.published) × (self.new.appended ≡ self.old.appended) }
        ensures pair { (self.new.schema ≡ self.old.schema) × (self.new.viewers ≡ self.old.viewers) }
    {
        let size = self.since.len() as u64;
        let batch = GhostList::new().with_all(self.since.as_slice());
        let points = replace(&mut self.since, List::new(self.alloc));
        match self.writer.append(Sent::Added(points)) {
            Ok(()) => {}
            Err(Sent::Added(points)) => {
                self.since = points;
                return Err(NoMemory);
            }
            Err(Sent::Noted(_)) => unreachable!(),
        }
        self.noted = self.noted.add(rt, &self.head, &batch, size);
        match self.writer.append(Sent::Noted(self.noted.again())) {
            Ok(()) => Ok(()),
            Err(_) => Err(NoMemory),
        }
    }

    /// Shows viewers each point that was appended, and answers how many there are. After a refusal they see what they
    /// saw.
    pub fn publish<R: Wait>(&mut self, rt: &R) -> Result<u64, NoMemory>
        ensures published { IfOk result (λ n. (self.new.published.points ≡ self.old.appended.items) × (n ≡ length self.old.appended.items)) }
        ensures grows { IsPrefix self.old.published.points self.new.published.points }
        ensures unchanged { OnErr result (self.new.published ≡ self.old.published) }
        ensures appended { self.new.appended ≡ self.old.appended }
        ensures book { self.new.published.book ≡ self.old.published.book }
        ensures pair { (self.new.schema ≡ self.old.schema) × (self.new.viewers ≡ self.old.viewers) }
    {
        self.note(rt)?;
        self.looks.wait_for_earlier(rt);
        let (schema, published, noted) = (&self.schema, &self.published, &self.noted);
        let outcome = replace_with(
            &mut self.writer,
            rt,
            |w, rt|
                requires { let x = w.desk.shown.value in HasSent (standing x.history.items x.front (V.schema x.view)) w.behind w.log.items schema.now published.now noted.now }
            { show(rt, w, schema, published, noted) },
        );
        outcome?;
        self.looks.count_publication();
        self.published = self.noted.again();
        Ok(self.published.len())
    }

    /// What viewers are to know of: the published list. It takes no memory.
    pub fn tell(&self) -> Told
        ensures { result.front ≡ self.now.published }
    {
        Told {
            front: self.published.again(),
        }
    }

    /// How many points were published.
    pub fn len(&self) -> u64
        ensures { result ≡ length self.now.published.points }
    {
        self.published.len()
    }

    // Gives the pair up: viewers were shown no more than what is published, and nothing is published after what is
    // noted.
    pub(crate) fn give_up<R: Wait>(self, rt: &R) -> GivenUp
        ensures shown { result.shown ≡ self.published }
        ensures whole { (result.whole.book ≡ self.published.book) × IsPrefix result.whole.points self.appended.items }
    {
        let PublisherOf {
            writer,
            head,
            schema: _schema,
            published: _published,
            noted,
            since: _since,
            alloc: _,
            appended: _appended,
            viewers: _,
            looks,
        } = self;
        let whole = noted.end(rt, &head);
        looks.wait_for_all(rt);
        let copy = writer.take(rt);
        GivenUp {
            shown: copy.front.again(),
            whole,
        }
    }

    /// Uses the pair up; nothing is published by it. To be called once no viewer looks any more: a later look waits for
    /// ever.
    pub fn finish<R: Wait>(self, rt: &R) {
        let PublisherOf {
            writer,
            head: _head,
            schema: _schema,
            published: _published,
            noted: _noted,
            since: _since,
            alloc: _,
            appended: _appended,
            viewers: _,
            looks,
        } = self;
        looks.wait_for_all(rt);
        writer.take(rt);
    }
}
