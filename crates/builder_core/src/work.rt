//! The builder's work.
ghost use Rattle.std.specs.Prelude.{◌≡◌, ◌↔◌, IsTrue, MatchBool, MatchOption};
ghost use Rattle.builder_core.specs.Built.{IsNewWork, IsBuilding, IsBuilt, HasBuilt};
ghost use Rattle.builder_core.specs.Endings.{EachEnded, all_ended};
ghost use Rattle.builder_core.specs.Steps.{TakesNext, IsStep};
ghost use Rattle.builder_core.specs.Telling.{having_answered, having_told};
ghost use Rattle.builder_core.specs.Work.{work_state};

use crate::builder::{Builder, BuilderOf};
use crate::taken::Taken;
use crate::telling::tell_all;
use cube_view::Grow;
use feed_queue::DrawEnd;
use ghost_values::GhostValue;
use mailbox::MailIn;
use published_pair::{Of, Pairing};
use std::marker::Model;
use std::sync::Wait;
use texts::{List, NoMemory};

/// A builder with the end that draws for it and the mailboxes that it tells. Contracts see each of them.
pub struct BuilderWorkOf<K: Pairing> {
    draws: DrawEnd,
    builder: BuilderOf<K>,
    mails: Vec<MailIn>,
}

impl<K: Pairing> Model for BuilderWorkOf<K> {
    ghost use Rattle.builder_core.specs.Work.{BuilderWorkState, work_state, IsWork};

    ghost Value = { BuilderWorkState };

    ghost view = { λ w. work_state w.draws w.builder w.mails.items };

    ghost invariant = { λ w. IsWork (work_state w.draws w.builder w.mails.items) };
}

/// The builder's work over a pair of a view. It is not `Drop`: end it by `into_parts`.
pub type BuilderWork<V> = BuilderWorkOf<Of<V>>;

impl<V: Grow> BuilderWorkOf<Of<V>> {
    /// The work of a builder that has taken nothing, of the end that draws for it, and of a mailbox for each ask.
    pub fn new(draws: DrawEnd, builder: Builder<V>, mails: List<MailIn>) -> BuilderWork<V>
        requires { IsNewWork (work_state draws builder mails) }
        ensures parts { result ≡ work_state draws builder mails }
        ensures new { IsNewWork result }
    {
        BuilderWorkOf {
            draws,
            builder,
            mails: mails.into_vec(),
        }
    }

    /// Draws what the feeders send and takes it, until the End of each was taken. Each publication, and the last End,
    /// is told to every ask. A spent builder goes on drawing.
    pub fn run<R: Wait>(&mut self, rt: &R)
        requires { IsNewWork self.old }
        ensures { IsBuilt self.old self.new }
    {
        let start = self.begun();
        self.run_on(rt, &start);
    }

    /// The work as it is before its run, which contracts of the parts of a run read.
    pub fn begun(&self) -> GhostValue<BuilderWork<V>>
        requires { IsNewWork self.now }
        ensures value { result.value ≡ self.now }
        ensures building { IsBuilding result.value self.now }
        ensures built { HasBuilt result.value self.now }
    {
        self.builder.has_feeders();
        GhostValue::of(self)
    }

    /// Does a part of a run that began with a work as the carried one: it draws what is queued and takes it, until
    /// nothing is queued or the End of each feeder was taken.
    pub fn run_some<R: Wait>(&mut self, rt: &R, start: &GhostValue<BuilderWork<V>>)
        requires { HasBuilt start.now.value self.old }
        ensures { HasBuilt start.now.value self.new }
    {
        for _ in rt.forever() {
            if self.has_ended() {
                return;
            }
            if !self.step_if_queued(rt) {
                return;
            }
        }
        unreachable!()
    }

    /// Does what is left of such a run, as [`BuilderWork::run`] does.
    pub fn run_rest<R: Wait>(&mut self, rt: &R, start: &GhostValue<BuilderWork<V>>)
        requires { HasBuilt start.now.value self.old }
        ensures { IsBuilt start.now.value self.new }
    {
        if self.has_ended() {
            return;
        }
        self.run_on(rt, start);
    }

    /// Does what is left of such a run in which an End is missing.
    fn run_on<R: Wait>(&mut self, rt: &R, start: &GhostValue<BuilderWork<V>>)
        requires { IsBuilding start.now.value self.old }
        ensures { IsBuilt start.now.value self.new }
    {
        for _ in rt.forever() {
            self.step(rt);
            if self.has_ended() {
                return;
            }
        }
        unreachable!()
    }

    /// The end that draws, the builder, and the mailboxes.
    pub fn into_parts(self) -> (DrawEnd, Builder<V>, List<MailIn>)
        ensures { work_state result.0 result.1 result.2 ≡ self }
    {
        let BuilderWorkOf {
            draws,
            builder,
            mails,
        } = self;
        (draws, builder, List::from_vec(mails))
    }

    /// Draws an item and takes it, and tells what is to be told of it.
    fn step<R: Wait>(&mut self, rt: &R)
        ensures { IsStep self.old self.new }
    {
        let answer = self.take_next(rt);
        self.tell_of(rt, answer);
    }

    /// Does a step where an item is queued, and says whether one was.
    fn step_if_queued<R: Wait>(&mut self, rt: &R) -> bool
        ensures { MatchBool result (IsStep self.old self.new) (self.new ≡ self.old) }
    {
        match self.take_if_queued(rt) {
            Some(answer) => {
                self.tell_of(rt, answer);
                true
            }
            None => false,
        }
    }

    /// Draws an item, if one is queued, and takes it.
    fn take_if_queued<R: Wait>(&mut self, rt: &R) -> Option<Result<Taken, NoMemory>>
        ensures { MatchOption result (self.new ≡ self.old) (λ answer. TakesNext self.old answer self.new) }
    {
        match self.draws.try_draw(rt) {
            Some(item) => Some(self.builder.take(rt, item)),
            None => None,
        }
    }

    /// Draws an item, and takes it.
    fn take_next<R: Wait>(&mut self, rt: &R) -> Result<Taken, NoMemory>
        ensures { TakesNext self.old result self.new }
    {
        let item = self.draws.draw(rt);
        self.builder.take(rt, item)
    }

    /// Tells each ask of a publication, and of the last End.
    fn tell_of<R: Wait>(&mut self, rt: &R, answer: Result<Taken, NoMemory>)
        ensures { self.new ≡ having_answered answer self.old }
    {
        match answer {
            Ok(Taken::Published(_) | Taken::LastEnd(_)) => self.tell(rt),
            Ok(Taken::Kept) | Err(NoMemory) => {}
        }
    }

    /// Tells each ask how many entries are published.
    fn tell<R: Wait>(&mut self, rt: &R)
        ensures { self.new ≡ having_told self.old }
    {
        tell_all(rt, &self.builder, self.mails.as_mut_slice());
    }

    /// Whether the End of each feeder was taken.
    fn has_ended(&self) -> bool
        ensures test { result ≡ all_ended self.now.builder.feeders self.now.builder.taken }
        ensures each { IsTrue result ↔ EachEnded self.now.builder.feeders self.now.builder.taken }
    {
        self.builder.ended()
    }
}
