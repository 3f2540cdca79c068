//! A session's work: the session, its viewer and its end of a mailbox in one place.
ghost use Rattle.std.specs.Prelude.{◌≡◌, Some, Ok};
ghost use Rattle.live_session.specs.Leaves.{LeavesSession};
ghost use Rattle.live_session.specs.Work.{HadNoTurn, done_of, has_starved, last_number};
ghost use Rattle.live_session.specs.State.{ends_of};
ghost use Rattle.probe_core.specs.Blanks.{IsBlankOf};
ghost use Rattle.world_core.specs.PairFact.{IsPrefix};

use crate::done::SessionDone;
use crate::session::Session;
use core::mem::replace_with;
use cube_view::Grow;
use mailbox::MailOut;
use outer_io::{Sink, Source};
use probe_core::Steps;
use published_pair::{Last, Viewer};
use session_core::SessionFault;
use std::alloc::Global;
use std::marker::{Brand, Model};
use std::sync::Wait;
use std::sync::ledger::{Blank, Ledger};

/// A session with its viewer and its end of a mailbox, before or after its run. It is not `Drop`: end it by `finish`.
pub struct SessionWork<V: Grow, I: Source, O: Sink> {
    session: Session<I, O>,
    viewer: Viewer<V>,
    mail: MailOut,
    end: Result<(), SessionFault>,
}

impl<V: Grow, I: Source, O: Sink> Model for SessionWork<V, I, O> {
    ghost use Rattle.std.specs.Prelude.{◌≡◌};
    ghost use Rattle.live_session.specs.Work.{WorkState};

    ghost Value = { WorkState I O };

    ghost view = { λ w. record { session = w.session; schema = w.viewer.schema; shown = w.viewer.shown; learned = w.viewer.learned; last = w.viewer.last; mail = w.mail; end = w.end } };

    ghost invariant = { λ w. w.viewer.shown.book ≡ w.mail.pair };
}

/// Runs the session to its end, its steps counted in the ledger of the blank.
fn run_in<V: Grow, I: Source, O: Sink, R: Wait, L: Ledger>(
    rt: &R,
    alloc: Global,
    work: SessionWork<V, I, O>,
    blank: Blank,
) -> SessionWork<V, I, O>
    requires no_turn { HadNoTurn work.session }
    requires blank { IsBlankOf L.name L.parts blank }
    ensures { LeavesSession (ends_of I.Source O.Sink) V.is_stat work result }
{
    let SessionWork {
        mut session,
        viewer,
        mut mail,
        end: _,
    } = work;
    let mut steps = Steps::<L>::new(blank);
    let (viewer, end) = session.run(rt, alloc, viewer, &mut mail, &mut steps);
    SessionWork {
        session,
        viewer,
        mail,
        end,
    }
}

/// The same with steps that nobody counts.
fn run_uncounted<V: Grow, I: Source, O: Sink, R: Wait>(
    rt: &R,
    alloc: Global,
    work: SessionWork<V, I, O>,
) -> SessionWork<V, I, O>
    requires { HadNoTurn work.session }
    ensures { LeavesSession (ends_of I.Source O.Sink) V.is_stat work result }
{
    run_in::<V, I, O, R, Brand>(rt, alloc, work, Blank::new(1))
}

impl<V: Grow, I: Source, O: Sink> SessionWork<V, I, O> {
    /// A session that has had no turn, with a viewer and a mailbox of one pair.
    pub fn new(session: Session<I, O>, viewer: Viewer<V>, mail: MailOut) -> SessionWork<V, I, O>
        requires no_turn { HadNoTurn session }
        requires pair { viewer.shown.book ≡ mail.pair }
        ensures parts { (result.session ≡ session) × (result.mail ≡ mail) × (result.schema ≡ viewer.schema) }
        ensures lists { (result.shown ≡ viewer.shown) × (result.learned ≡ viewer.learned) × (result.last ≡ viewer.last) }
        ensures unrun { result.end ≡ Ok tt }
    {
        SessionWork {
            session,
            viewer,
            mail,
            end: Ok(()),
        }
    }

    /// Lets its viewer learn the ended list, so that the session's replies are final.
    pub fn learn_last(&mut self, last: Last)
        requires { last.whole.book ≡ self.old.shown.book }
        ensures learned { (self.new.learned.points ≡ last.whole.points) × (self.new.last ≡ Some last.whole) }
        ensures grown { IsPrefix self.old.learned.points last.whole.points }
        ensures same { (self.new.session ≡ self.old.session) × (self.new.mail ≡ self.old.mail) × (self.new.end ≡ self.old.end) }
        ensures shown { (self.new.shown ≡ self.old.shown) × (self.new.schema ≡ self.old.schema) }
    {
        self.viewer.learn_last(last);
    }

    /// Runs the session to its end, in this thread.
    pub fn run<R: Wait>(&mut self, rt: &R, alloc: Global)
        requires { HadNoTurn self.old.session }
        ensures { LeavesSession (ends_of I.Source O.Sink) V.is_stat self.old self.new }
    {
        replace_with(
            self,
            (),
            |work: SessionWork<V, I, O>, _: ()|
                requires { HadNoTurn work.session }
                ensures { LeavesSession (ends_of I.Source O.Sink) V.is_stat work result.0 }
            { (run_uncounted(rt, alloc, work), ()) },
        );
    }

    /// Whether a reply was the line for want of memory, or its run ended for want of it.
    pub fn has_starved(&self) -> bool
        ensures { result ≡ has_starved self.now }
    {
        self.session.lacked() || self.end == Err(SessionFault::NoMemory)
    }

    /// What it gives back, and its viewer.
    pub fn finish(self) -> (SessionDone<I, O>, Viewer<V>)
        ensures done { result.0 ≡ done_of self }
        ensures viewer { (result.1.shown ≡ self.shown) × (result.1.learned ≡ self.learned) × (result.1.last ≡ self.last) × (result.1.schema ≡ self.schema) }
    {
        let SessionWork {
            session,
            viewer,
            mail,
            end,
        } = self;
        let replies = session.replies();
        let seen = last_number(session.seens());
        let (source, sink) = session.into_parts();
        let done = SessionDone {
            source,
            sink,
            replies,
            seen,
            mail,
            fault: end.err(),
        };
        (done, viewer)
    }
}

/// The last of the numbers, or 0.
fn last_number(numbers: &[u64]) -> u64
    ensures { result ≡ last_number numbers.now }
{
    numbers.last().copied().unwrap_or(0)
}
