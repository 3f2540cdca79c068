//! The sessions: they become works, the works run side by side, and become what is given back.
ghost use Rattle.std.specs.Prelude.{◌≡◌, ◌≤◌, ◌+◌, [], map, length, vec_len, vec_capacity, All, IfSome, IsSome};
ghost use Rattle.std.specs.List.{AllZip};
ghost use Rattle.live_session.specs.Leaves.{LeavesSession};
ghost use Rattle.live_session.specs.Work.{HadNoTurn, done_of};
ghost use Rattle.cube_crew.specs.Ending.{IsWithin};
ghost use Rattle.cube_crew.specs.Works.{HasLearned, session_works_of};
ghost use Rattle.live_session.specs.State.{ends_of};
ghost use Rattle.published_pair.specs.Pair.{Fresh, IsNewViewer};

use cube_view::Grow;
use live_session::{Session, SessionDone, SessionWork};
use mailbox::MailOut;
use outer_io::{Sink, Source};
use published_pair::{GivenUp, Last, Publisher, Rested, Viewer};
use std::alloc::Global;
use std::sync::Wait;
use std::thread::{self, Threads};

/// Each session with a viewer, which is the last of the viewers that are left, and its mailbox. It takes no memory.
pub(crate) fn seat_sessions<V: Grow, I: Source, O: Sink>(
    publisher: &Publisher<V>,
    mut sessions: Vec<Session<I, O>>,
    viewers: &mut Vec<Viewer<V>>,
    mut mails: Vec<MailOut>,
    room: Vec<SessionWork<V, I, O>>,
) -> Vec<SessionWork<V, I, O>>
    requires sessions { (vec_len sessions ≤ vec_len viewers.old) × All HadNoTurn sessions.items }
    requires mails { (vec_len mails ≡ vec_len sessions) × All (λ m. m.pair ≡ publisher.now.published.book) mails.items }
    requires new { All (λ v. IsNewViewer publisher.now.schema publisher.now.published v.schema v.shown v.learned v.last) viewers.old.items }
    requires room { (room.items ≡ []) × (vec_len sessions ≤ vec_capacity room) }
    ensures works { result.items ≡ session_works_of publisher.now.schema publisher.now.published sessions.items mails.items }
    ensures len { (vec_len result ≡ vec_len sessions) × (vec_len viewers.new + vec_len sessions ≡ vec_len viewers.old) }
    ensures left { All (λ v. IsNewViewer publisher.now.schema publisher.now.published v.schema v.shown v.learned v.last) viewers.new.items }
    ensures room { vec_capacity room ≤ vec_capacity result }
{
    let Some(session) = sessions.pop() else {
        sessions.destroy_empty();
        return room;
    };
    let Some(mail) = mails.pop() else {
        unreachable!()
    };
    let Some(viewer) = viewers.pop() else {
        unreachable!()
    };
    let mut works = seat_sessions(publisher, sessions, viewers, mails, room);
    works.push_reserved(SessionWork::new(session, viewer, mail));
    works
}

/// Runs the sessions side by side, each in a thread of its own where one can be made.
pub(crate) fn run_sessions<
    R: Threads + Wait + Sync,
    V: Grow + Send + Sync,
    I: Source + Send,
    O: Sink + Send,
>(rt: &R, alloc: Global, works: &mut [SessionWork<V, I, O>])
    requires no_turn { All (λ w. HadNoTurn w.session) works.old }
    ensures { AllZip (LeavesSession (ends_of I.Source O.Sink) V.is_stat) works.old works.new }
{
    thread::for_each_mut(
        rt,
        works,
        8,
        &|_: usize, work: &mut SessionWork<V, I, O>|
            requires { HadNoTurn work.old.session }
            ensures { LeavesSession (ends_of I.Source O.Sink) V.is_stat work.old work.new }
        { work.run(rt, alloc) },
    );
}

/// Lets the viewer of each session learn the ended list.
pub(crate) fn teach<V: Grow, I: Source, O: Sink>(
    works: &mut [SessionWork<V, I, O>],
    lasts: &mut Vec<Last>,
    rested: &Rested<V>,
)
    requires enough { length works.old ≤ vec_len lasts.old }
    requires same { All (λ l. l.whole ≡ rested.now.ended) lasts.old.items }
    requires pair { All (λ w. w.shown.book ≡ rested.now.ended.book) works.old }
    ensures learned { AllZip (HasLearned rested.now.ended) works.old works.new }
    ensures left { All (λ l. l.whole ≡ rested.now.ended) lasts.new.items }
    ensures len { vec_len lasts.new + length works.old ≡ vec_len lasts.old }
{
    for work in works.iter_mut() {
        match lasts.pop() {
            Some(last) => work.learn_last(last),
            None => unreachable!(),
        }
    }
}

/// Closes the viewer of each session, and gives what each session leaves. It takes no memory.
pub(crate) fn close_sessions<V: Grow, I: Source, O: Sink, R: Wait>(
    rt: &R,
    mut works: Vec<SessionWork<V, I, O>>,
    room: Vec<SessionDone<I, O>>,
) -> Vec<SessionDone<I, O>>
    requires learned { All (λ w. IsSome w.last) works.items }
    requires room { (room.items ≡ []) × (vec_len works ≤ vec_capacity room) }
    ensures dones { result.items ≡ map done_of works.items }
    ensures within { All (λ w. IfSome w.last (λ l. Fresh w.shown.points w.learned.points l.points)) works.items }
    ensures room { (vec_len result ≡ vec_len works) × (vec_capacity room ≤ vec_capacity result) }
{
    let Some(work) = works.pop() else {
        works.destroy_empty();
        return room;
    };
    let mut dones = close_sessions(rt, works, room);
    let (done, viewer) = work.finish();
    viewer.close(rt);
    dones.push_reserved(done);
    dones
}

/// What each session leaves, whose viewer is of a pair that was given up. It takes no memory.
pub(crate) fn leave_sessions<V: Grow, I: Source, O: Sink>(
    given_up: &GivenUp,
    mut works: Vec<SessionWork<V, I, O>>,
    room: Vec<SessionDone<I, O>>,
) -> Vec<SessionDone<I, O>>
    requires pair { All (λ w. w.shown.book ≡ given_up.now.whole.book) works.items }
    requires room { (room.items ≡ []) × (vec_len works ≤ vec_capacity room) }
    ensures dones { result.items ≡ map done_of works.items }
    ensures within { All (IsWithin given_up.now.whole.points) works.items }
    ensures room { (vec_len result ≡ vec_len works) × (vec_capacity room ≤ vec_capacity result) }
{
    let Some(work) = works.pop() else {
        works.destroy_empty();
        return room;
    };
    let mut dones = leave_sessions(given_up, works, room);
    let (done, viewer) = work.finish();
    given_up.covers(&viewer);
    dones.push_reserved(done);
    dones
}
