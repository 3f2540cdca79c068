//! The feeders, the builder and the asks side by side.
ghost use Rattle.std.specs.Prelude.{◌≡◌, true, false, All, IsTrue, MatchBool};
ghost use Rattle.std.specs.Fork.{AcceptsAt, ChangesAt};
ghost use Rattle.std.specs.List.{AllZip};
ghost use Rattle.builder_core.specs.Built.{IsNewWork, IsBuilt};
ghost use Rattle.crew_feeder.specs.Leaving.{HasFed};
ghost use Rattle.crew_feeder.specs.Taking.{IsReady};
ghost use Rattle.live_session.specs.Leaves.{LeavesSession};
ghost use Rattle.live_session.specs.Work.{HadNoTurn};
ghost use Rattle.cube_crew.specs.Later.{AreUnrun, HaveRun};
ghost use Rattle.live_session.specs.State.{ends_of};

use crate::feeds::run_feeds;
use crate::sessions::run_sessions;
use crate::turns::run_in_turn;
use builder_core::BuilderWork;
use crew_feeder::FeedWork;
use cube_view::{Grow, Schema};
use live_session::SessionWork;
use outer_io::{Sink, Source};
use side_by_side::{run_both, run_both_or_neither};
use std::alloc::Global;
use std::sync::Wait;
use std::thread::Threads;

/// The builder and the asks of a run.
pub(crate) struct Later<B, A> {
    pub building: B,
    pub asks: Vec<A>,
}

/// Does the work of the asks and that of the builder side by side. Where no thread can be made, the builder goes first:
/// the asks need nothing of it to end, but answer then over all that it published. It names no view, so its proof is
/// short.
fn run_later<R: Threads, B, A: Send, F: Fn(usize, &mut Vec<A>) + Sync, G: Fn(usize, &mut B)>(
    rt: &R,
    later: &mut Later<B, A>,
    ask: &F,
    build: &G,
)
    requires asks { AcceptsAt F.Fn ask.now 0 later.old.asks }
    requires building { AcceptsAt G.Fn build.now 1 later.old.building }
    ensures asks { ChangesAt F.Fn ask.now 0 later.old.asks later.new.asks }
    ensures building { ChangesAt G.Fn build.now 1 later.old.building later.new.building }
{
    run_both(rt, ask, &mut later.asks, build, &mut later.building);
}

/// Does both and the work of the feeds side by side, and says whether it did: the feeders wait for the builder where
/// the lane is full, and the builder for them where it is empty, so none of it begins unless each side has a thread.
fn run_three<
    R: Threads + Wait + Sync,
    B: Send,
    A: Send,
    C,
    F: Fn(usize, &mut Vec<A>) + Sync,
    G: Fn(usize, &mut B) + Sync,
    H: Fn(usize, &mut C),
>(rt: &R, later: &mut Later<B, A>, ask: &F, build: &G, feeds: &mut C, feed: &H) -> bool
    requires asks { AcceptsAt F.Fn ask.now 0 later.old.asks }
    requires building { AcceptsAt G.Fn build.now 1 later.old.building }
    requires feeds { AcceptsAt H.Fn feed.now 1 feeds.old }
    ensures asks { MatchBool result (ChangesAt F.Fn ask.now 0 later.old.asks later.new.asks) (later.new.asks ≡ later.old.asks) }
    ensures building { MatchBool result (ChangesAt G.Fn build.now 1 later.old.building later.new.building) (later.new.building ≡ later.old.building) }
    ensures feeds { MatchBool result (ChangesAt H.Fn feed.now 1 feeds.old feeds.new) (feeds.new ≡ feeds.old) }
{
    run_both_or_neither(
        rt,
        &|_: usize, later: &mut Later<B, A>|
            requires { AcceptsAt F.Fn ask.now 0 later.old.asks × AcceptsAt G.Fn build.now 1 later.old.building }
            ensures { ChangesAt F.Fn ask.entry.now 0 later.old.asks later.new.asks × ChangesAt G.Fn build.entry.now 1 later.old.building later.new.building }
        { run_later(rt, later, ask, build) },
        later,
        feed,
        feeds,
    )
}

/// Runs the feeders, the builder and the asks side by side, unless there is no thread for it, and says whether it did.
fn run_on_threads<
    R: Threads + Wait + Sync,
    V: Grow + Send + Sync,
    I: Source + Send,
    O: Sink + Send,
>(
    rt: &R,
    alloc: Global,
    schema: &Schema,
    feeds: &mut Vec<FeedWork<I>>,
    later: &mut Later<BuilderWork<V>, SessionWork<V, I, O>>,
) -> bool
    requires feeds { All (IsReady schema.now) feeds.old.items }
    requires later { AreUnrun later.old.building later.old.asks.items }
    ensures feeds { MatchBool result (AllZip (HasFed I.left I.faults true) feeds.old.items feeds.new.items) (feeds.new ≡ feeds.old) }
    ensures later { IsTrue result → HaveRun (ends_of I.Source O.Sink) V.is_stat later.old.building later.old.asks.items later.new.building later.new.asks.items }
    ensures unrun { result ≡ false → (later.new.building ≡ later.old.building) × (later.new.asks ≡ later.old.asks) }
{
    run_three(
        rt,
        later,
        &|_: usize, asks: &mut Vec<SessionWork<V, I, O>>|
            requires { All (λ w. HadNoTurn w.session) asks.old.items }
            ensures { AllZip (LeavesSession (ends_of I.Source O.Sink) V.is_stat) asks.old.items asks.new.items }
        { run_sessions(rt, alloc, asks.as_mut_slice()) },
        &|_: usize, building: &mut BuilderWork<V>|
            requires { IsNewWork building.old }
            ensures { IsBuilt building.old building.new }
        { building.run(rt) },
        feeds,
        &|_: usize, feeds: &mut Vec<FeedWork<I>>|
            requires { All (IsReady schema.now) feeds.old.items }
            ensures { AllZip (HasFed I.left I.faults true) feeds.old.items feeds.new.items }
        { run_feeds(rt, alloc, schema, feeds.as_mut_slice()) },
    )
}

/// Runs them on this thread: the feeders and the builder in turn, and then the asks.
fn run_on_one<R: Threads + Wait + Sync, V: Grow + Send + Sync, I: Source + Send, O: Sink + Send>(
    rt: &R,
    alloc: Global,
    schema: &Schema,
    feeds: &mut Vec<FeedWork<I>>,
    later: &mut Later<BuilderWork<V>, SessionWork<V, I, O>>,
)
    requires feeds { All (IsReady schema.now) feeds.old.items }
    requires later { AreUnrun later.old.building later.old.asks.items }
    ensures feeds { AllZip (HasFed I.left I.faults true) feeds.old.items feeds.new.items }
    ensures later { HaveRun (ends_of I.Source O.Sink) V.is_stat later.old.building later.old.asks.items later.new.building later.new.asks.items }
{
    run_in_turn(rt, alloc, schema, feeds.as_mut_slice(), &mut later.building);
    run_sessions(rt, alloc, later.asks.as_mut_slice());
}

/// Runs the feeders, the builder and the asks side by side. Where there are no two threads for it, it runs them on this
/// one.
pub(crate) fn run_together<
    R: Threads + Wait + Sync,
    V: Grow + Send + Sync,
    I: Source + Send,
    O: Sink + Send,
>(
    rt: &R,
    alloc: Global,
    schema: &Schema,
    feeds: &mut Vec<FeedWork<I>>,
    later: &mut Later<BuilderWork<V>, SessionWork<V, I, O>>,
)
    requires feeds { All (IsReady schema.now) feeds.old.items }
    requires later { AreUnrun later.old.building later.old.asks.items }
    ensures feeds { AllZip (HasFed I.left I.faults true) feeds.old.items feeds.new.items }
    ensures later { HaveRun (ends_of I.Source O.Sink) V.is_stat later.old.building later.old.asks.items later.new.building later.new.asks.items }
{
    if run_on_threads(rt, alloc, schema, feeds, later) {
        return;
    }
    run_on_one(rt, alloc, schema, feeds, later);
}
