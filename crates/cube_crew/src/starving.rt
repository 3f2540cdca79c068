//! Whether a feeder or a session found no memory.
ghost use Rattle.std.specs.Prelude.{◌≡◌, ◌||◌, false, All};
ghost use Rattle.cube_crew.specs.Starving.{FoundMemory, FoundRoom};

use crew_feeder::FeedWork;
use cube_view::Grow;
use live_session::SessionWork;
use outer_io::{CutFault, Sink, Source};

/// Whether the feeder ended for want of memory.
fn lacked_room<I: Source>(work: &FeedWork<I>) -> bool
    ensures { result ≡ false → FoundRoom work.now }
{
    match work.fault {
        Some(CutFault::NoMemory) => true,
        Some(CutFault::Read | CutFault::TooMuch) | None => false,
    }
}

/// Whether a feeder ended for want of memory.
fn has_starved_feed<I: Source>(works: &[FeedWork<I>]) -> bool
    ensures { result ≡ false → All FoundRoom works.now }
{
    for work in works {
        if lacked_room(work) {
            return true;
        }
    }
    false
}

/// Whether a session found no memory for a reply, or ended for want of it.
pub(crate) fn has_starved_session<V: Grow, I: Source, O: Sink>(
    works: &[SessionWork<V, I, O>],
) -> bool
    ensures { result ≡ false → All FoundMemory works.now }
{
    for work in works {
        if work.has_starved() {
            return true;
        }
    }
    false
}

/// Whether a feeder or a session of these, or the builder, found no memory.
pub(crate) fn has_starved<V: Grow, I: Source, O: Sink>(
    works: &[FeedWork<I>],
    sessions: &[SessionWork<V, I, O>],
    spent: bool,
) -> bool
    ensures { result ≡ false → All FoundRoom works.now × All FoundMemory sessions.now × (spent ≡ false) }
{
    if has_starved_feed(works) {
        return true;
    }
    if has_starved_session(sessions) {
        return true;
    }
    spent
}

/// Whether either is so.
pub(crate) fn either(one: bool, other: bool) -> bool
    ensures { result ≡ one || other }
{
    one || other
}
