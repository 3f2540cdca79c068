//! Why a run ends, by the faults that ended its feeds and its sessions.
ghost use Rattle.std.specs.Prelude.{◌≡◌};
ghost use Rattle.plan_run.specs.Closing.{threads_end};
ghost use Rattle.plan_run.specs.ThreadEnds.{feed_end, feeds_end, session_end, sessions_end, starved_end};

use crew_feeder::FeedDone;
use cube_crew::Crewed;
use live_session::SessionDone;
use outer_io::{CutFault, Source};
use run_files::{Stop, joined_ends, stop_of_cut, stop_of_session};
use session_core::SessionFault;

/// How a run ends by how a feed ended.
fn feed_end(fault: Option<CutFault>) -> Result<(), Stop>
    ensures { result ≡ feed_end fault }
{
    match fault {
        None => Ok(()),
        Some(fault) => Err(stop_of_cut(fault)),
    }
}

/// How it ends by how a session ended.
fn session_end(fault: Option<SessionFault>) -> Result<(), Stop>
    ensures { result ≡ session_end fault }
{
    match fault {
        None => Ok(()),
        Some(fault) => Err(stop_of_session(fault)),
    }
}

/// How it ends by whether something in its threads found no memory.
fn starved_end(starved: bool) -> Result<(), Stop>
    ensures { result ≡ starved_end starved }
{
    if starved { Err(Stop::NoMemory) } else { Ok(()) }
}

/// How it ends by how all feeds ended.
fn feeds_end<I: Source>(feeds: &[FeedDone<I>]) -> Result<(), Stop>
    ensures { result ≡ feeds_end feeds.now }
{
    let mut end = Ok(());
    for feed in feeds {
        end = joined_ends(end, feed_end(feed.counts.fault));
    }
    end
}

/// How it ends by how all sessions of a list ended.
fn sessions_end<I, O>(sessions: &[SessionDone<I, O>]) -> Result<(), Stop>
    ensures { result ≡ sessions_end sessions.now }
{
    let mut end = Ok(());
    for session in sessions {
        end = joined_ends(end, session_end(session.fault));
    }
    end
}

/// How it ends by what its threads met.
pub(crate) fn threads_end<I: Source, O>(crewed: &Crewed<I, O>) -> Result<(), Stop>
    ensures { result ≡ threads_end crewed.now }
{
    let feeds = joined_ends(
        starved_end(crewed.starved),
        feeds_end(crewed.feeds.as_slice()),
    );
    let asks = joined_ends(feeds, sessions_end(crewed.asks.as_slice()));
    joined_ends(asks, sessions_end(crewed.finals.as_slice()))
}
