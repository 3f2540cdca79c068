//! A whole run.
ghost use Rattle.std.specs.Prelude.{◌≡◌, ◌≤◌, ◌+◌, [], All, IfOk, IfErr, length, vec_len, vec_capacity};
ghost use Rattle.cube_crew.specs.Begins.{AreEmptyViews, MayRun};
ghost use Rattle.cube_crew.specs.Crewed.{IsCrewed};
ghost use Rattle.cube_crew.specs.Ending.{EndsRun, IsRun};
ghost use Rattle.cube_crew.specs.Opened.{AreNewFeeds, AreNew, HasMails, HasSeats, IsIdle};
ghost use Rattle.live_session.specs.State.{ends_of};

use crate::ending::{Answered, end_sessions};
use crate::feeds::{end_feeds, seat_feeds};
use crate::jobs::{Crewed, Jobs};
use crate::opening::{Mails, Opened, open_run};
use crate::rooms::Rooms;
use crate::sessions::{leave_sessions, seat_sessions};
use crate::starving::{either, has_starved};
use crate::together::{Later, run_together};
use builder_core::{BuilderOf, BuilderWork, BuilderWorkOf};
use crew_feeder::{FeedDone, FeedWork};
use cube_view::Grow;
use feed_queue::Ended;
use live_session::{SessionDone, SessionWork, transcript_laws};
use outer_io::{Sink, Source};
use published_pair::{Publisher, Viewer};
use std::alloc::Global;
use std::sync::Wait;
use std::thread::Threads;
use texts::{List, NoMemory};

/// Runs the feeders, the builder and the asks side by side, and then the finals. Where what a run opens or gives back
/// finds no memory, the jobs come back as they were, and nothing was read or written.
pub fn run_crew<R: Threads + Wait + Sync, V: Grow + Send + Sync, I: Source + Send, O: Sink + Send>(
    rt: &R,
    alloc: Global,
    first: V,
    again: V,
    jobs: Jobs<I, O>,
) -> Result<Crewed<I, O>, Jobs<I, O>>
    requires views { AreEmptyViews V.weight_at V.seen V.schema first again }
    requires jobs { MayRun (V.schema first) jobs }
    ensures crewed { IfOk result (IsCrewed (ends_of I.Source O.Sink) V.is_stat (V.schema first) jobs) }
    ensures back { IfErr result (λ back. back ≡ jobs) }
{
    let (feeds, asks, finals) = (jobs.feeds.len(), jobs.asks.len(), jobs.finals.len());
    let mut rooms = Rooms::new(alloc);
    if let Err(_) = rooms.reserve(feeds, asks, finals) {
        rooms.let_go();
        return Err(jobs);
    }
    match open_run(rt, alloc, first, again, feeds, asks, finals) {
        Ok(opened) => Ok(run_opened(rt, alloc, rooms, opened, jobs)),
        Err(NoMemory) => {
            rooms.let_go();
            Err(jobs)
        }
    }
}

/// Runs the jobs with all that was opened for them.
fn run_opened<R: Threads + Wait + Sync, V: Grow + Send + Sync, I: Source + Send, O: Sink + Send>(
    rt: &R,
    alloc: Global,
    rooms: Rooms<FeedWork<I>, FeedDone<I>, SessionWork<V, I, O>, SessionDone<I, O>>,
    opened: Opened<Publisher<V>, Viewer<V>>,
    jobs: Jobs<I, O>,
) -> Crewed<I, O>
    requires jobs { MayRun opened.schema jobs }
    requires feeds { AreNewFeeds opened.schema (length jobs.feeds) opened.ends.items opened.draws (vec_len opened.firsts) opened.firsts.items }
    requires publisher { let p = opened.publisher in IsIdle opened.schema (length jobs.asks + length jobs.finals) p.published p.appended.items p.schema p.viewers }
    requires views { let p = opened.publisher in AreNew p.schema p.published (length jobs.asks + length jobs.finals) (vec_len opened.viewers) opened.viewers.items }
    requires mails { HasMails opened.publisher.published.book (length jobs.asks) (length jobs.finals) opened.mails }
    requires fed { let n = length jobs.feeds in (n ≤ vec_capacity rooms.works) × (n ≤ vec_capacity rooms.dones) × (n ≤ vec_capacity rooms.ended) }
    requires answered { HasSeats rooms (length jobs.asks) (length jobs.finals) }
    ensures { IsCrewed (ends_of I.Source O.Sink) V.is_stat opened.schema jobs result }
{
    transcript_laws::<V>();
    let Rooms {
        works,
        dones,
        ended,
        asks,
        finals,
        answered,
        final_answered,
    } = rooms;
    let Opened {
        schema,
        firsts,
        ends,
        draws,
        publisher,
        mut viewers,
        mails,
    } = opened;
    let Mails {
        ins,
        outs,
        final_outs,
    } = mails;
    let Jobs {
        feeds,
        asks: ask_jobs,
        finals: final_jobs,
    } = jobs;
    let feeders = feeds.len() as u8;
    let mut works = seat_feeds(feeds.into_vec(), ends, firsts, works);
    let (ask_jobs, final_jobs) = (ask_jobs.into_vec(), final_jobs.into_vec());
    let finals = seat_sessions(&publisher, final_jobs, &mut viewers, final_outs, finals);
    let asks = seat_sessions(&publisher, ask_jobs, &mut viewers, outs, asks);
    let builder = BuilderOf::new(alloc, publisher, feeders, schema.batch);
    let mut later = Later {
        building: BuilderWorkOf::new(draws, builder, ins),
        asks,
    };
    run_together(rt, alloc, &schema, &mut works, &mut later);
    end_run(
        rt,
        alloc,
        works,
        later,
        finals,
        (dones, ended),
        (answered, final_answered),
    )
}

/// Takes the works of a run apart, once feeders, builder and asks have run.
fn end_run<R: Threads + Wait + Sync, V: Grow + Send + Sync, I: Source + Send, O: Sink + Send>(
    rt: &R,
    alloc: Global,
    works: Vec<FeedWork<I>>,
    later: Later<BuilderWork<V>, SessionWork<V, I, O>>,
    finals: Vec<SessionWork<V, I, O>>,
    fed: (Vec<FeedDone<I>>, Vec<Ended>),
    answered: (Vec<SessionDone<I, O>>, Vec<SessionDone<I, O>>),
) -> Crewed<I, O>
    requires run { IsRun works.items later.building later.asks.items finals.items }
    requires empty { (fed.0.items ≡ []) × (fed.1.items ≡ []) × (answered.0.items ≡ []) × (answered.1.items ≡ []) }
    requires fed { (vec_len works ≤ vec_capacity fed.0) × (vec_len works ≤ vec_capacity fed.1) }
    requires answered { (vec_len later.asks ≤ vec_capacity answered.0) × (vec_len finals ≤ vec_capacity answered.1) }
    ensures { EndsRun (ends_of I.Source O.Sink) V.is_stat works.items later.building later.asks.items finals.items result }
{
    let Later { building, asks } = later;
    let (draws, builder, mails) = building.into_parts();
    let starved = has_starved(works.as_slice(), asks.as_slice(), builder.spent());
    let (feeds, ended) = end_feeds(works, fed.0, fed.1);
    let feeds = List::from_vec(feeds);
    let drawn = draws.settle(rt, List::from_vec(ended));
    let (journal, outcome) = builder.into_journal(rt, alloc);
    match outcome {
        Ok(pair) => {
            let rooms = answered;
            let answered = end_sessions(rt, alloc, pair, (asks, rooms.0), (finals, rooms.1));
            let Answered {
                asks,
                finals,
                starved: finals_starved,
            } = answered;
            Crewed {
                feeds,
                asks: List::from_vec(asks),
                finals: List::from_vec(finals),
                journal,
                drawn,
                mails,
                starved: either(starved, finals_starved),
                closed: true,
            }
        }
        Err(given_up) => Crewed {
            feeds,
            asks: List::from_vec(leave_sessions(&given_up, asks, answered.0)),
            finals: List::from_vec(leave_sessions(&given_up, finals, answered.1)),
            journal,
            drawn,
            mails,
            starved: true,
            closed: false,
        },
    }
}
