//! The sources of feeds and scripts given back, with what was counted of them.
ghost use Rattle.std.specs.Prelude.{◌≡◌, ◌+◌, ◌≤◌, ◌++◌, map, IfOk, vec_len, vec_capacity};
ghost use Rattle.run_files.specs.GivingBack.{TakesSources};
ghost use Rattle.run_files.specs.Outside.{of_place};
ghost use Rattle.plan_run.specs.Counted.{script_counts};

use crate::counts::with_one_more;
use crew_feeder::FeedDone;
use feed_reader::FeedCounts;
use live_session::SessionDone;
use outer_io::Place;
use run_files::ScriptCounts;
use std::alloc::Global;
use texts::NoMemory;

/// Gives the sources of feeds back, in order, and says what was counted of them, where there is memory for it.
pub(crate) fn give_back_fed<P: Place>(
    alloc: Global,
    place: &mut P,
    mut feeds: Vec<FeedDone<P::In>>,
) -> Result<Vec<FeedCounts>, NoMemory>
    ensures back { TakesSources (of_place P.Place) place.old place.new (map (λ f. P.In.faults f.source) feeds.items) }
    ensures counts { IfOk result (λ counts. counts.items ≡ map (λ feed. feed.counts) feeds.items) }
{
    let Some(last) = feeds.pop() else {
        feeds.destroy_empty();
        return Ok(Vec::new(alloc));
    };
    let counts = give_back_fed(alloc, place, feeds);
    let FeedDone {
        source,
        counts: more,
    } = last;
    place.give_back_in(source);
    with_one_more(counts, more)
}

/// Gives the sources of scripts back, in order, and puts their sinks into a list that has room for them.
pub(crate) fn give_back_scripts<P: Place>(
    alloc: Global,
    place: &mut P,
    mut sessions: Vec<SessionDone<P::In, P::Out>>,
    sinks: Vec<P::Out>,
) -> (Vec<P::Out>, Result<Vec<ScriptCounts>, NoMemory>)
    requires { vec_len sinks + vec_len sessions ≤ vec_capacity sinks }
    ensures back { TakesSources (of_place P.Place) place.old place.new (map (λ s. P.In.faults s.source) sessions.items) }
    ensures sinks { result.0.items ≡ sinks.items ++ map (λ s. s.sink) sessions.items }
    ensures counts { IfOk result.1 (λ counts. counts.items ≡ map script_counts sessions.items) }
    ensures room { (vec_len result.0 ≡ vec_len sinks + vec_len sessions) × (vec_capacity sinks ≤ vec_capacity result.0) }
{
    let Some(last) = sessions.pop() else {
        sessions.destroy_empty();
        return (sinks, Ok(Vec::new(alloc)));
    };
    let (mut sinks, counts) = give_back_scripts(alloc, place, sessions, sinks);
    let SessionDone {
        source,
        sink,
        replies,
        seen,
        mail: _,
        fault,
    } = last;
    place.give_back_in(source);
    sinks.push_reserved(sink);
    let more = ScriptCounts {
        replies,
        seen,
        fault,
    };
    (sinks, with_one_more(counts, more))
}
