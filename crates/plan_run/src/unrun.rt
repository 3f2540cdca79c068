//! The parts of a run that could not begin, given back as they were.
ghost use Rattle.std.specs.Prelude.{◌≡◌, ◌+◌, ◌≤◌, ◌++◌, [], map, length, vec_len, vec_capacity};
ghost use Rattle.run_files.specs.GivingBack.{TakesSources};
ghost use Rattle.run_files.specs.Outside.{of_parts, of_place};
ghost use Rattle.plan_run.specs.Parts.{GivesBack};

use crate::closing::give_back_journal;
use crate::parts::RunParts;
use cube_crew::Jobs;
use live_session::Session;
use outer_io::Place;
use run_files::{give_back_feeds, give_back_sinks};

/// Gives the scripts of sessions back, and puts their sinks into a list that has room for them.
fn give_back_sessions<P: Place>(
    place: &mut P,
    mut sessions: Vec<Session<P::In, P::Out>>,
    sinks: Vec<P::Out>,
) -> Vec<P::Out>
    requires { vec_len sinks + vec_len sessions ≤ vec_capacity sinks }
    ensures back { TakesSources (of_place P.Place) place.old place.new (map (λ session. P.In.faults session.source.source) sessions.items) }
    ensures sinks { result.items ≡ sinks.items ++ map (λ session. session.sink) sessions.items }
    ensures room { (vec_len result ≡ vec_len sinks + vec_len sessions) × (vec_capacity sinks ≤ vec_capacity result) }
{
    let Some(last) = sessions.pop() else {
        sessions.destroy_empty();
        return sinks;
    };
    let mut sinks = give_back_sessions(place, sessions, sinks);
    let (source, sink) = last.into_parts();
    place.give_back_in(source);
    sinks.push_reserved(sink);
    sinks
}

/// Gives all parts back: the sources in order, and then the sinks, the journal's last. A failure stops none of the
/// later ones.
pub(crate) fn give_back_unrun<P: Place>(place: &mut P, parts: RunParts<P::In, P::Out>)
    requires empty { (parts.room.items ≡ []) × (vec_len parts.room ≡ 0) }
    requires room { length parts.jobs.asks + length parts.jobs.finals ≤ vec_capacity parts.room }
    ensures { GivesBack (of_parts P.Place P.In.Source P.Out.Sink) parts place.old place.new }
{
    let RunParts {
        jobs,
        journal,
        room,
    } = parts;
    let Jobs {
        feeds,
        asks,
        finals,
    } = jobs;
    give_back_feeds(place, feeds.into_vec());
    let sinks = give_back_sessions(place, asks.into_vec(), room);
    let sinks = give_back_sessions(place, finals.into_vec(), sinks);
    let _given = give_back_sinks(place, sinks);
    let _kept = give_back_journal(place, journal);
}
