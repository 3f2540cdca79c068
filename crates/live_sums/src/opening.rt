//! The files of a session: questions, asks and replies.
ghost use Rattle.std.specs.Prelude.{◌≡◌, ◌≢◌, ◌≤◌, [], ◌∷◌, All, Err, Some, IfOk, OnOk, length, map, vec_len, vec_capacity};
ghost use Rattle.std.specs.List.{AllZip};
ghost use Rattle.std.specs.Result.{result_err};
ghost use Rattle.outer_io.specs.Told.{Told};
ghost use Rattle.run_files.specs.GivingBack.{TakesSources};
ghost use Rattle.run_files.specs.Outside.{file_of, of_place, of_sink};
ghost use Rattle.run_files.specs.Scripted.{IsOutput, IsScript, OpensScripts};
ghost use Rattle.live_sums.specs.Opening.{NoneRead, ask_names, reply_names};

use crate::replies::Replies;
use outer_io::{LineCutter, Place};
use run_files::{Stop, create_file, read_end};
use std::alloc::Global;

/// The names of a run's ask, and of its replies.
#[derive(Clone, Copy, Drop)]
pub struct RunNames<'a> {
    pub ask: &'a str,
    pub replies: &'a str,
}

/// The names of the plan and of the questions, and those of each run.
#[derive(Clone, Copy)]
pub struct LiveNames<'a> {
    pub plan: &'a str,
    pub questions: &'a str,
    pub runs: &'a [RunNames<'a>],
}

/// The source of that name, opened, or how the session ends.
fn open_source<P: Place>(name: &str, place: &mut P) -> Result<P::In, Stop>
    ensures opens { OpensScripts (of_place P.Place) place.old place.new (name.now ∷ []) [] (result_err result) }
    ensures left { IfOk result (λ source. Told (file_of (P.files place.old) name.now) (λ bytes. P.In.left source ≡ Some bytes)) }
    ensures fresh { IfOk result (λ source. P.In.faults source ≡ 0) }
{
    read_end(place.open(name))
}

/// The questions, cut into lines.
pub(crate) fn open_questions<P: Place>(
    alloc: Global,
    name: &str,
    place: &mut P,
) -> Result<LineCutter<P::In>, Stop>
    ensures opens { OpensScripts (of_place P.Place) place.old place.new (name.now ∷ []) [] (result_err result) }
    ensures lines { IfOk result (IsScript P.In.left P.In.faults (file_of (P.files place.old) name.now)) }
{
    let source = open_source(name, place)?;
    match LineCutter::new(alloc, source) {
        Ok(lines) => Ok(lines),
        Err(unused) => {
            place.give_back_in(unused);
            Err(Stop::NoMemory)
        }
    }
}

/// The ask of a run, created.
fn create_ask<P: Place>(run: &RunNames<'_>, place: &mut P) -> Result<P::Out, Stop>
    ensures creates { OpensScripts (of_place P.Place) place.old place.new [] (run.now.ask.now ∷ []) (result_err result) }
    ensures no_read { result ≢ Err Stop.ReadFault }
    ensures output { IfOk result (IsOutput (of_sink P.Out.Sink) (P.files place.old) run.now.ask.now) }
{
    create_file(run.ask, place)
}

/// Creates the asks of those runs, in order, into a list that has room for them.
pub(crate) fn create_asks<P: Place>(
    runs: &[RunNames<'_>],
    place: &mut P,
    asks: &mut Vec<P::Out>,
) -> Result<(), Stop>
    requires empty { (asks.old.items ≡ []) × (vec_len asks.old ≡ 0) }
    requires room { length runs.now ≤ vec_capacity asks.old }
    ensures creates { OpensScripts (of_place P.Place) place.old place.new [] (ask_names runs.now) (result_err result) }
    ensures no_read { result ≢ Err Stop.ReadFault }
    ensures asks { OnOk result (AllZip (IsOutput (of_sink P.Out.Sink) (P.files place.old)) (ask_names runs.now) asks.new.items) }
    ensures size { OnOk result (length asks.new.items ≡ length runs.now) }
{
    for i in 0..runs.len() {
        let ask = create_ask(&runs[i], place)?;
        asks.push_reserved(ask);
    }
    Ok(())
}

/// The replies of a run, opened.
fn open_run<P: Place>(
    alloc: Global,
    run: &RunNames<'_>,
    place: &mut P,
) -> Result<Replies<P::In>, Stop>
    ensures opens { OpensScripts (of_place P.Place) place.old place.new (run.now.replies.now ∷ []) [] (result_err result) }
    ensures unread { IfOk result (NoneRead P.In.left P.In.faults (P.files place.old) run.now.replies.now) }
{
    let source = open_source(run.replies, place)?;
    Ok(Replies::new(alloc, source))
}

/// Opens the replies of those runs, in order, into a list that has room for them.
pub(crate) fn open_replies<P: Place>(
    alloc: Global,
    runs: &[RunNames<'_>],
    place: &mut P,
    replies: &mut Vec<Replies<P::In>>,
) -> Result<(), Stop>
    requires empty { (replies.old.items ≡ []) × (vec_len replies.old ≡ 0) }
    requires room { length runs.now ≤ vec_capacity replies.old }
    ensures opens { OpensScripts (of_place P.Place) place.old place.new (reply_names runs.now) [] (result_err result) }
    ensures unread { OnOk result (AllZip (NoneRead P.In.left P.In.faults (P.files place.old)) (reply_names runs.now) replies.new.items) }
    ensures quiet { All (λ run. P.In.faults run.source ≡ 0) replies.new.items }
    ensures size { OnOk result (length replies.new.items ≡ length runs.now) }
{
    for i in 0..runs.len() {
        let opened = open_run(alloc, &runs[i], place)?;
        replies.push_reserved(opened);
    }
    Ok(())
}

/// Gives the sources of replies back.
pub(crate) fn give_back_replies<P: Place>(place: &mut P, mut replies: Vec<Replies<P::In>>)
    ensures { TakesSources (of_place P.Place) place.old place.new (map (λ run. P.In.faults run.source) replies.items) }
{
    let Some(last) = replies.pop() else {
        replies.destroy_empty();
        return;
    };
    give_back_replies(place, replies);
    place.give_back_in(last.into_source());
}
