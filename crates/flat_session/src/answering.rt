//! A script answered line by line.
ghost use Rattle.std.specs.Prelude.{◌≡◌, ◌≢◌, Ok, Err, true, false, IsTrue, IsErrOf, OnOk};
ghost use Rattle.flat_session.specs.Answers.{basis_of};
ghost use Rattle.flat_session.specs.Putting.{HasEnd, HasTooMuch, OnAll, PutsLeft, PutsLeftPart, PutsNext, PutsNextPart, PutsOneAnswer, PutsOnePart};
ghost use Rattle.flat_session.specs.Putting.{PutsScript, PutsScriptPart};
ghost use Rattle.flat_view.specs.Kept.{flat_schema};
ghost use Rattle.outer_io.specs.Bytes.{Gains, GainsPart};
ghost use Rattle.outer_io.specs.Cuts.{IsTooMuch};
ghost use Rattle.outer_io.specs.Faults.{HasCause};
ghost use Rattle.outer_io.specs.Progress.{IsGoing};
ghost use Rattle.query_syntax.specs.Meaning.{asks_valid};
ghost use Rattle.session_core.specs.Answering.{CountsFaults, OnTooMuch, OnWrite};
ghost use Rattle.session_core.specs.Asked.{asks_to_end};
ghost use Rattle.session_core.specs.Turns.{Stops};

use crate::serving::serve_flat;
use flat_view::FlatView;
use outer_io::{IoFault, LineCutter, Sink, Source};
use query_syntax::Parsed;
use reply_json::no_memory_line;
use session_core::{ScriptEnd, Served, SessionFault, next_asked};
use std::alloc::Global;
use std::thread::Threads;
use texts::{List, NoMemory};

/// Puts an answer.
fn put_line<O: Sink>(line: &[u8], out: &mut O) -> Result<(), SessionFault>
    ensures name { O.name out.new ≡ O.name out.old }
    ensures put { OnOk result (Gains (O.held out.old) (O.held out.new) line.now) }
    ensures part { IsErrOf result SessionFault.Write → GainsPart (O.held out.old) (O.held out.new) line.now }
    ensures write { HasCause (O.faults out.old) (O.faults out.new) result SessionFault.Write }
    ensures others { (result ≢ Err SessionFault.Read) × (result ≢ Err SessionFault.TooMuch) }
    ensures nothing { (fault : SessionFault) → result ≡ Err fault → fault ≢ SessionFault.Write → O.held out.new ≡ O.held out.old }
{
    match out.put(line) {
        Err(IoFault::NoMemory) => Err(SessionFault::NoMemory),
        Err(IoFault::Failed) => Err(SessionFault::Write),
        Ok(()) => Ok(()),
    }
}

/// Puts the answer to what a line means, in one put, and says whether the script goes on. An answer that finds no
/// memory is the line that says so. The memory of `room` is used from answer to answer.
fn put_answer<R: Threads, O: Sink>(
    rt: &R,
    alloc: Global,
    view: &FlatView,
    parsed: &Parsed,
    lacked: &mut bool,
    room: &mut List<u8>,
    out: &mut O,
) -> Result<bool, SessionFault>
    requires { IsTrue (asks_valid (flat_schema view.now) parsed.now) }
    ensures goes_on { result ≡ Ok true → PutsOneAnswer (basis_of view.now) lacked.new (O.held out.old) (O.held out.new) parsed.now }
    ensures stops { result ≡ Ok false → (asks_to_end parsed.now ≡ true) × (O.held out.new ≡ O.held out.old) }
    ensures breaks_off { OnWrite result (PutsOnePart (basis_of view.now) lacked.new (O.held out.old) (O.held out.new) parsed.now) }
    ensures write { HasCause (O.faults out.old) (O.faults out.new) result SessionFault.Write }
    ensures nothing { (fault : SessionFault) → result ≡ Err fault → fault ≢ SessionFault.Write → O.held out.new ≡ O.held out.old }
    ensures stays { (O.name out.new ≡ O.name out.old) × (lacked.old ≡ true → lacked.new ≡ true) }
    ensures others { (result ≢ Err SessionFault.Read) × (result ≢ Err SessionFault.TooMuch) }
{
    match serve_flat(rt, alloc, view, parsed, room) {
        Err(NoMemory) => {
            *lacked = true;
            put_line(no_memory_line().as_bytes(), out)?;
            Ok(true)
        }
        Ok(Served::Skipped) => Ok(true),
        Ok(Served::Quit) => Ok(false),
        Ok(Served::Reply(answer)) => {
            put_line(answer.as_slice(), out)?;
            *room = answer;
            Ok(true)
        }
    }
}

/// Answers the next line, and says whether the script goes on.
fn answer_next<R: Threads, S: Source, O: Sink>(
    rt: &R,
    alloc: Global,
    view: &FlatView,
    cutter: &mut LineCutter<S>,
    lacked: &mut bool,
    room: &mut List<u8>,
    out: &mut O,
) -> Result<bool, SessionFault>
    requires { IsGoing cutter.old }
    ensures goes_on { result ≡ Ok true → PutsNext (basis_of view.now) lacked.new S.Source cutter.old cutter.new (O.held out.old) (O.held out.new) }
    ensures stops { result ≡ Ok false → Stops S.left S.faults (flat_schema view.now) cutter.old cutter.new × (O.held out.new ≡ O.held out.old) }
    ensures breaks_off { OnWrite result (PutsNextPart (basis_of view.now) lacked.new S.Source cutter.old cutter.new (O.held out.old) (O.held out.new)) }
    ensures too_much { IsErrOf result SessionFault.TooMuch → IsTooMuch S.left cutter.old }
    ensures nothing { (fault : SessionFault) → result ≡ Err fault → fault ≢ SessionFault.Write → O.held out.new ≡ O.held out.old }
    ensures stays { (O.name out.new ≡ O.name out.old) × (lacked.old ≡ true → lacked.new ≡ true) }
    ensures causes { CountsFaults S.faults O.faults cutter.old cutter.new out.old out.new result }
{
    let mut asked = Parsed::Skip;
    if !next_asked(view.schema(), cutter, &mut asked)? {
        return Ok(false);
    }
    put_answer(rt, alloc, view, &asked, lacked, room, out)
}

/// Answers the lines that are left, up to the first `quit`. An answer that finds no memory is the line that says so,
/// and the answers go on; that one did is told by `lacked`. Where the end is `Ok` all lines are answered, and so they
/// are where too much is left: more than 2^30 bytes, and no `quit`. With any other fault a part of the answers, from
/// the front, is put.
fn answer_lines<R: Threads, S: Source, O: Sink>(
    rt: &R,
    alloc: Global,
    view: &FlatView,
    cutter: &mut LineCutter<S>,
    out: &mut O,
) -> ScriptEnd
    requires { IsGoing cutter.old }
    ensures all { OnAll result.end (PutsLeft (basis_of view.now) result.lacked S.left cutter.old (O.held out.old) (O.held out.new)) }
    ensures part { PutsLeftPart (basis_of view.now) result.lacked S.left cutter.old (O.held out.old) (O.held out.new) }
    ensures ended { OnOk result.end (HasEnd (basis_of view.now) S.left cutter.old) }
    ensures too_much { OnTooMuch result.end (HasTooMuch (basis_of view.now) S.left cutter.old) }
    ensures name { O.name out.new ≡ O.name out.old }
    ensures read { HasCause (S.faults cutter.old.source) (S.faults cutter.new.source) result.end SessionFault.Read }
    ensures write { HasCause (O.faults out.old) (O.faults out.new) result.end SessionFault.Write }
{
    let mut lacked = false;
    let mut room = List::new(alloc);
    'turns: loop {
        match answer_next(rt, alloc, view, cutter, &mut lacked, &mut room, out) {
            Ok(true) => {}
            Ok(false) => {
                let end = Ok(());
                return ScriptEnd { lacked, end };
            }
            Err(fault) => {
                let end = Err(fault);
                return ScriptEnd { lacked, end };
            }
        }
    }
}

/// Answers a script up to its first `quit`, line by line: a line is answered before the next is read. An answer that
/// finds no memory is the line that says so, and the answers go on; that one did is told by `lacked`. Where the end is
/// `Ok` the script is not refused and all its lines are answered, and so they are where it is refused, with too much.
/// With any other fault a part of the answers, from the front, is put. The source comes back with every answer.
pub fn answer_flat<R: Threads, S: Source, O: Sink>(
    rt: &R,
    alloc: Global,
    view: &FlatView,
    source: S,
    out: &mut O,
) -> (S, ScriptEnd)
    ensures all { OnOk result.1.end (PutsScript (basis_of view.now) result.1.lacked false (S.left source) (O.held out.old) (O.held out.new)) }
    ensures too_much { OnTooMuch result.1.end (PutsScript (basis_of view.now) result.1.lacked true (S.left source) (O.held out.old) (O.held out.new)) }
    ensures part { PutsScriptPart (basis_of view.now) result.1.lacked (S.left source) (O.held out.old) (O.held out.new) }
    ensures name { O.name out.new ≡ O.name out.old }
    ensures read { HasCause (S.faults source) (S.faults result.0) result.1.end SessionFault.Read }
    ensures write { HasCause (O.faults out.old) (O.faults out.new) result.1.end SessionFault.Write }
{
    match LineCutter::new(alloc, source) {
        Ok(mut cutter) => {
            let answered = answer_lines(rt, alloc, view, &mut cutter, out);
            (cutter.into_source(), answered)
        }
        Err(source) => {
            let end = Err(SessionFault::NoMemory);
            (source, ScriptEnd { lacked: false, end })
        }
    }
}
