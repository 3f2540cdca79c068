//! A script answered line by line.
ghost use Rattle.std.specs.Prelude.{◌≡◌, ◌≢◌, ◌⊎◌, ◌≤◌, [], Ok, Err, true, false, IsTrue, IfOk, OnOk, OnErr, IsErrOf};
ghost use Rattle.outer_io.specs.Bytes.{Gains, GainsPart};
ghost use Rattle.outer_io.specs.Cuts.{IsTooMuch};
ghost use Rattle.outer_io.specs.Cutting.{lines_left};
ghost use Rattle.outer_io.specs.Faults.{HasCause};
ghost use Rattle.outer_io.specs.Lines.{Line, lines};
ghost use Rattle.outer_io.specs.Progress.{IsGoing, IsWithinLimit};
ghost use Rattle.outer_io.specs.Told.{Told};
ghost use Rattle.probe_core.specs.Blanks.{IsBlankOf};
ghost use Rattle.query_syntax.specs.Meaning.{asks_valid};
ghost use Rattle.session_core.specs.Answered.{AnswersScript, PutsAll, PutsFront, RefusesScript, basis};
ghost use Rattle.session_core.specs.Answering.{AnswersNext, AnswersPart, CountsFaults, NotesAnswer, NotesPart, OnTooMuch, OnWrite, PutsNothing, RefusesLeft};
ghost use Rattle.session_core.specs.Asked.{asks_reply, asks_to_end};
ghost use Rattle.session_core.specs.Scripts.{has_quit};
ghost use Rattle.session_core.specs.Serving.{ServesOver};
ghost use Rattle.session_core.specs.Turns.{Stops};

use crate::SessionFault;
use crate::asking::next_asked;
use crate::serving::{Served, serve};
use cube_view::CubeView;
use outer_io::{IoFault, LineCutter, Sink, Source};
use probe_core::Steps;
use query_syntax::Parsed;
use reply_json::no_memory_line;
use std::alloc::Global;
use std::marker::Brand;
use std::sync::ledger::{Blank, Ledger};
use texts::{List, NoMemory};

/// How the answers to a script ended: whether a reply found no memory and was the line that says so, and the fault that
/// ended them before the script's own end, if there was one.
#[derive(Clone, Copy, PartialEq, Eq, Debug)]
pub struct ScriptEnd {
    pub lacked: bool,
    pub end: Result<(), SessionFault>,
}

// The answer to what a line means, its steps counted in the ledger of the blank.
fn serve_in<V: CubeView, L: Ledger>(
    alloc: Global,
    view: &V,
    told: u64,
    parsed: &Parsed,
    blank: Blank,
    room: &mut List<u8>,
) -> Result<Served, NoMemory>
    requires blank { IsBlankOf L.name L.parts blank }
    requires valid { IsTrue (asks_valid (V.schema view.now) parsed.now) }
    ensures served { ServesOver (basis V.CubeView view.now told) parsed.now result }
    ensures no_memory { OnErr result (asks_reply parsed.now ≡ true) }
{
    let mut steps = Steps::<L>::new(blank);
    serve(alloc, view, told, parsed, &mut steps, room)
}

// Puts a line.
fn put_line<O: Sink>(line: &[u8], out: &mut O) -> Result<(), SessionFault>
    ensures put { OnOk result (Gains (O.held out.old) (O.held out.new) line.now) }
    ensures part { IsErrOf result SessionFault.Write → GainsPart (O.held out.old) (O.held out.new) line.now }
    ensures nothing { (fault : SessionFault) → result ≡ Err fault → fault ≢ SessionFault.Write → O.held out.new ≡ O.held out.old }
    ensures write { HasCause (O.faults out.old) (O.faults out.new) result SessionFault.Write }
    ensures others { (result ≢ Err SessionFault.Read) × (result ≢ Err SessionFault.TooMuch) }
    ensures name { O.name out.new ≡ O.name out.old }
{
    match out.put(line) {
        Ok(()) => Ok(()),
        Err(IoFault::Failed) => Err(SessionFault::Write),
        Err(IoFault::NoMemory) => Err(SessionFault::NoMemory),
    }
}

/// Puts the answer to what a line means, in one put, and says whether the script goes on. A reply that finds no memory
/// is the line that says so, which `lacked` notes. The memory of `room` is used from reply to reply.
fn put_answer<V: CubeView, O: Sink>(
    alloc: Global,
    view: &V,
    told: u64,
    parsed: &Parsed,
    lacked: &mut bool,
    room: &mut List<u8>,
    out: &mut O,
) -> Result<bool, SessionFault>
    requires { IsTrue (asks_valid (V.schema view.now) parsed.now) × (told ≤ V.seen view.now) }
    ensures goes_on { result ≡ Ok true → NotesAnswer O.held out.old out.new lacked.old lacked.new (basis V.CubeView view.now told) parsed.now }
    ensures stops { result ≡ Ok false → (asks_to_end parsed.now ≡ true) × PutsNothing O.held out.old out.new lacked.old lacked.new }
    ensures breaks_off { OnWrite result (NotesPart O.held out.old out.new lacked.old lacked.new (basis V.CubeView view.now told) parsed.now) }
    ensures nothing { (fault : SessionFault) → result ≡ Err fault → fault ≢ SessionFault.Write → PutsNothing O.held out.old out.new lacked.old lacked.new }
    ensures write { HasCause (O.faults out.old) (O.faults out.new) result SessionFault.Write }
    ensures others { (result ≢ Err SessionFault.Read) × (result ≢ Err SessionFault.TooMuch) }
    ensures name { O.name out.new ≡ O.name out.old }
{
    match serve_in::<V, Brand>(alloc, view, told, parsed, Blank::new(1), room) {
        Ok(Served::Skipped) => Ok(true),
        Ok(Served::Quit) => Ok(false),
        Ok(Served::Reply(line)) => {
            put_line(line.as_slice(), out)?;
            *room = line;
            Ok(true)
        }
        Err(NoMemory) => match out.put(no_memory_line().as_bytes()) {
            Ok(()) => {
                *lacked = true;
                Ok(true)
            }
            Err(IoFault::Failed) => {
                *lacked = true;
                Err(SessionFault::Write)
            }
            Err(IoFault::NoMemory) => Err(SessionFault::NoMemory),
        },
    }
}

/// Answers the next line, and says whether the script goes on.
fn answer_next<V: CubeView, S: Source, O: Sink>(
    alloc: Global,
    view: &V,
    told: u64,
    cutter: &mut LineCutter<S>,
    lacked: &mut bool,
    room: &mut List<u8>,
    out: &mut O,
) -> Result<bool, SessionFault>
    requires { IsGoing cutter.old × (told ≤ V.seen view.now) }
    ensures goes_on { result ≡ Ok true → AnswersNext O.held out.old out.new lacked.old lacked.new (basis V.CubeView view.now told) S.Source cutter.old cutter.new }
    ensures stops { result ≡ Ok false → Stops S.left S.faults (V.schema view.now) cutter.old cutter.new × PutsNothing O.held out.old out.new lacked.old lacked.new }
    ensures breaks_off { OnWrite result (AnswersPart O.held out.old out.new lacked.old lacked.new (basis V.CubeView view.now told) S.Source cutter.old cutter.new) }
    ensures nothing { (fault : SessionFault) → result ≡ Err fault → fault ≢ SessionFault.Write → PutsNothing O.held out.old out.new lacked.old lacked.new }
    ensures too_much { IsErrOf result SessionFault.TooMuch → IsTooMuch S.left cutter.old }
    ensures causes { CountsFaults S.faults O.faults cutter.old cutter.new out.old out.new result }
    ensures name { O.name out.new ≡ O.name out.old }
{
    let mut parsed = Parsed::Skip;
    if !next_asked(view.schema(), cutter, &mut parsed)? {
        return Ok(false);
    }
    put_answer(alloc, view, told, &parsed, lacked, room, out)
}

/// Answers the lines that are left, up to the first `quit`, over any list of points that the view counts; `told` is
/// the told length. A reply that finds no memory is the line that says so, and the answers go on; that one was is told
/// by `lacked`. Where the end is `Ok` all lines are answered, and so they are where too much is left: more than 2^30
/// bytes, and no `quit`. With any other fault a part of the replies, from the front, is put; with `NoMemory` a line,
/// its meaning or the sink found none.
pub fn answer_lines<V: CubeView, S: Source, O: Sink>(
    alloc: Global,
    view: &V,
    told: u64,
    cutter: &mut LineCutter<S>,
    out: &mut O,
) -> ScriptEnd
    requires { IsGoing cutter.old × (told ≤ V.seen view.now) }
    ensures all { OnOk result.end (Told (lines_left S.left cutter.old) (PutsAll (basis V.CubeView view.now told) result.lacked (O.held out.old) (O.held out.new))) }
    ensures ended { OnOk result.end (IsWithinLimit S.left cutter.old ⊎ Told (lines_left S.left cutter.old) (λ all. has_quit (V.schema view.now) all ≡ true)) }
    ensures part { Told (lines_left S.left cutter.old) (PutsFront (basis V.CubeView view.now told) result.lacked (O.held out.old) (O.held out.new)) }
    ensures too_much { OnTooMuch result.end (RefusesLeft (basis V.CubeView view.now told) result.lacked S.left cutter.old (O.held out.old) (O.held out.new)) }
    ensures read { HasCause (S.faults cutter.old.source) (S.faults cutter.new.source) result.end SessionFault.Read }
    ensures write { HasCause (O.faults out.old) (O.faults out.new) result.end SessionFault.Write }
    ensures name { O.name out.new ≡ O.name out.old }
{
    let mut lacked = false;
    let mut room = List::new(alloc);
    'turns: loop {
        match answer_next(alloc, view, told, cutter, &mut lacked, &mut room, out) {
            Ok(true) => {}
            Ok(false) => {
                return ScriptEnd {
                    lacked,
                    end: Ok(()),
                };
            }
            Err(fault) => {
                return ScriptEnd {
                    lacked,
                    end: Err(fault),
                };
            }
        }
    }
}

/// Answers a script, as [`answer_lines`] does. The source comes back with every answer.
pub fn answer_script<V: CubeView, S: Source, O: Sink>(
    alloc: Global,
    view: &V,
    told: u64,
    source: S,
    out: &mut O,
) -> (S, ScriptEnd)
    requires { told ≤ V.seen view.now }
    ensures all { OnOk result.1.end (AnswersScript (basis V.CubeView view.now told) result.1.lacked (S.left source) (O.held out.old) (O.held out.new)) }
    ensures part { Told (S.left source) (λ script. PutsFront (basis V.CubeView view.now told) result.1.lacked (O.held out.old) (O.held out.new) (lines script)) }
    ensures too_much { OnTooMuch result.1.end (RefusesScript (basis V.CubeView view.now told) result.1.lacked (S.left source) (O.held out.old) (O.held out.new)) }
    ensures read { HasCause (S.faults source) (S.faults result.0) result.1.end SessionFault.Read }
    ensures write { HasCause (O.faults out.old) (O.faults out.new) result.1.end SessionFault.Write }
    ensures name { O.name out.new ≡ O.name out.old }
{
    match LineCutter::new(alloc, source) {
        Ok(mut cutter) => {
            let answered = answer_lines(alloc, view, told, &mut cutter, out);
            (cutter.into_source(), answered)
        }
        Err(source) => {
            let none = ScriptEnd {
                lacked: false,
                end: Err(SessionFault::NoMemory),
            };
            (source, none)
        }
    }
}
