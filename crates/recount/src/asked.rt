//! What a script asks.
ghost use Rattle.std.specs.Prelude.{◌≡◌, ◌≢◌, ◌≤◌, [], ◌∷◌, ◌++◌, if◌then◌else◌, All, Err, IsTrue, IfOk, OnOk, IsErrOf, length};
ghost use Rattle.outer_io.specs.Cutting.{lines_left};
ghost use Rattle.outer_io.specs.Faults.{Rose};
ghost use Rattle.outer_io.specs.Lines.{lines, input_limit};
ghost use Rattle.outer_io.specs.Progress.{IsGoing, IsTooLarge};
ghost use Rattle.outer_io.specs.Told.{Told};
ghost use Rattle.query_syntax.specs.Meaning.{asks_valid};
ghost use Rattle.session_core.specs.Asked.{asked, asks_reply, asks_to_end};

use cube_view::Schema;
use outer_io::{LineCutter, Source, StillSource};
use query_syntax::{Parsed, Verb};
use session_core::{SessionFault, next_asked};
use std::alloc::Global;
use texts::{List, NoMemory};

/// How many bytes of a script are cut at once.
const PIECE: usize = 4096;

/// Whether the line asks to end the session.
fn is_end(parsed: &Parsed) -> bool
    ensures { result ≡ asks_to_end parsed.now }
{
    match parsed {
        Parsed::Ask(query) => query.verb == Verb::Quit,
        Parsed::Skip | Parsed::Fault(..) => false,
    }
}

/// Whether the line asks for a reply.
fn asks_reply(parsed: &Parsed) -> bool
    ensures { result ≡ asks_reply parsed.now }
{
    match parsed {
        Parsed::Skip => false,
        Parsed::Ask(query) => query.verb != Verb::Quit,
        Parsed::Fault(..) => true,
    }
}

/// Adds the item at the end, if it is wanted.
fn add_if<T: Drop>(items: &mut List<T>, is_wanted: bool, item: T) -> Result<(), NoMemory>
    ensures { OnOk result (items.new ≡ (if is_wanted then items.old ++ item ∷ [] else items.old)) }
{
    if !is_wanted {
        return Ok(());
    }
    items.add(item)
}

/// What the lines that are left ask, up to the first `quit`.
fn asked_of_lines<S: Source>(
    alloc: Global,
    schema: &Schema,
    cutter: &mut LineCutter<S>,
) -> Result<List<Parsed>, SessionFault>
    requires { IsGoing cutter.old }
    ensures asked { IfOk result (λ ps. Told (lines_left S.left cutter.old) (λ all. ps ≡ asked schema.now all)) }
    ensures valid { IfOk result (λ ps. All (λ p. IsTrue (asks_valid schema.now p)) ps) }
    ensures too_much { IsErrOf result SessionFault.TooMuch → IsTooLarge S.left cutter.old }
    ensures read { IsErrOf result SessionFault.Read → Rose (S.faults cutter.old.source) (S.faults cutter.new.source) }
    ensures no_write { result ≢ Err SessionFault.Write }
{
    let mut asked = List::new(alloc);
    'lines: loop {
        let mut parsed = Parsed::Skip;
        if !next_asked(schema, cutter, &mut parsed)? {
            return Ok(asked);
        }
        if is_end(&parsed) {
            return Ok(asked);
        }
        let is_wanted = asks_reply(&parsed);
        match add_if(&mut asked, is_wanted, parsed) {
            Ok(()) => {}
            Err(NoMemory) => return Err(SessionFault::NoMemory),
        }
    }
}

/// What a script asks, up to the first `quit`.
pub fn asked_of(alloc: Global, schema: &Schema, script: &[u8]) -> Result<List<Parsed>, NoMemory>
    requires { length script.now ≤ input_limit }
    ensures asked { IfOk result (λ ps. ps ≡ asked schema.now (lines script.now)) }
    ensures valid { IfOk result (λ ps. All (λ p. IsTrue (asks_valid schema.now p)) ps) }
{
    let bytes = Vec::from_slice(alloc, script)?;
    let source = StillSource::new(List::from_vec(bytes), PIECE);
    let Ok(mut cutter) = LineCutter::new(alloc, source) else {
        return Err(NoMemory);
    };
    let asked = asked_of_lines(alloc, schema, &mut cutter);
    let _ = cutter.into_source();
    match asked {
        Ok(asked) => Ok(asked),
        Err(SessionFault::NoMemory) => Err(NoMemory),
        Err(SessionFault::Read | SessionFault::Write | SessionFault::TooMuch) => unreachable!(),
    }
}
