//! What the next line of a script asks.
ghost use Rattle.std.specs.Prelude.{◌≡◌, ◌≢◌, if◌then◌else◌, [], ◌∷◌, true, false, Some, None, Ok, Err, IsTrue, IfOk, IsErrOf};
ghost use Rattle.outer_io.specs.Cuts.{IsTooMuch};
ghost use Rattle.outer_io.specs.Faults.{HasCause};
ghost use Rattle.outer_io.specs.Lines.{Line};
ghost use Rattle.outer_io.specs.Progress.{IsGoing};
ghost use Rattle.query_syntax.specs.Meaning.{asks_valid};
ghost use Rattle.session_core.specs.Turns.{AsksNext};

use crate::SessionFault;
use cube_view::Schema;
use outer_io::{Cut, CutFault, LineCutter, Source};
use query_syntax::{Parsed, QueryFault, parse_into};

/// Puts what the next line means into `parsed`, and says whether there was one: `false` is the end of the script. After
/// any fault but want of memory the cutter gives no further line.
pub fn next_asked<S: Source>(
    schema: &Schema,
    cutter: &mut LineCutter<S>,
    parsed: &mut Parsed,
) -> Result<bool, SessionFault>
    requires { IsGoing cutter.old }
    ensures asked { IfOk result (λ more. AsksNext S.left S.faults schema.now cutter.old cutter.new (if more then Some parsed.new else None)) }
    ensures end { result ≡ Ok false → cutter.new.given ≡ cutter.old.given }
    ensures valid { result ≡ Ok true → IsTrue (asks_valid schema.now parsed.new) }
    ensures too_much { IsErrOf result SessionFault.TooMuch → IsTooMuch S.left cutter.old }
    ensures read { HasCause (S.faults cutter.old.source) (S.faults cutter.new.source) result SessionFault.Read }
    ensures no_write { result ≢ Err SessionFault.Write }
{
    match cutter.next() {
        Ok(Cut::Line(line, _)) => {
            parse_into(schema, line.as_slice(), parsed);
            Ok(true)
        }
        Ok(Cut::Long(_)) => {
            *parsed = Parsed::Fault(QueryFault::LongLine, 1);
            Ok(true)
        }
        Ok(Cut::End) => Ok(false),
        Err(CutFault::Read) => Err(SessionFault::Read),
        Err(CutFault::TooMuch) => Err(SessionFault::TooMuch),
        Err(CutFault::NoMemory) => Err(SessionFault::NoMemory),
    }
}
