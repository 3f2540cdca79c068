//! The replies of one share, added.
ghost use Rattle.std.specs.Prelude.{◌≡◌, ◌+◌, ◌<◌, ◌^◌, ℕ, All, Err, IfOk, length};
ghost use Rattle.cube_view.specs.declared.schema.Schema.{Schema};
ghost use Rattle.reply_sums.specs.Sums.{AsksShallow};
ghost use Rattle.share_replies.specs.Refusals.{IsRight, IsWrongAt, totals_of};
ghost use Rattle.share_replies.specs.Sums.{AddsShare, IsInnocentLine, IsInnocentText};
ghost use Rattle.share_replies.specs.declared.fault.WrongReply.{WrongReply};

use crate::fault::{LineFault, TextFault, WrongReply};
use crate::line::{Added, add_next};
use crate::summed::Summed;
use query_syntax::Parsed;
use std::alloc::Global;
use texts::List;

/// The fault of the line after so many.
fn fault_after(fault: LineFault, lines: usize) -> TextFault
    requires { lines < 2 ^ 63 }
    ensures innocent { IsInnocentLine fault → IsInnocentText result }
    ensures at { (line : ℕ) (w : WrongReply) → result ≡ TextFault.At line w → (line ≡ lines + 1) × (fault ≡ LineFault.Wrong w) }
{
    match fault {
        LineFault::NoMemory => TextFault::NoMemory,
        LineFault::Wrong(why) => TextFault::At(lines as u64 + 1, why),
    }
}

/// The sums with the replies of a text, one line for each that was asked.
///
/// Where the sums are over some points, and the text is the final transcript over others, the answer is the sums over
/// both, and no line is refused, unless a sum is too great. A refusal names the first line that is wrong.
pub fn add_text(
    alloc: Global,
    asked: &[Parsed],
    sums: &[Option<Summed>],
    text: &[u8],
) -> Result<List<Option<Summed>>, TextFault>
    requires size { length sums.now ≡ length asked.now }
    requires shallow { All AsksShallow asked.now }
    ensures law { (schema : Schema) → AddsShare schema asked.now sums.now text.now result }
    ensures right { IfOk result (λ next. IsRight asked.now (totals_of sums.now) text.now (totals_of next)) }
    ensures wrong { (line : ℕ) (w : WrongReply) → result ≡ Err (TextFault.At line w) → IsWrongAt asked.now (totals_of sums.now) text.now line w }
    ensures size { IfOk result (λ next. length next ≡ length asked.now) }
{
    let mut next = List::new(alloc);
    let mut rest = text;
    for i in 0..asked.len() {
        match add_next(alloc, &asked[i], &sums[i], rest) {
            Ok(Added { sum, rest: more }) => {
                next.add(sum)?;
                rest = more;
            }
            Err(fault) => return Err(fault_after(fault, i)),
        }
    }
    if rest.is_empty() {
        Ok(next)
    } else {
        Err(fault_after(LineFault::Wrong(WrongReply::TooMany), asked.len()))
    }
}
