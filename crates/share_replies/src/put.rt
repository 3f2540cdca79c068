//! The lines of sums, put.
ghost use Rattle.std.specs.Prelude.{◌≡◌, List, IfOk, OnOk, IsTrue};
ghost use Rattle.cube_view.specs.declared.schema.Schema.{Schema};
ghost use Rattle.query_syntax.specs.declared.query.Parsed.{Parsed};
ghost use Rattle.reply_json.specs.Types.{ReplyFits};
ghost use Rattle.reply_json.specs.Validity.{is_valid_reply};
ghost use Rattle.reply_sums.specs.Additive.{adds_up};
ghost use Rattle.session_core.specs.Asked.{reply_line};
ghost use Rattle.run_files.specs.Outside.{of_sink};
ghost use Rattle.run_files.specs.Saying.{SaysText};
ghost use Rattle.share_replies.specs.Refusals.{total_of_sum, totals_of};
ghost use Rattle.share_replies.specs.Shares.{Share};
ghost use Rattle.share_replies.specs.Sums.{IsSumOver, SumsOver};
ghost use Rattle.share_replies.specs.Texts.{IsLineOver, PutsSumLine, PutsSums, PutsTotals, not_additive_line, total_line};

use crate::summed::Summed;
use outer_io::Sink;
use reply_json::{Reply, print_reply};
use run_files::{Stop, put_text};
use std::alloc::Global;
use texts::{List, NoMemory};

/// The line that answers what was asked where its replies do not add up.
const NOT_ADDITIVE_LINE: &str = "{\"fault\":\"NotAdditive\"}\n";

fn not_additive_line() -> &'static str
    ensures { result.now ≡ not_additive_line }
{
    NOT_ADDITIVE_LINE
}

// The line of a reply, with its line feed.
#[tactic(auto, unfolding(session_core::specs::Asked::reply_line))]
fn reply_line(alloc: Global, reply: &Reply) -> Result<List<u8>, NoMemory>
    requires { IsTrue (is_valid_reply reply.now) }
    ensures line { IfOk result (λ line. line ≡ reply_line reply.now) }
    ensures fits { OnOk result (ReplyFits reply.now) }
{
    let mut line = print_reply(alloc, reply)?;
    line.add(b'\n')?;
    Ok(line)
}

/// Puts the line of a sum: that of its reply, or the one that says that replies do not add up.
pub fn put_sum<O: Sink>(alloc: Global, sum: &Option<Summed>, out: &mut O) -> Result<(), Stop>
    ensures law { (z : Schema) (s : Share) (p : Parsed) → IsSumOver z s p sum.now → OnOk result (PutsSumLine z s p (O.held out.old) (O.held out.new)) }
    ensures puts { SaysText (of_sink O.Sink) out.old out.new (total_line (total_of_sum sum.now)) result }
{
    let Some(sum) = sum else {
        return put_text(not_additive_line().as_bytes(), out);
    };
    match reply_line(alloc, &sum.reply) {
        Ok(line) => put_text(line.as_slice(), out),
        Err(NoMemory) => Err(Stop::NoMemory),
    }
}

/// Puts the lines of the sums, one after another.
///
/// Where they are the sums over some points, what is put is the final transcript over them, but for the lines of what
/// does not add up. Where memory runs out, the first of the lines were put, each whole.
pub fn put_sums<O: Sink>(alloc: Global, sums: &[Option<Summed>], out: &mut O) -> Result<(), Stop>
    ensures law { (z : Schema) (s : Share) (ps : List Parsed) → SumsOver z s ps sums.now → OnOk result (PutsSums z s ps (O.held out.old) (O.held out.new)) }
    ensures puts { PutsTotals (of_sink O.Sink) out.old out.new (totals_of sums.now) result }
{
    for i in 0..sums.len() {
        put_sum(alloc, &sums[i], out)?;
    }
    Ok(())
}
