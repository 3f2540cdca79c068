//! A question answered.
ghost use Rattle.std.specs.Prelude.{◌≡◌, ℕ, Err, IfOk, IsTrue, length};
ghost use Rattle.query_syntax.specs.Meaning.{asks_valid};
ghost use Rattle.live_sums.specs.Turns.{EndsTurn, RefusesRun, SumsRuns, stage, live_seen};
ghost use Rattle.live_sums.specs.declared.fault.WrongShare.{WrongShare};

use crate::asking::ask_all;
use crate::fault::{TurnFault, fault_of_share};
use crate::question::Question;
use crate::replies::Replies;
use cube_view::Schema;
use outer_io::{Sink, Source};
use query_syntax::Parsed;
use share_replies::{Summed, first_sum, put_sum};
use std::alloc::Global;

/// The sum of the next reply of each run, which answer what was asked.
fn sum_of_runs<S: Source>(
    alloc: Global,
    schema: &Schema,
    asked: &Parsed,
    runs: &mut [Replies<S>],
) -> Result<Option<Summed>, TurnFault>
    requires { IsTrue (asks_valid schema.now asked.now) }
    ensures sums { IfOk result (SumsRuns S.left schema.now asked.now runs.old runs.new) }
    ensures wrong { (k : ℕ) (w : WrongShare) → result ≡ Err (TurnFault.Wrong k w) → RefusesRun S.left schema.now asked.now runs.old runs.new k w }
    ensures size { length runs.new ≡ length runs.old }
{
    let mut sum = first_sum(alloc, schema, asked)?;
    for (i, run) in runs.iter_mut().enumerate() {
        match run.add_next(alloc, asked, &sum) {
            Ok(next) => sum = next,
            Err(fault) => return Err(fault_of_share(fault, i)),
        }
    }
    Ok(sum)
}

/// Sends a question to all runs, and then puts the sum of their replies.
pub(crate) fn answer_question<A: Sink, S: Source, O: Sink>(
    alloc: Global,
    schema: &Schema,
    question: &Question,
    asks: &mut [A],
    runs: &mut [Replies<S>],
    out: &mut O,
) -> Result<(), TurnFault>
    requires valid { IsTrue (asks_valid schema.now question.now.asked) }
    requires each { length asks.old ≡ length runs.old }
    ensures ends { EndsTurn (live_seen A.Sink S.Source O.Sink) schema.now question.now (stage asks.old runs.old out.old) (stage asks.new runs.new out.new) result }
    ensures size { (length asks.new ≡ length asks.old) × (length runs.new ≡ length runs.old) }
{
    ask_all(asks, question.line.as_slice())?;
    let sum = sum_of_runs(alloc, schema, &question.asked, runs)?;
    put_sum(alloc, &sum, out)?;
    Ok(())
}
