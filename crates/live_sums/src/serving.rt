//! Questions answered to their end.
ghost use Rattle.std.specs.Prelude.{◌≡◌, ◌<◌, ◌≤◌, ◌-◌, ◌^◌, ℕ, Err, OnErr, length};
ghost use Rattle.live_sums.specs.Sessions.{EndsLine, ServesAll, is_last, sums_in};
ghost use Rattle.live_sums.specs.Turns.{stage, live_seen};
ghost use Rattle.live_sums.specs.declared.fault.WrongShare.{WrongShare};

use crate::fault::TurnFault;
use crate::question::{Next, next_question};
use crate::replies::Replies;
use crate::turn::answer_question;
use cube_view::Schema;
use outer_io::{LineCutter, Sink, Source};
use std::alloc::Global;

/// How the answers to questions ended: how many sums were put, and why no more.
#[derive(Clone, Copy, PartialEq, Eq, Debug)]
pub(crate) struct Served {
    pub sums: u64,
    pub end: Result<(), TurnFault>,
}

/// What a line was: nothing that is asked, a question that was answered, or the end of all.
#[derive(Clone, Copy, PartialEq, Eq, Debug)]
pub(crate) enum Went {
    Passed,
    Answered,
    Ended,
}

/// Whether no line comes after it.
fn is_last(went: Went) -> bool
    ensures { result ≡ is_last went }
{
    match went {
        Went::Passed | Went::Answered => false,
        Went::Ended => true,
    }
}

/// How many sums were put.
fn sums_in(went: Went) -> u64
    ensures sums { result ≡ sums_in went }
    ensures few { result ≤ 1 }
{
    match went {
        Went::Passed | Went::Ended => 0,
        Went::Answered => 1,
    }
}

/// Answers the next line.
fn serve_line<A: Sink, S: Source, O: Sink>(
    alloc: Global,
    schema: &Schema,
    lines: &mut LineCutter<S>,
    asks: &mut [A],
    runs: &mut [Replies<S>],
    out: &mut O,
) -> Result<Went, TurnFault>
    requires { length asks.old ≡ length runs.old }
    ensures ends { EndsLine (live_seen A.Sink S.Source O.Sink) schema.now (stage asks.old runs.old out.old) (stage asks.new runs.new out.new) result }
    ensures size { (length asks.new ≡ length asks.old) × (length runs.new ≡ length runs.old) }
{
    match next_question(alloc, schema, lines)? {
        Next::Nothing => Ok(Went::Passed),
        Next::Asks(question) => {
            answer_question(alloc, schema, &question, asks, runs, out)?;
            Ok(Went::Answered)
        }
        Next::End => Ok(Went::Ended),
    }
}

/// Answers the questions up to the first `quit`.
pub(crate) fn serve<A: Sink, S: Source, O: Sink>(
    alloc: Global,
    schema: &Schema,
    lines: &mut LineCutter<S>,
    asks: &mut [A],
    runs: &mut [Replies<S>],
    out: &mut O,
) -> Served
    requires each { length asks.old ≡ length runs.old }
    ensures serves { ServesAll (live_seen A.Sink S.Source O.Sink) schema.now (stage asks.old runs.old out.old) (stage asks.new runs.new out.new) result }
    ensures place { (k : ℕ) (w : WrongShare) → result.end ≡ Err (TurnFault.Wrong k w) → k < length runs.old }
    ensures few { OnErr result.end (result.sums < 2 ^ 64 - 1) }
{
    let mut sums: u64 = 0;
    'turns: for turn in 0..u64::MAX {
        let went = match serve_line(alloc, schema, lines, asks, runs, out) {
            Ok(went) => went,
            Err(fault) => {
                return Served {
                    sums,
                    end: Err(fault),
                };
            }
        };
        if is_last(went) {
            return Served { sums, end: Ok(()) };
        }
        sums += sums_in(went);
    }
    Served { sums, end: Ok(()) }
}
