//! What is said of a verdict.
ghost use Rattle.run_files.specs.Outside.{of_sink};
ghost use Rattle.run_files.specs.Saying.{SaysText};
ghost use Rattle.recount.specs.VerdictLines.{verdict_line};

use crate::Verdict;
use crate::verdict_lines::verdict_line;
use outer_io::Sink;
use run_files::{Stop, put_text};
use std::alloc::Global;

/// Puts the line of the verdict in one put, and says how the audit ends where that fails.
pub(crate) fn say_verdict<O: Sink>(alloc: Global, verdict: Verdict, out: &mut O) -> Result<(), Stop>
    ensures { SaysText (of_sink O.Sink) out.old out.new (verdict_line verdict) result }
{
    let line = verdict_line(alloc, verdict)?;
    put_text(line.as_slice(), out)
}
