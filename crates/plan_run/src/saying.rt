//! The report of a run, put.
ghost use Rattle.run_files.specs.Outside.{of_sink};
ghost use Rattle.run_files.specs.Reports.{counts_text};
ghost use Rattle.run_files.specs.Saying.{SaysText};

use cube_schema::Plan;
use feed_reader::FeedCounts;
use outer_io::Sink;
use run_files::{ScriptCounts, Stop, put_text, report};
use std::alloc::Global;

/// Puts the report in one put, and says how the run ends by that.
pub(crate) fn put_report<O: Sink>(
    alloc: Global,
    plan: &Plan,
    feeds: &[FeedCounts],
    asks: &[ScriptCounts],
    finals: &[ScriptCounts],
    closed: bool,
    count: u64,
    out: &mut O,
) -> Result<(), Stop>
    ensures { SaysText (of_sink O.Sink) out.old out.new (counts_text plan.now feeds.now asks.now finals.now closed count) result }
{
    let text = report(alloc, plan, feeds, asks, finals, closed, count)?;
    put_text(text.as_slice(), out)
}
