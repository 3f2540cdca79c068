//! What is said of a saved image.
ghost use Rattle.std.specs.Prelude.{◌≡◌, ◌++◌, string_bytes, IfOk, OnOk};
ghost use Rattle.run_files.specs.Outside.{of_sink};
ghost use Rattle.run_files.specs.Saying.{SaysText};
ghost use Rattle.save_run.specs.Lines.{saved_text, size_line};

use cube_schema::Plan;
use feed_reader::FeedCounts;
use outer_io::Sink;
use run_files::{Stop, feeds_report, put_text};
use std::alloc::{AllocError, Global};

/// Appends the line of an image's length.
#[tactic(auto, unfolding(crate::specs::Lines::size_line))]
fn push_size(text: &mut String, size: usize) -> Result<(), AllocError>
    ensures { OnOk result (string_bytes text.new ≡ string_bytes text.old ++ size_line size) }
{
    write!(text, "image: {size} bytes\n")
}

fn saved_text(
    alloc: Global,
    plan: &Plan,
    counts: &[FeedCounts],
    size: usize,
) -> Result<String, AllocError>
    ensures { IfOk result (λ text. string_bytes text ≡ saved_text plan.now counts.now size) }
{
    let mut text = feeds_report(alloc, &plan.schema, plan.feeds.as_slice(), counts)?;
    push_size(&mut text, size)?;
    Ok(text)
}

/// Puts what was counted of the feeds and the image's length in one put, and says how the run ends by that.
pub(crate) fn say_saved<O: Sink>(
    alloc: Global,
    plan: &Plan,
    counts: &[FeedCounts],
    size: usize,
    out: &mut O,
) -> Result<(), Stop>
    ensures { SaysText (of_sink O.Sink) out.old out.new (saved_text plan.now counts.now size) result }
{
    let Ok(text) = saved_text(alloc, plan, counts, size) else {
        return Err(Stop::NoMemory);
    };
    put_text(text.as_bytes(), out)
}
