//! The top call.
ghost use Rattle.std.specs.Prelude.{◌≡◌, ◌↔◌, false, IfOk, length, map, string_bytes};
ghost use Rattle.add_live.specs.Statuses.{has_form};

use crate::status::live_status;
use live_sums::{LiveNames, RunNames, add_live_runs};
use outer_io::{Place, Sink};
use run_files::Stop;
use share_replies::Status;
use std::alloc::Global;
use texts::{List, NoMemory};

/// The most runs.
const MOST_RUNS: usize = 500;

/// Whether the words are `PLAN QUESTIONS ASK REPLIES ASK REPLIES ..` with 1 to 500 runs.
fn is_form(words: &[String]) -> bool
    ensures { result ≡ has_form (length words.now) }
{
    words.len() >= 4 && words.len() <= 2 * MOST_RUNS + 2 && words.len() % 2 == 0
}

/// The names of the runs, of which the words are the ask and the replies of each.
fn run_names(alloc: Global, words: &[String]) -> Result<List<RunNames<'_>>, NoMemory> {
    let mut runs = List::new(alloc);
    for i in 0..words.len() / 2 {
        runs.add(RunNames {
            ask: words[2 * i].as_str(),
            replies: words[2 * i + 1].as_str(),
        })?;
    }
    Ok(runs)
}

/// Does what the words say, `PLAN QUESTIONS ASK REPLIES ASK REPLIES ..` with 1 to 500 runs, and says how it ended.
/// Where the words are of no such form, nothing is read or written.
pub fn add_live<P: Place, O: Sink>(
    alloc: Global,
    words: &[String],
    place: &mut P,
    out: &mut O,
) -> Status
    ensures usage { (result ≡ Status.Usage) ↔ (has_form (length words.now) ≡ false) }
    ensures silent { result ≡ Status.Usage → (place.new ≡ place.old) × (out.new ≡ out.old) }
{
    if !is_form(words) {
        return Status::Usage;
    }
    let (_, others) = words.split_at(2);
    let Ok(runs) = run_names(alloc, others) else {
        return Status::Stopped(Stop::NoMemory);
    };
    let names = LiveNames {
        plan: words[0].as_str(),
        questions: words[1].as_str(),
        runs: runs.as_slice(),
    };
    live_status(add_live_runs(alloc, &names, place, out))
}
