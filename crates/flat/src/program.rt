//! The top call.
ghost use Rattle.std.specs.Prelude.{◌≡◌, ◌↔◌, None, map, option_map, string_bytes};
ghost use Rattle.flat.specs.Statuses.{EndsByWords, word_names};
ghost use Rattle.flat_run.specs.Names.{flat_names};
ghost use Rattle.run_files.specs.Outside.{at, of_place, of_sink};

use crate::status::Status;
use flat_run::{FlatNames, flat_files};
use outer_io::{Place, Sink};
use std::alloc::Global;
use std::thread::Threads;

/// The names of the plan and the script, where the words are `PLAN SCRIPT`.
fn word_names(words: &[String]) -> Option<FlatNames<'_>>
    ensures { option_map flat_names result ≡ word_names (map string_bytes words.now) }
{
    if words.len() != 2 {
        return None;
    }
    Some(FlatNames {
        plan: words[0].as_str(),
        script: words[1].as_str(),
    })
}

/// Does what the words say, `PLAN SCRIPT`, and says how it ended. Where the words are of no such form, nothing is read
/// or written.
pub fn flat<R: Threads, P: Place, O: Sink>(
    rt: &R,
    alloc: Global,
    words: &[String],
    place: &mut P,
    out: &mut O,
) -> Status
    ensures ends { EndsByWords (of_place P.Place) (of_sink O.Sink) (at place.old out.old) (at place.new out.new) (map string_bytes words.now) result }
    ensures usage { (result ≡ Status.Usage) ↔ (word_names (map string_bytes words.now) ≡ None) }
    ensures silent { result ≡ Status.Usage → (place.new ≡ place.old) × (out.new ≡ out.old) }
{
    match word_names(words) {
        Some(names) => Status::of_end(flat_files(rt, alloc, &names, place, out)),
        None => Status::Usage,
    }
}
