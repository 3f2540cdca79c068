//! The top call.
ghost use Rattle.std.specs.Prelude.{◌≡◌, ◌↔◌, None, map, option_map, string_bytes};
ghost use Rattle.run_files.specs.Outside.{at, of_place, of_sink};
ghost use Rattle.share_replies.specs.Ends.{given_names};
ghost use Rattle.add_replies.specs.Statuses.{EndsInStatus, IfForm, share_names};

use crate::status::status_of;
use outer_io::{Place, Sink};
use share_replies::{ShareNames, Status, add_shares};
use std::alloc::Global;

/// The most shares.
const MOST_SHARES: usize = 1024;

/// The names of the plan, the script and the replies, where the words are `PLAN SCRIPT REPLIES REPLIES ..` with 1 to
/// 1,024 shares.
fn share_names(words: &[String]) -> Option<ShareNames<'_>>
    ensures { option_map given_names result ≡ share_names (map string_bytes words.now) }
{
    if words.len() < 3 || words.len() > MOST_SHARES + 2 {
        return None;
    }
    let (_, replies) = words.split_at(2);
    Some(ShareNames {
        plan: words[0].as_str(),
        script: words[1].as_str(),
        replies,
    })
}

/// Does what the words say, `PLAN SCRIPT REPLIES REPLIES ..` with 1 to 1,024 shares, and says how it ended. Where the
/// words are of no such form, nothing is read or written.
pub fn add_replies<P: Place, O: Sink>(
    alloc: Global,
    words: &[String],
    place: &mut P,
    out: &mut O,
) -> Status
    ensures ends { IfForm (map string_bytes words.now) (EndsInStatus (of_place P.Place) (of_sink O.Sink) (at place.old out.old) (at place.new out.new) result) }
    ensures usage { (result ≡ Status.Usage) ↔ (share_names (map string_bytes words.now) ≡ None) }
    ensures silent { result ≡ Status.Usage → (place.new ≡ place.old) × (out.new ≡ out.old) }
    ensures files { P.files place.new ≡ P.files place.old }
{
    match share_names(words) {
        Some(names) => status_of(add_shares(alloc, &names, place, out)),
        None => Status::Usage,
    }
}
