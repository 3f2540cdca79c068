//! What a run prints.
ghost use Rattle.std.specs.Prelude.{◌≡◌, ◌++◌, [], ◌∷◌, false, codes, length, IfOk, OnOk};
ghost use Rattle.run_files.specs.Lines.{counts_line};
ghost use Rattle.big_run.specs.Printed.{CameBackWhole, printed};

use crate::source::RunSource;
use crew_feeder::FeedDone;
use cube_crew::Crewed;
use feed_reader::FeedCounts;
use live_session::SessionDone;
use outer_io::StillSink;
use run_files::push_counts;
use std::alloc::{AllocError, Global};
use texts::{List, NoMemory};

/// The lines of the two feeds, and then the replies.
fn parts_text(
    alloc: Global,
    first: &FeedCounts,
    second: &FeedCounts,
    replies: &[u8],
) -> Result<Vec<u8>, AllocError>
    ensures { IfOk result (λ text. text.items ≡ counts_line (codes "gen1") first.now ++ counts_line (codes "gen2") second.now ++ replies.now) }
{
    let mut lines = String::new(alloc);
    push_counts(&mut lines, "gen1", first)?;
    push_counts(&mut lines, "gen2", second)?;
    let mut text = lines.into_bytes();
    text.extend_from_slice(replies)?;
    Ok(text)
}

/// What was counted of a feed, whose source is dropped.
fn counts_of(done: FeedDone<RunSource>) -> FeedCounts
    ensures { result ≡ done.counts }
{
    let FeedDone { source: _, counts } = done;
    counts
}

/// The sink of a session, all else of which is dropped.
fn sink_of(done: SessionDone<RunSource, StillSink>) -> StillSink
    ensures { result ≡ done.sink }
{
    let SessionDone {
        source: _,
        sink,
        replies: _,
        seen: _,
        mail: _,
        fault: _,
    } = done;
    sink
}

/// The two items of a list.
fn both_of<T>(items: List<T>) -> (T, T)
    requires { length items ≡ 2 }
    ensures { items ≡ result.0 ∷ result.1 ∷ [] }
{
    let mut items = items.into_vec();
    let Some(second) = items.pop() else {
        unreachable!()
    };
    let Some(first) = items.pop() else {
        unreachable!()
    };
    items.destroy_empty();
    (first, second)
}

/// The one item of a list.
fn only_of<T>(items: List<T>) -> T
    requires { length items ≡ 1 }
    ensures { items ≡ result ∷ [] }
{
    let mut items = items.into_vec();
    let Some(only) = items.pop() else {
        unreachable!()
    };
    items.destroy_empty();
    only
}

/// What is printed of a run in which memory was found throughout; the replies of the session beside the feeds are
/// dropped.
pub(crate) fn print_run(
    alloc: Global,
    crewed: Crewed<RunSource, StillSink>,
) -> Result<List<u8>, NoMemory>
    requires { CameBackWhole crewed }
    ensures printed { IfOk result (λ text. text ≡ printed crewed) }
    ensures found { OnOk result (crewed.starved ≡ false) }
{
    let Crewed {
        feeds,
        asks,
        finals,
        journal: _,
        drawn: _,
        mails: _,
        starved,
        closed: _,
    } = crewed;
    let (first, second) = both_of(feeds);
    let (first, second) = (counts_of(first), counts_of(second));
    let _unused = sink_of(only_of(asks));
    let sink = sink_of(only_of(finals));
    if starved {
        return Err(NoMemory);
    }
    let text = parts_text(alloc, &first, &second, sink.bytes())?;
    Ok(List::from_vec(text))
}
