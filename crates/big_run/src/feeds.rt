//! The feeds of a run, each with its header read.
ghost use Rattle.std.specs.Prelude.{◌≡◌, ◌+◌, ◌<◌, ◌≤◌, [], ◌∷◌, ◌++◌, IfOk, OnOk, vec_len, vec_capacity};
ghost use Rattle.big_run.specs.BuiltIn.{big_schema};
ghost use Rattle.big_run.specs.Parts.{AddsFeed, AreFeeds, IsFeed};

use crate::source::RunSource;
use cube_view::Schema;
use feed_maker::GenSource;
use feed_reader::{FeedJob, NoHeader, read_header};
use outer_io::LineCutter;
use std::alloc::Global;
use texts::{List, NoMemory};

/// The job of the generated feed of so many rows from a state.
fn feed_of(
    alloc: Global,
    schema: &Schema,
    state: u64,
    rows: u32,
) -> Result<FeedJob<RunSource>, NoMemory>
    requires schema { schema.now ≡ big_schema }
    requires rows { rows ≤ 100000 }
    ensures { IfOk result (IsFeed state rows) }
{
    let source = RunSource::Made(GenSource::new(state, rows));
    let Ok(mut cutter) = LineCutter::new(alloc, source) else {
        return Err(NoMemory);
    };
    match read_header(alloc, schema, &mut cutter) {
        Ok(header) => Ok(FeedJob { cutter, header }),
        Err(NoHeader::NoMemory) => {
            let _source = cutter.into_source();
            Err(NoMemory)
        }
        Err(NoHeader::Refused(_)) => unreachable!(),
        Err(NoHeader::Read) => unreachable!(),
    }
}

/// Adds that job to a list that has room for it.
fn add_feed(
    alloc: Global,
    schema: &Schema,
    state: u64,
    rows: u32,
    feeds: &mut Vec<FeedJob<RunSource>>,
) -> Result<(), NoMemory>
    requires schema { schema.now ≡ big_schema }
    requires rows { rows ≤ 100000 }
    requires room { vec_len feeds.old < vec_capacity feeds.old }
    ensures added { OnOk result (AddsFeed state rows feeds.old.items feeds.new.items) }
    ensures room { OnOk result ((vec_len feeds.new ≡ vec_len feeds.old + 1) × (vec_capacity feeds.new ≡ vec_capacity feeds.old)) }
{
    let feed = feed_of(alloc, schema, state, rows)?;
    feeds.push_reserved(feed);
    Ok(())
}

/// Adds the jobs of the states 1 and 2.
fn add_both(
    alloc: Global,
    schema: &Schema,
    rows: u32,
    feeds: &mut Vec<FeedJob<RunSource>>,
) -> Result<(), NoMemory>
    requires schema { schema.now ≡ big_schema }
    requires rows { rows ≤ 100000 }
    requires room { (feeds.old.items ≡ []) × (vec_len feeds.old ≡ 0) × (2 ≤ vec_capacity feeds.old) }
    ensures { OnOk result (AreFeeds rows feeds.new.items) }
{
    add_feed(alloc, schema, 1, rows, feeds)?;
    add_feed(alloc, schema, 2, rows, feeds)
}

/// Takes the jobs apart.
pub(crate) fn let_go_feeds(mut feeds: Vec<FeedJob<RunSource>>) {
    let Some(feed) = feeds.pop() else {
        feeds.destroy_empty();
        return;
    };
    let FeedJob { cutter, header: _ } = feed;
    let _source = cutter.into_source();
    let_go_feeds(feeds)
}

/// The jobs of the feeds of so many rows.
pub(crate) fn feeds_of(
    alloc: Global,
    schema: &Schema,
    rows: u32,
) -> Result<List<FeedJob<RunSource>>, NoMemory>
    requires schema { schema.now ≡ big_schema }
    requires rows { rows ≤ 100000 }
    ensures { IfOk result (AreFeeds rows) }
{
    let mut feeds = Vec::with_capacity(alloc, 2)?;
    match add_both(alloc, schema, rows, &mut feeds) {
        Ok(()) => Ok(List::from_vec(feeds)),
        Err(NoMemory) => {
            let_go_feeds(feeds);
            Err(NoMemory)
        }
    }
}
