//! Feeds read into a cube.
ghost use Rattle.std.specs.Prelude.{◌≡◌, ◌+◌, ◌≤◌, All, IfOk, IsErrOf, OnOk, length};
ghost use Rattle.cube_view.specs.Bag.{most_points};
ghost use Rattle.outer_io.specs.Faults.{HasCause};
ghost use Rattle.outer_io.specs.Lines.{input_limit};
ghost use Rattle.outer_io.specs.Progress.{IsTooLarge};
ghost use Rattle.save_run.specs.Counting.{JoinsFeed};
ghost use Rattle.save_run.specs.Grouping.{grouped_size};
ghost use Rattle.save_run.specs.Taking.{IsUnread, TakesFeeds};

use crate::grouped_cube::GroupedCube;
use crate::tally::{Tally, take_row};
use cube_store::Cube;
use cube_view::Schema;
use feed_reader::{FeedCounts, FeedJob, next_row};
use outer_io::{CutFault, Source};
use std::alloc::Global;
use texts::List;

/// Reads the rows of all lines that the feed has left, takes the points among them behind the others, and counts the
/// rows.
fn take_feed<S: Source>(
    alloc: Global,
    schema: &Schema,
    feed: &mut FeedJob<S>,
    grouped: &mut GroupedCube,
) -> Result<FeedCounts, CutFault>
    requires unread { IsUnread S.left S.faults schema.now feed.old }
    requires schema { grouped.old.cube.schema ≡ schema.now }
    requires room { grouped_size grouped.old + input_limit ≤ most_points }
    ensures taken { IfOk result (JoinsFeed S.left S.faults feed.old grouped.old grouped.new) }
    ensures schema { grouped.new.cube.schema ≡ grouped.old.cube.schema }
    ensures size { OnOk result (grouped_size grouped.new ≤ grouped_size grouped.old + input_limit) }
    ensures too_much { IsErrOf result CutFault.TooMuch → IsTooLarge S.left feed.old.cutter }
    ensures cause { HasCause (S.faults feed.old.cutter.source) (S.faults feed.new.cutter.source) result CutFault.Read }
{
    let Ok(mut tally) = Tally::new(alloc) else {
        return Err(CutFault::NoMemory);
    };
    while let Some((row, line)) = next_row(alloc, schema, &feed.header, &mut feed.cutter)? {
        let Ok(()) = take_row(grouped, &mut tally, row, line) else {
            return Err(CutFault::NoMemory);
        };
    }
    Ok(tally.into_counts())
}

/// The cube of the points of the feeds, in order, and what is counted of each feed. Points go in groups of as many as
/// the schema's batch, over the borders of feeds. The first fault ends the reading.
pub(crate) fn cube_of_feeds<S: Source>(
    alloc: Global,
    schema: &Schema,
    feeds: &mut [FeedJob<S>],
) -> Result<(Cube, List<FeedCounts>), CutFault>
    requires few { length feeds.old ≤ 8 }
    requires unread { All (IsUnread S.left S.faults schema.now) feeds.old }
    ensures { TakesFeeds S.left S.faults schema.now feeds.old feeds.new result }
{
    let Ok(mut grouped) = GroupedCube::new(alloc, schema) else {
        return Err(CutFault::NoMemory);
    };
    let mut counts = List::new(alloc);
    for feed in feeds.iter_mut() {
        let of_feed = take_feed(alloc, schema, feed, &mut grouped)?;
        let Ok(()) = counts.add(of_feed) else {
            return Err(CutFault::NoMemory);
        };
    }
    let Ok(cube) = grouped.into_cube() else {
        return Err(CutFault::NoMemory);
    };
    Ok((cube, counts))
}
