//! The feeds of a plan, read into a cube.
ghost use Rattle.std.specs.Prelude.{◌≡◌, ◌≤◌, All, length};
ghost use Rattle.run_files.specs.Outside.{of_place, of_source};
ghost use Rattle.save_run.specs.Taking.{IsUnread};
ghost use Rattle.save_run.specs.Reading.{taken_end, ReadsFeeds};

use crate::taking::cube_of_feeds;
use cube_store::Cube;
use cube_view::Schema;
use feed_reader::{FeedCounts, FeedJob};
use outer_io::{CutFault, Place};
use run_files::{Stop, give_back_feeds, stop_of_cut};
use std::alloc::Global;
use texts::List;

/// How a run ends by what reading its feeds answered, if that ends it.
fn taken_end(
    taken: Result<(Cube, List<FeedCounts>), CutFault>,
) -> Result<(Cube, List<FeedCounts>), Stop>
    ensures { result ≡ taken_end taken }
{
    match taken {
        Ok(taken) => Ok(taken),
        Err(fault) => Err(stop_of_cut(fault)),
    }
}

/// The cube of the points of the feeds, and what is counted of each one. The feeds are given back in every case.
pub(crate) fn read_feeds<P: Place>(
    alloc: Global,
    schema: &Schema,
    feeds: List<FeedJob<P::In>>,
    place: &mut P,
) -> Result<(Cube, List<FeedCounts>), Stop>
    requires few { length feeds ≤ 8 }
    requires unread { All (IsUnread P.In.left P.In.faults schema.now) feeds }
    ensures { ReadsFeeds (of_place P.Place) (of_source P.In.Source) schema.now place.old place.new feeds result }
{
    let mut feeds = feeds.into_vec();
    let taken = cube_of_feeds(alloc, schema, feeds.as_mut_slice());
    give_back_feeds(place, feeds);
    taken_end(taken)
}
