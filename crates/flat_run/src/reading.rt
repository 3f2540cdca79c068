//! The points of feeds.
ghost use Rattle.std.specs.Prelude.{◌≡◌, ◌≤◌, ◌+◌, [], ◌∷◌, ◌++◌, All, IsErrOf, OnOk, length};
ghost use Rattle.feed_reader.specs.Feeds.{points_in};
ghost use Rattle.outer_io.specs.Faults.{HasCause};
ghost use Rattle.outer_io.specs.Lines.{input_limit};
ghost use Rattle.outer_io.specs.Progress.{IsTooLarge};
ghost use Rattle.run_files.specs.Outside.{of_place, of_source};
ghost use Rattle.save_run.specs.Taking.{IsUnread};
ghost use Rattle.flat_run.specs.Reading.{AreSound, GivesPoints, points_end, PushesFeed, ReadsPoints};

use cube_view::{Point, Schema};
use feed_reader::{FeedJob, Row, next_row};
use outer_io::{CutFault, Place, Source};
use run_files::{Stop, give_back_feeds, stop_of_cut};
use std::alloc::Global;
use texts::{List, NoMemory};

/// Adds a point behind the others. Where there is no room for it, it makes room for a quarter more than there are.
fn push_point(points: &mut Vec<Point>, point: Point) -> Result<(), NoMemory>
    ensures { OnOk result (points.new.items ≡ points.old.items ++ point ∷ []) }
{
    if points.len() == points.capacity() {
        points.try_reserve_exact((points.len() / 4).max(1024))?;
    }
    points.push(point)?;
    Ok(())
}

/// Adds the row's point behind the others, if it is one.
fn push_row(points: &mut Vec<Point>, row: Row) -> Result<(), NoMemory>
    ensures { OnOk result (points.new.items ≡ points.old.items ++ points_in (row ∷ [])) }
{
    match row {
        Row::Point(point) => push_point(points, point),
        Row::Blank | Row::Refused(_) => Ok(()),
    }
}

/// Reads the rows of all lines that the feed has left, and adds the points among them behind the others.
fn push_feed<S: Source>(
    alloc: Global,
    schema: &Schema,
    feed: &mut FeedJob<S>,
    points: &mut Vec<Point>,
) -> Result<(), CutFault>
    requires unread { IsUnread S.left S.faults schema.now feed.old }
    requires sound { AreSound schema.now points.old.items }
    ensures pushed { OnOk result (PushesFeed S.left S.faults schema.now feed.old points.old.items points.new.items) }
    ensures too_much { IsErrOf result CutFault.TooMuch → IsTooLarge S.left feed.old.cutter }
    ensures cause { HasCause (S.faults feed.old.cutter.source) (S.faults feed.new.cutter.source) result CutFault.Read }
{
    while let Some((row, _)) = next_row(alloc, schema, &feed.header, &mut feed.cutter)? {
        let Ok(()) = push_row(points, row) else {
            return Err(CutFault::NoMemory);
        };
    }
    Ok(())
}

/// The points of the feeds, in order. The first fault ends the reading.
fn points_of_feeds<S: Source>(
    alloc: Global,
    schema: &Schema,
    feeds: &mut [FeedJob<S>],
) -> Result<List<Point>, CutFault>
    requires few { length feeds.old ≤ 8 }
    requires unread { All (IsUnread S.left S.faults schema.now) feeds.old }
    ensures { GivesPoints S.left S.faults schema.now feeds.old feeds.new result }
{
    let mut points = Vec::new(alloc);
    for feed in feeds.iter_mut() {
        push_feed(alloc, schema, feed, &mut points)?;
    }
    Ok(List::from_vec(points))
}

/// How a run ends by what reading its feeds answered, if that ends it.
fn points_end(points: Result<List<Point>, CutFault>) -> Result<List<Point>, Stop>
    ensures { result ≡ points_end points }
{
    match points {
        Ok(points) => Ok(points),
        Err(fault) => Err(stop_of_cut(fault)),
    }
}

/// The points of the feeds, in order. The feeds are given back in every case.
pub(crate) fn read_points<P: Place>(
    alloc: Global,
    schema: &Schema,
    feeds: List<FeedJob<P::In>>,
    place: &mut P,
) -> Result<List<Point>, Stop>
    requires few { length feeds ≤ 8 }
    requires unread { All (IsUnread P.In.left P.In.faults schema.now) feeds }
    ensures { ReadsPoints (of_place P.Place) (of_source P.In.Source) schema.now place.old place.new feeds result }
{
    let mut feeds = feeds.into_vec();
    let points = points_of_feeds(alloc, schema, feeds.as_mut_slice());
    give_back_feeds(place, feeds);
    points_end(points)
}
