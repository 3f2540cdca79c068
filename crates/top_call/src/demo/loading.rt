//! The points of a feed.
ghost use Rattle.std.specs.Prelude.{◌≡◌, ◌+◌, ◌<◌, ◌≤◌, [], ◌∷◌, true, OnOk, IsErrOf};
ghost use Rattle.top_call.specs.Loading.{KeepsRows, Loads, TakesFeed};
ghost use Rattle.run_files.specs.Outside.{of_place};
ghost use Rattle.cube_view.specs.Bag.{most_points, Counts, GrowsBy};
ghost use Rattle.feed_reader.specs.Feeds.{is_feed_refused, points_in};
ghost use Rattle.feed_reader.specs.Reading.{IsAtStart};
ghost use Rattle.feed_reader.specs.Rows.{row_of_line, IsValidRow};
ghost use Rattle.outer_io.specs.Cutting.{rest_of};
ghost use Rattle.outer_io.specs.Faults.{HasCause};
ghost use Rattle.outer_io.specs.Progress.{IsGoing, IsTooLarge, PassesAll};
ghost use Rattle.outer_io.specs.Told.{Told};

use cube_view::Grow;
use feed_reader::{Header, NoHeader, Row, next_row, read_header};
use outer_io::{CutFault, IoFault, LineCutter, Place, Source};
use run_files::Stop;
use std::alloc::Global;
use texts::NoMemory;

/// Why a feed is not loaded.
#[derive(Clone, Copy, PartialEq, Eq, Debug)]
pub(crate) enum LoadFault {
    NoMemory,
    Read,
    Refused,
}

impl From<NoMemory> for LoadFault {
    ghost use Rattle.top_call.specs.declared.demo.loading.LoadFault.TheVariants as fault;

    ghost from_gives = { λ _ e. e ≡ fault.NoMemory };

    fn from(_fault: NoMemory) -> LoadFault {
        LoadFault::NoMemory
    }
}

impl From<CutFault> for LoadFault {
    ghost use Rattle.top_call.specs.LoadFaults.{fault_of_cut};

    ghost from_gives = { λ fault e. e ≡ fault_of_cut fault };

    fn from(fault: CutFault) -> LoadFault {
        match fault {
            CutFault::Read => LoadFault::Read,
            CutFault::TooMuch => LoadFault::Refused,
            CutFault::NoMemory => LoadFault::NoMemory,
        }
    }
}

impl From<NoHeader> for LoadFault {
    ghost use Rattle.top_call.specs.LoadFaults.{fault_of_head};

    ghost from_gives = { λ fault e. e ≡ fault_of_head fault };

    fn from(fault: NoHeader) -> LoadFault {
        match fault {
            NoHeader::Refused(_) => LoadFault::Refused,
            NoHeader::Read => LoadFault::Read,
            NoHeader::NoMemory => LoadFault::NoMemory,
        }
    }
}

/// Keeps the row's point in the cube, if the row is one.
fn keep_point<V: Grow>(cube: &mut V, row: Row) -> Result<(), NoMemory>
    requires valid { IsValidRow (V.schema cube.old) row }
    requires room { V.seen cube.old < most_points }
    ensures kept { OnOk result (GrowsBy (V.weight_at cube.old) (V.seen cube.old) (V.weight_at cube.new) (V.seen cube.new) (points_in (row ∷ []))) }
    ensures schema { V.schema cube.new ≡ V.schema cube.old }
    ensures few { OnOk result (V.seen cube.new ≤ V.seen cube.old + 1) }
{
    match row {
        Row::Point(point) => cube.insert(point),
        Row::Blank => Ok(()),
        Row::Refused(_) => Ok(()),
    }
}

/// Keeps the points of the lines that are left in the cube, which has no more points than the cutter gave lines.
fn keep_points<V: Grow, S: Source>(
    alloc: Global,
    header: &Header,
    cutter: &mut LineCutter<S>,
    cube: &mut V,
) -> Result<(), LoadFault>
    requires schema { header.now.schema ≡ V.schema cube.old }
    requires going { IsGoing cutter.old }
    requires few { V.seen cube.old ≤ cutter.old.given }
    ensures points { OnOk result (KeepsRows S.Source V.CubeView header.now.places cutter.old cutter.new cube.old cube.new) }
    ensures schema { V.schema cube.new ≡ V.schema cube.old }
    ensures refused { IsErrOf result LoadFault.Refused → IsTooLarge S.left cutter.old }
    ensures cause { HasCause (S.faults cutter.old.source) (S.faults cutter.new.source) result LoadFault.Read }
{
    while let Some((row, _)) = next_row(alloc, cube.schema(), header, cutter)? {
        keep_point(cube, row)?;
    }
    Ok(())
}

/// Keeps the points of a feed in an empty cube, from a cutter that gave nothing yet.
fn load_lines<V: Grow, S: Source>(
    alloc: Global,
    cutter: &mut LineCutter<S>,
    cube: &mut V,
) -> Result<(), LoadFault>
    requires empty { Counts (V.weight_at cube.old) (V.seen cube.old) [] }
    requires start { IsAtStart cutter.old }
    requires going { IsGoing cutter.old }
    ensures points { OnOk result (Told (rest_of S.left cutter.old) (TakesFeed (V.schema cube.old) (Counts (V.weight_at cube.new) (V.seen cube.new)))) }
    ensures schema { V.schema cube.new ≡ V.schema cube.old }
    ensures refused { IsErrOf result LoadFault.Refused → Told (rest_of S.left cutter.old) (λ feed. is_feed_refused (V.schema cube.old) feed ≡ true) }
    ensures cause { HasCause (S.faults cutter.old.source) (S.faults cutter.new.source) result LoadFault.Read }
{
    let header = read_header(alloc, cube.schema(), cutter)?;
    keep_points(alloc, &header, cutter, cube)
}

/// Keeps the points of a feed in an empty cube. The source comes back with every answer.
fn load_source<V: Grow, S: Source>(
    alloc: Global,
    source: S,
    cube: &mut V,
) -> (S, Result<(), LoadFault>)
    requires { Counts (V.weight_at cube.old) (V.seen cube.old) [] }
    ensures points { OnOk result.1 (Told (S.left source) (TakesFeed (V.schema cube.old) (Counts (V.weight_at cube.new) (V.seen cube.new)))) }
    ensures schema { V.schema cube.new ≡ V.schema cube.old }
    ensures refused { IsErrOf result.1 LoadFault.Refused → Told (S.left source) (λ feed. is_feed_refused (V.schema cube.old) feed ≡ true) }
    ensures cause { HasCause (S.faults source) (S.faults result.0) result.1 LoadFault.Read }
{
    match LineCutter::new(alloc, source) {
        Ok(mut cutter) => {
            let loaded = load_lines(alloc, &mut cutter, cube);
            (cutter.into_source(), loaded)
        }
        Err(source) => (source, Err(LoadFault::NoMemory)),
    }
}

/// Keeps the points of the named feed in an empty cube, or says how the run ends. The feed's source is given back.
pub(crate) fn load<V: Grow, P: Place>(
    alloc: Global,
    feed: &str,
    place: &mut P,
    cube: &mut V,
) -> Result<(), Stop>
    requires { Counts (V.weight_at cube.old) (V.seen cube.old) [] }
    ensures loads { Loads (of_place P.Place) place.old place.new feed.now (V.schema cube.old) (Counts (V.weight_at cube.new) (V.seen cube.new)) result }
    ensures schema { V.schema cube.new ≡ V.schema cube.old }
{
    match place.open(feed) {
        Ok(source) => {
            let (source, loaded) = load_source(alloc, source, cube);
            place.give_back_in(source);
            match loaded {
                Ok(()) => Ok(()),
                Err(LoadFault::NoMemory) => Err(Stop::NoMemory),
                Err(LoadFault::Read) => Err(Stop::ReadFault),
                Err(LoadFault::Refused) => Err(Stop::FeedRefused),
            }
        }
        Err(IoFault::Failed) => Err(Stop::ReadFault),
        Err(IoFault::NoMemory) => Err(Stop::NoMemory),
    }
}
