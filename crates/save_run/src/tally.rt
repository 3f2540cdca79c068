//! The counts of a feed while it is read.
ghost use Rattle.std.specs.Prelude.{◌≡◌, ◌+◌, ◌^◌, ◌<◌, ◌≤◌, [], ◌∷◌, IfOk, OnOk};
ghost use Rattle.cube_view.specs.Bag.{most_points};
ghost use Rattle.feed_reader.specs.Feeds.{points_in};
ghost use Rattle.feed_reader.specs.Rows.{IsValidRow};
ghost use Rattle.save_run.specs.Counting.{having_counted, tally_counts, tally_of};
ghost use Rattle.save_run.specs.Grouping.{GroupsTake, grouped_size};

use crate::grouped_cube::GroupedCube;
use feed_reader::{FeedCounts, FirstRefusals, Refusal, Row};
use std::alloc::Global;
use texts::NoMemory;

/// Of the rows of a feed so far: how many were accepted, blank and refused, and which were refused first.
#[derive(Drop)]
pub(crate) struct Tally {
    pub(crate) accepted: u64,
    pub(crate) blank: u64,
    pub(crate) refused: u64,
    pub(crate) first: FirstRefusals,
}

impl Tally {
    /// The tally of no rows, with room for the refusals that it keeps.
    pub(crate) fn new(alloc: Global) -> Result<Tally, NoMemory>
        ensures { IfOk result (λ tally. tally ≡ tally_of []) }
    {
        let first = FirstRefusals::new(alloc)?;
        Ok(Tally {
            accepted: 0,
            blank: 0,
            refused: 0,
            first,
        })
    }

    /// What was counted of a feed that was read to its end. It takes no memory.
    pub(crate) fn into_counts(self) -> FeedCounts
        ensures { result ≡ tally_counts self }
    {
        let Tally {
            accepted,
            blank,
            refused,
            first,
        } = self;
        FeedCounts {
            accepted,
            blank,
            refused,
            fault: None,
            first: first.into_list(),
        }
    }
}

/// Takes the row's point behind the others, if it is one, and counts the row, whose line has that number.
pub(crate) fn take_row(
    grouped: &mut GroupedCube,
    tally: &mut Tally,
    row: Row,
    line: u64,
) -> Result<(), NoMemory>
    requires valid { IsValidRow grouped.old.cube.schema row }
    requires room { grouped_size grouped.old < most_points }
    requires few { (tally.old.accepted < 2 ^ 32) × (tally.old.blank < 2 ^ 32) × (tally.old.refused < 2 ^ 32) }
    ensures counted { OnOk result (tally.new ≡ having_counted tally.old line row) }
    ensures points { OnOk result (GroupsTake grouped.old grouped.new (points_in (row ∷ []))) }
    ensures schema { grouped.new.cube.schema ≡ grouped.old.cube.schema }
    ensures size { OnOk result (grouped_size grouped.new ≤ grouped_size grouped.old + 1) }
{
    match row {
        Row::Blank => tally.blank += 1,
        Row::Point(point) => {
            grouped.take(point)?;
            tally.accepted += 1;
        }
        Row::Refused(fault) => {
            tally.refused += 1;
            tally.first.keep(Refusal { line, fault });
        }
    }
    Ok(())
}
