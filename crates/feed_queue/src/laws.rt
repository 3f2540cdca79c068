//! What holds of lanes, as laws of the definitions.
ghost use Rattle.feed_queue.specs.Ends.{EndsByCount, EndsInTurn, NewFeedsInTurn};
ghost use Rattle.feed_queue.specs.Journal.{LinesArePrefixFree, JournalsAreOfOne};
ghost use Rattle.feed_queue.specs.MachineSteps.{SendIsPush, DrawIsPop, SentEndIsNone, DrawnEndIsNone, SplitIsNone, JoinIsNone};

use crate::{DrawEnd, Drawn, Ended, FeedEnd};
use side_by_side::{MayGo, may_go};

/// Each step of a lane is an event of the loading machine on its part: an entry that is sent is a push and one that is
/// drawn a pop, and Ends and passes that part or come back are none. Where as many Ends were drawn as there are
/// feeders, the End of each was drawn. The ends of a new lane are in turn, and ends in turn are of each feeder. It does
/// nothing when run.
pub fn lane_laws()
    ensures send { SendIsPush }
    ensures draw { DrawIsPop }
    ensures sent_end { SentEndIsNone }
    ensures drawn_end { DrawnEndIsNone }
    ensures split { SplitIsNone }
    ensures join { JoinIsNone }
    ensures count { EndsByCount }
    ensures in_turn { EndsInTurn × NewFeedsInTurn }
{}

/// No line of a valid entry, with its line feed, is a prefix of another's, so one text is the journal of one list of
/// valid entries at most. It does nothing when run.
pub fn journal_laws()
    ensures prefix { LinesArePrefixFree }
    ensures one { JournalsAreOfOne }
{}

/// The ends of a lane, and what becomes of them, may go to other threads.
pub fn lane_ends_may_go() -> MayGo<(FeedEnd, Ended, DrawEnd, Drawn)> {
    may_go()
}
