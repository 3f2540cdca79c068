//! How a lane is opened.
ghost use Rattle.std.specs.Prelude.{◌≡◌, ◌≤◌, ◌+◌, [], false, IfOk};
ghost use Rattle.std.specs.Arc.{arc_value};
ghost use Rattle.crossbeam_queue.specs.Passes.{view, IsPassOf, IsSamePass};
ghost use Rattle.feed_queue.specs.Ends.{feed_state, draw_state, new_feeds};
ghost use Rattle.feed_queue.specs.Passes.{known_schema, made_feeders};
ghost use Rattle.feed_queue.specs.Steps.{ViewDraws, split_left};

use crate::draw::DrawEnd;
use crate::feed::FeedEnd;
use crate::line::{Lane, LanePass, Parts};
use crate::steps::open_line;
use change_signal::Signal;
use cube_view::Schema;
use std::alloc::Global;
use std::sync::Arc;
use texts::{List, NoMemory};

/// A lane of so many feeders, whose queue has room for so many items. The feeders' ends stand in the order of their
/// numbers, from 1.
pub fn open_lane(
    alloc: Global,
    schema: &Schema,
    room: usize,
    feeders: u8,
) -> Result<(List<FeedEnd>, DrawEnd), NoMemory>
    requires room { (1 ≤ room) × (room ≤ 65536) }
    requires few { (1 ≤ feeders) × (feeders ≤ 8) }
    ensures feeds { IfOk result (λ t. t.0 ≡ new_feeds t.1.lane schema.now feeders) }
    ensures draws { IfOk result (λ t. t.1 ≡ draw_state t.1.lane schema.now feeders room []) }
{
    let (line, mut pass) = open_line(alloc, schema, room)?;
    let lane = Lane {
        line,
        filled: Signal::new(),
        freed: Signal::new(),
    };
    let lane = Arc::new(alloc, lane)?;
    let mut ends = List::new(alloc);
    for made in 0..feeders {
        let end = add_feeder(&lane, &mut pass, made)?;
        ends.add(end)?;
    }
    let draws = DrawEnd {
        lane,
        pass,
        draws_left: 0,
    };
    Ok((ends, draws))
}

/// The end of the feeder after so many.
fn add_feeder(lane: &Arc<Lane>, pass: &mut LanePass, made: u8) -> Result<FeedEnd, NoMemory>
    requires queue { IsPassOf (arc_value lane.now).line pass.old }
    requires few { made ≤ 7 }
    requires draws { ViewDraws (view pass.old) × (made_feeders (view pass.old) ≡ made) }
    ensures queue { IsSamePass pass.old pass.new }
    ensures draws { IfOk result (λ _. view pass.new ≡ split_left (view pass.old)) }
    ensures end { IfOk result (λ e. e ≡ feed_state pass.old.table_id (known_schema (view pass.old)) (made + 1) [] false) }
{
    let shared = Arc::try_clone(lane)?;
    // The drawing end's pass has made one feeder more, whose pass has sent nothing.
    let part = lane.line.another::<Parts>(pass);
    Ok(FeedEnd {
        lane: shared,
        pass: part,
        feeder: made + 1,
        sent: 0,
    })
}
