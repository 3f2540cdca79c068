//! A lane on one thread, step by step.
ghost use Rattle.std.specs.Prelude.{◌≡◌, ◌+◌, [], ◌∷◌, false, IsTrue};
ghost use Rattle.cube_view.specs.Validity.{valid};
ghost use Rattle.feed_queue.specs.Ends.{having_sent_all, IsDrawn};
ghost use Rattle.feed_queue.specs.Items.{count_ends};

use cube_view::Point;
use example_schemas::{point, schema_of_kinds};
use feed_queue::{DrawEnd, Ended, FeedEnd, Item, open_lane};
use std::alloc::Global;
use std::process::Abort;
use std::sync::Wait;
use texts::{List, NoMemory};
use world_core::Entry;

/// Draws, where nothing is queued.
fn expect_nothing<R: Wait + Abort>(rt: &R, draws: &mut DrawEnd)
    ensures { draws.new ≡ draws.old }
{
    if let Some(_item) = draws.try_draw(rt) {
        panic!(rt; "an item");
    }
}

/// Draws that entry, without waiting.
fn expect_entry<R: Wait + Abort>(rt: &R, draws: &mut DrawEnd, entry: Entry)
    ensures same { (draws.new.lane ≡ draws.old.lane) × (draws.new.feeders ≡ draws.old.feeders) }
    ensures drawn { IsDrawn draws.new }
    ensures ends { count_ends draws.new.drawn ≡ count_ends draws.old.drawn }
{
    match draws.try_draw(rt) {
        Some(Item::One(drawn)) => assert!(rt; drawn == entry),
        _ => panic!(rt; "no entry"),
    }
}

/// Draws that End, without waiting.
fn expect_end<R: Wait + Abort>(rt: &R, draws: &mut DrawEnd, feeder: u8, count: u32)
    ensures same { (draws.new.lane ≡ draws.old.lane) × (draws.new.feeders ≡ draws.old.feeders) }
    ensures drawn { IsDrawn draws.new }
    ensures ends { count_ends draws.new.drawn ≡ count_ends draws.old.drawn + 1 }
{
    match draws.try_draw(rt) {
        Some(Item::End(f, n)) => assert!(rt; (f, n) == (feeder, count)),
        _ => panic!(rt; "no End"),
    }
}

/// One entry of feeder 1 and both Ends, each drawn before the next is sent.
fn send_and_draw<R: Wait + Abort>(
    rt: &R,
    mut one: FeedEnd,
    mut two: FeedEnd,
    mut draws: DrawEnd,
    point: Point,
) -> (Ended, Ended, DrawEnd)
    requires one { (one.feeder ≡ 1) × (one.points ≡ []) × (one.ended ≡ false) }
    requires two { (two.feeder ≡ 2) × (two.points ≡ []) × (two.ended ≡ false) }
    requires valid { IsTrue (valid one.schema point) }
    requires draws { draws.drawn ≡ [] }
    ensures one { result.0 ≡ having_sent_all one (point ∷ []) }
    ensures two { result.1 ≡ having_sent_all two [] }
    ensures draws { (result.2.lane ≡ draws.lane) × (result.2.feeders ≡ draws.feeders) }
    ensures ends { IsDrawn result.2 × (count_ends result.2.drawn ≡ 2) }
{
    expect_nothing(rt, &mut draws);
    let entry = Entry {
        feeder: 1,
        number: 0,
        point,
    };
    one.send(rt, Item::One(entry));
    expect_entry(rt, &mut draws, entry);
    two.send(rt, Item::End(2, 0));
    expect_end(rt, &mut draws, 2, 0);
    one.send(rt, Item::End(1, 1));
    expect_end(rt, &mut draws, 1, 1);
    (one.finish(), two.finish(), draws)
}

fn carry_one<R: Wait + Abort>(rt: &R, alloc: Global) -> Result<(), NoMemory> {
    let schema = schema_of_kinds(alloc)?;
    let (mut feeds, draws) = open_lane(alloc, &schema, 1, 2)?;
    let (Some(two), Some(one)) = (feeds.pop(), feeds.pop()) else {
        return Err(NoMemory);
    };
    assert_eq!(rt; (one.feeder(), two.feeder()), (1, 2));
    let (one, two, draws) = send_and_draw(rt, one, two, draws, point(7, 7, 1, 1));
    assert_eq!(rt; (one.feeder(), one.sent()), (1, 1));
    assert_eq!(rt; (two.feeder(), two.sent()), (2, 0));
    let ended = vec![in alloc; one, two]?;
    draws.settle(rt, List::from_vec(ended));
    Ok(())
}

#[test]
fn an_entry_goes_through_a_lane_of_room_one(rt: HostRuntime) {
    carry_one(&rt, rt.alloc()).expect(&rt, "memory");
}
