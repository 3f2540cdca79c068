//! The steps of a lane, on a pass alone.
ghost use Rattle.std.specs.Prelude.{◌≡◌, ◌<◌, [], MatchOption, IfOk};
ghost use Rattle.crossbeam_queue.specs.Passes.{view, IsPassOf, IsSamePass, ruled_capacity};
ghost use Rattle.feed_queue.specs.Steps.{ViewSends, ViewDraws, after_item, IsDraw, drawing};
ghost use Rattle.feed_queue.specs.declared.item.Slot.TheVariants.{Carries};
ghost use Rattle.feed_queue.specs.declared.line.View.TheVariants.{Draws};

use crate::item::{Item, Slot};
use crate::line::{Begins, Lane, LanePass, Line, Opens, Sends, Takes};
use change_signal::Waiting;
use cube_view::Schema;
use std::alloc::Global;
use std::sync::Wait;
use texts::NoMemory;

/// How often the drawing end yields before it sleeps, which takes some 0.2 milliseconds. To wake it takes 20
/// microseconds or more, which whoever asks for the record would feel. So where items come evenly, 5,000 a second or
/// more, it is awake for them.
/// Where they come more seldom, most of its waits sleep at once (`Signal::pause`).
const YIELDS_FOR_ITEMS: u32 = 400;

/// Sends an item, and waits while the queue is full. It wakes the drawing end where that sleeps.
pub(crate) fn push<R: Wait>(rt: &R, lane: &Lane, pass: &mut LanePass, item: Item)
    requires queue { IsPassOf lane.now.line pass.old }
    requires sends { ViewSends (view pass.old) item }
    ensures queue { IsSamePass pass.old pass.new }
    ensures sent { view pass.new ≡ after_item (view pass.old) item }
{
    let mut waiting = Waiting::new();
    for _ in rt.forever() {
        // The item is at the queue's back, and the pass has sent it; or the queue is full, and all is as before.
        match lane.line.push_as::<Sends, R>(rt, pass, Slot::Carries(item)) {
            Ok(()) => break,
            Err(_) => lane.freed.pause(rt, &mut waiting),
        }
    }
    // No queue and no pass changes. Where the drawing end does not sleep, this reads one word.
    lane.filled.notify();
}

/// Draws the item at the front, if there is one.
pub(crate) fn pop<R: Wait>(rt: &R, line: &Line, pass: &mut LanePass) -> Option<Item>
    requires queue { IsPassOf line.now pass.old }
    requires draws { ViewDraws (view pass.old) }
    ensures queue { IsSamePass pass.old pass.new }
    ensures drawn { MatchOption result (view pass.new ≡ view pass.old) (λ i. IsDraw (view pass.old) (Carries i) (view pass.new)) }
{
    // The front has left the queue, and the pass has drawn it; or the queue is empty, and all is as before.
    match line.pop_as::<Takes, R>(rt, pass) {
        Some(Slot::Carries(item)) => Some(item),
        Some(Slot::Opens(_)) => unreachable!(),
        None => None,
    }
}

/// Draws the item at the front, and waits for one.
pub(crate) fn wait_pop<R: Wait>(rt: &R, lane: &Lane, pass: &mut LanePass) -> Item
    requires queue { IsPassOf lane.now.line pass.old }
    requires draws { ViewDraws (view pass.old) }
    ensures queue { IsSamePass pass.old pass.new }
    ensures drawn { IsDraw (view pass.old) (Carries result) (view pass.new) }
{
    let mut waiting = Waiting::yielding(YIELDS_FOR_ITEMS);
    for _ in rt.forever() {
        if let Some(item) = pop(rt, &lane.line, pass) {
            return item;
        }
        // The queue was empty, and all is as before. Feeders that sleep have all its room.
        lane.freed.notify();
        lane.filled.pause(rt, &mut waiting);
    }
    unreachable!()
}

/// Counts a draw down, and wakes feeders that sleep where it was the last of half the queue's room: a wake at each draw
/// would be for one place only.
pub(crate) fn count_draw(lane: &Lane, draws_left: &mut usize) {
    if *draws_left == 0 {
        *draws_left = lane.line.capacity() / 2;
        lane.freed.notify();
    } else {
        *draws_left -= 1;
    }
}

/// A queue whose one pass draws and knows the schema. The schema goes through the queue once, since what a pass knows
/// begins with a constant and changes by what goes in and comes out.
pub(crate) fn open_line(
    alloc: Global,
    schema: &Schema,
    room: usize,
) -> Result<(Line, LanePass), NoMemory>
    requires { 0 < room }
    ensures pass { IfOk result (λ t. IsPassOf t.0 t.1 × (view t.1 ≡ Draws (drawing schema.now [] 0 []))) }
    ensures room { IfOk result (λ t. ruled_capacity t.0 ≡ room) }
{
    let (line, mut pass) = Line::ruled(alloc, room)?;
    let copy = Box::new(alloc, schema.copy(alloc)?)?;
    // The queue holds the schema alone, and the pass knows it. No other thread is in the way, so this is not refused.
    match line.try_push_as::<Opens>(&mut pass, Slot::Opens(copy)) {
        Ok(()) => {}
        Err(_) => return Err(NoMemory),
    }
    // The queue is empty, and the pass draws, with no feeder made.
    match line.try_pop_as::<Begins>(&mut pass) {
        Some(_) => Ok((line, pass)),
        None => Err(NoMemory),
    }
}
