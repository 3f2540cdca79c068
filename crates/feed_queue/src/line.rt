//! The rule of a lane's queue, and what each of its steps does. No value of a view is ever made.
ghost use Rattle.std.specs.Prelude.{◌≡◌, ⊤};
ghost use Rattle.feed_queue.specs.Rule.{KeepsLane, opening_view};
ghost use Rattle.feed_queue.specs.Steps.{begun_view, after_slot, IsDraw, split_left, split_right, joined_with, Settles};
ghost use Rattle.feed_queue.specs.declared.line.View.TheVariants.{Fresh, Spent};

use crate::item::{Item, Slot};
use change_signal::Signal;
use crossbeam_queue::protocol::{Join, Lesson, Outcome, Protocol, Split};
use crossbeam_queue::{Pass, RuledArrayQueue};
use cube_view::{Point, Schema};
use std::collections::LinkedList;

/// What a feeder's pass knows: the points that it has sent, and whether it has sent its End.
pub struct Feeding {
    pub schema: Schema,
    pub feeder: u8,
    pub points: LinkedList<Point>,
    pub ended: bool,
}

/// What the drawing end's pass knows: what it has drawn, how many feeders it has made, and what those had sent that
/// came back.
pub struct Drawing {
    pub schema: Schema,
    pub drawn: LinkedList<Item>,
    pub made: u8,
    pub joined: LinkedList<Feeding>,
}

/// What a pass knows: nothing yet, the schema alone, what it has drawn or sent, or nothing any more.
pub enum View {
    Fresh,
    Opening(Schema),
    Draws(Drawing),
    Feeds(Feeding),
    Spent,
}

/// The rule of a lane.
pub struct LaneRule;

impl Protocol<Slot, View> for LaneRule {
    /// The lane's queue and passes keep its rule.
    ghost holds = { KeepsLane };

    /// The first pass knows nothing.
    ghost first = { Fresh };
}

/// The queue of a lane.
pub type Line = RuledArrayQueue<Slot, View, LaneRule>;

/// A pass of a lane's queue.
pub type LanePass = Pass<Slot, View>;

/// A lane's queue, with what its ends sleep on.
#[derive(Drop)]
pub struct Lane {
    pub line: Line,
    /// Tells the drawing end that an item has come in.
    pub filled: Signal,
    /// Tells feeders that there is room again.
    pub freed: Signal,
}

/// The schema goes in.
pub struct Opens;

impl Outcome<Slot, View> for Opens {
    /// The pass knows the schema.
    ghost then = { λ v x w. w ≡ opening_view x };
}

/// The schema comes out.
pub struct Begins;

impl Outcome<Slot, View> for Begins {
    /// The pass draws, and has made no feeder.
    ghost then = { λ v x w. w ≡ begun_view v };
}

/// An item is sent.
pub struct Sends;

impl Outcome<Slot, View> for Sends {
    /// The feeder has sent it.
    ghost then = { λ v x w. w ≡ after_slot v x };
}

impl Lesson<Slot, View> for Sends {
    /// A full queue tells nothing.
    ghost fact = { λ v items. ⊤ };
}

/// An item is drawn.
pub struct Takes;

impl Outcome<Slot, View> for Takes {
    /// The drawing end has drawn it, and it is in order.
    ghost then = { IsDraw };
}

impl Lesson<Slot, View> for Takes {
    /// An empty queue tells nothing.
    ghost fact = { λ v items. ⊤ };
}

/// A feeder gets its pass.
pub struct Parts;

impl Split<View> for Parts {
    /// The drawing end has made one feeder more.
    ghost left = { split_left };

    /// The feeder has sent nothing.
    ghost right = { split_right };
}

/// A feeder's pass comes back.
pub struct Returns;

impl Join<View> for Returns {
    /// The drawing end keeps what the feeder had sent.
    ghost both = { joined_with };

    /// The feeder's pass knows nothing any more.
    ghost spent = { Spent };
}

/// What the rule tells of the feeders that came back.
pub struct Settling;

impl Lesson<Slot, View> for Settling {
    /// What was drawn of them is what they had sent.
    ghost fact = { λ v items. Settles v };
}
