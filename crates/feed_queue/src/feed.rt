//! The end of a feeder.
ghost use Rattle.std.specs.Prelude.{◌≡◌, true, false, length};
ghost use Rattle.crossbeam_queue.specs.Passes.{view, IsPassOf, IsSamePass};
ghost use Rattle.feed_queue.specs.Ends.{MaySend, having_sent};
ghost use Rattle.feed_queue.specs.Passes.{feeding_of};
ghost use Rattle.feed_queue.specs.Steps.{ViewDraws, joined_with};
ghost use Rattle.feed_queue.specs.declared.line.View.TheVariants.{Feeds};

use crate::item::Item;
use crate::line::{Lane, LanePass, Line, Returns};
use crate::steps::push;
use std::marker::Model;
use std::sync::{Arc, Wait};

/// The end of one feeder. Contracts see its lane and the lane's schema, its number, the points that it has sent, and
/// whether it has sent its End.
#[derive(Drop)]
pub struct FeedEnd {
    pub(crate) lane: Arc<Lane>,
    pub(crate) pass: LanePass,
    pub(crate) feeder: u8,
    pub(crate) sent: u32,
}

impl Model for FeedEnd {
    ghost use Rattle.std.specs.Prelude.{◌≡◌, length};
    ghost use Rattle.std.specs.Arc.{arc_value};
    ghost use Rattle.crossbeam_queue.specs.Passes.{IsPassOf};
    ghost use Rattle.feed_queue.specs.Ends.{FeedState};
    ghost use Rattle.feed_queue.specs.Passes.{feed_end_of, KnowsFeed};

    ghost Value = { FeedState };

    ghost view = { λ e. feed_end_of e.pass e.feeder };

    /// The pass is of this lane and this feeder, and the count is that of the points sent.
    ghost invariant = { λ e. IsPassOf (arc_value e.lane).line e.pass × KnowsFeed e.pass (feed_end_of e.pass e.feeder) × (e.sent ≡ length (feed_end_of e.pass e.feeder).points) };
}

impl FeedEnd {
    /// The feeder's number, from 1.
    pub fn feeder(&self) -> u8
        ensures { result ≡ self.now.feeder }
    {
        self.feeder
    }

    /// How many entries this end has sent.
    pub fn sent(&self) -> u32
        ensures { result ≡ length self.now.points }
    {
        self.sent
    }

    /// Sends the item, and waits while the queue is full.
    pub fn send<R: Wait>(&mut self, rt: &R, item: Item)
        requires open { self.old.ended ≡ false }
        requires next { MaySend self.old item }
        ensures { self.new ≡ having_sent self.old item }
    {
        push(rt, &self.lane, &mut self.pass, item);
        match item {
            Item::One(_) => self.sent += 1,
            Item::End(_, _) => {}
        }
    }

    /// Ends the feeder, which has sent its End. It takes no memory.
    pub fn finish(self) -> Ended
        requires { self.ended ≡ true }
        ensures { result ≡ self }
    {
        Ended { end: self }
    }
}

/// A feeder's end that has finished: it sends nothing more. Contracts see what they see of the end.
#[derive(Drop)]
pub struct Ended {
    end: FeedEnd,
}

impl Model for Ended {
    ghost use Rattle.std.specs.Prelude.{◌≡◌, true};
    ghost use Rattle.feed_queue.specs.Ends.{FeedState};

    ghost Value = { FeedState };

    ghost view = { λ e. e.end };

    /// It has sent its End.
    ghost invariant = { λ e. e.end.ended ≡ true };
}

impl Ended {
    /// The feeder's number, from 1.
    pub fn feeder(&self) -> u8
        ensures { result ≡ self.now.feeder }
    {
        self.end.feeder()
    }

    /// How many entries the feeder has sent.
    pub fn sent(&self) -> u32
        ensures { result ≡ length self.now.points }
    {
        self.end.sent()
    }

    /// Gives the feeder's pass back to that of the drawing end.
    pub(crate) fn rejoin(self, line: &Line, pass: &mut LanePass)
        requires queue { IsPassOf line.now pass.old }
        requires draws { ViewDraws (view pass.old) }
        requires lane { self.lane ≡ pass.old.table_id }
        ensures queue { IsSamePass pass.old pass.new }
        ensures joined { view pass.new ≡ joined_with (view pass.old) (Feeds (feeding_of self)) }
        ensures ended { self.ended ≡ true }
    {
        let Ended { end } = self;
        // The drawing end's pass has what the feeder had sent, and the feeder's pass is spent.
        line.absorb::<Returns>(pass, end.pass);
    }
}
