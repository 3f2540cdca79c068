//! The drawing end.
ghost use Rattle.std.specs.Prelude.{◌≡◌, ◌≤◌, ℕ, true, All, MatchOption, ⊤};
ghost use Rattle.crossbeam_queue.specs.Passes.{view, IsPassOf, IsSamePass};
ghost use Rattle.feed_queue.specs.Ends.{having_drawn, MayBeDrawn, IsDrawn, sent_by, sent_lists, is_among, AreInTurn, TellsCount};
ghost use Rattle.feed_queue.specs.Items.{entries_in, has_end};
ghost use Rattle.feed_queue.specs.Passes.{all_joined};
ghost use Rattle.feed_queue.specs.Steps.{ViewDraws};
ghost use Rattle.world_core.specs.Interleaving.{IsInterleaving, list_of};

use crate::feed::Ended;
use crate::item::Item;
use crate::line::{Lane, LanePass, Line, Settling};
use crate::steps::{count_draw, pop, wait_pop};
use std::marker::Model;
use std::sync::{Arc, Wait};
use texts::List;

/// The end that draws what the feeders send. Contracts see its lane and the lane's schema, how many feeders there are,
/// how many items the queue has room for, and what was drawn.
#[derive(Drop)]
pub struct DrawEnd {
    pub(crate) lane: Arc<Lane>,
    pub(crate) pass: LanePass,
    /// So many draws until feeders that sleep are woken.
    pub(crate) draws_left: usize,
}

impl Model for DrawEnd {
    ghost use Rattle.std.specs.Arc.{arc_value};
    ghost use Rattle.crossbeam_queue.specs.Passes.{IsPassOf, ruled_capacity};
    ghost use Rattle.feed_queue.specs.Ends.{DrawState};
    ghost use Rattle.feed_queue.specs.Passes.{draw_end_of, KnowsDraw};

    ghost Value = { DrawState };

    ghost view = { λ e. draw_end_of e.pass (ruled_capacity (arc_value e.lane).line) };

    /// The pass is of this lane, and draws.
    ghost invariant = { λ e. IsPassOf (arc_value e.lane).line e.pass × KnowsDraw e.pass (draw_end_of e.pass (ruled_capacity (arc_value e.lane).line)) };
}

impl DrawEnd {
    /// Draws the item at the front, if there is one: `None` only if the queue was empty at one moment of the call.
    pub fn try_draw<R: Wait>(&mut self, rt: &R) -> Option<Item>
        ensures drawn { MatchOption result (self.new ≡ self.old) (λ i. self.new ≡ having_drawn self.old i) }
        ensures next { MatchOption result ⊤ (λ i. MayBeDrawn self.old i) }
        ensures all { MatchOption result ⊤ (λ _. IsDrawn self.new) }
    {
        let drawn = pop(rt, &self.lane.line, &mut self.pass);
        count_draw(&self.lane, &mut self.draws_left);
        drawn
    }

    /// Draws the item at the front, and waits for one.
    pub fn draw<R: Wait>(&mut self, rt: &R) -> Item
        ensures drawn { self.new ≡ having_drawn self.old result }
        ensures next { MayBeDrawn self.old result }
        ensures all { IsDrawn self.new }
    {
        let drawn = wait_pop(rt, &self.lane, &mut self.pass);
        count_draw(&self.lane, &mut self.draws_left);
        drawn
    }

    /// Takes the feeders' ends back, once every End was drawn. It takes no memory.
    pub fn settle<R: Wait>(self, _rt: &R, ended: List<Ended>) -> Drawn
        requires lane { All (λ e. e.lane ≡ self.lane) ended }
        requires each { (f : ℕ) → 1 ≤ f → f ≤ self.feeders → is_among ended f ≡ true }
        requires ends { (f : ℕ) → 1 ≤ f → f ≤ self.feeders → has_end f self.drawn ≡ true }
        ensures drawn { result ≡ entries_in self.drawn }
        ensures interleaving { IsInterleaving self.feeders (sent_by ended) result }
        ensures in_turn { AreInTurn ended self.feeders → IsInterleaving self.feeders (list_of (sent_lists ended)) result }
        ensures counts { All (TellsCount (sent_by ended)) self.drawn }
    {
        let DrawEnd {
            lane,
            mut pass,
            draws_left: _,
        } = self;
        rejoin_all(&lane.line, &mut pass, ended);
        lane.line.learn_as::<Settling>(&mut pass);
        Drawn { pass }
    }
}

/// All that was drawn of a lane. Contracts see its entries; it holds no bytes of them.
#[derive(Drop)]
pub struct Drawn {
    pass: LanePass,
}

impl Model for Drawn {
    ghost use Rattle.std.specs.Prelude.{List};
    ghost use Rattle.world_core.specs.declared.entry.Entry.{Entry};
    ghost use Rattle.feed_queue.specs.Passes.{entries_drawn};

    ghost Value = { List Entry };

    ghost view = { λ d. entries_drawn d.pass };
}

/// Gives the passes of all these feeders back to that of the drawing end.
fn rejoin_all(line: &Line, pass: &mut LanePass, ended: List<Ended>)
    requires queue { IsPassOf line.now pass.old }
    requires draws { ViewDraws (view pass.old) }
    requires lane { All (λ e. e.lane ≡ pass.old.table_id) ended }
    ensures queue { IsSamePass pass.old pass.new }
    ensures joined { view pass.new ≡ all_joined (view pass.old) ended }
{
    for end in ended.into_vec() {
        end.rejoin(line, pass);
    }
}
