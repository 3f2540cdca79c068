//! One call of each end, which is one step of a run. The law would say nothing of the ends without these: a weaker
//! clause of a call below leaves one of them unproved.
ghost use Rattle.std.specs.Prelude.{◌≡◌, false, IfErr, IfOk};
ghost use Rattle.builder_core.specs.Builder.{MayBeTaken};
ghost use Rattle.builder_core.specs.Endings.{EachEnded};
ghost use Rattle.feed_queue.specs.Ends.{MaySend};
ghost use Rattle.published_pair.specs.Pair.{Fresh};
ghost use Rattle.run_law.specs.Calls.{AsksBy, DrawsBy, EndsPairBy, LearnsBy, LearnsEndBy, LooksBy, PutsBy, SendsBy, TakesBy, TellsBy};

use builder_core::{Builder, Taken};
use cube_view::Grow;
use feed_queue::{DrawEnd, FeedEnd, Item};
use mailbox::{MailIn, MailOut};
use published_pair::{GivenUp, Last, Rested, Shown, Told, Viewer};
use std::alloc::Global;
use std::sync::Wait;
use texts::{List, NoMemory};
use world_core::Entry;

/// A feeder sends an item.
pub fn send_step<R: Wait>(rt: &R, end: &mut FeedEnd, item: Item)
    requires open { end.old.ended ≡ false }
    requires next { MaySend end.old item }
    ensures { SendsBy end.old item end.new }
{
    end.send(rt, item);
}

/// The drawing end draws an item.
#[tactic(auto, using(crate::proofs::OneCall::draws_by))]
pub fn draw_step<R: Wait>(rt: &R, draws: &mut DrawEnd) -> Item
    ensures { DrawsBy draws.old result draws.new }
{
    draws.draw(rt)
}

/// The builder takes an item.
pub fn take_step<V: Grow, R: Wait>(
    rt: &R,
    builder: &mut Builder<V>,
    item: Item,
) -> Result<Taken, NoMemory>
    requires { MayBeTaken builder.old item }
    ensures { TakesBy builder.old item result builder.new }
{
    builder.take(rt, item)
}

/// The builder tells what is published.
#[tactic(auto, using(crate::proofs::OneCall::tells_by))]
pub fn tell_step<V: Grow>(builder: &Builder<V>) -> Told
    ensures { TellsBy builder.now result }
{
    builder.tell()
}

/// What was told is put into a mailbox.
#[tactic(auto, using(crate::proofs::OneCall::puts_by))]
pub fn put_step<R: Wait>(rt: &R, mail: &mut MailIn, told: Told)
    requires { told.front.book ≡ mail.old.pair }
    ensures { PutsBy mail.old told mail.new }
{
    mail.put(rt, told);
}

/// A mailbox is asked.
#[tactic(auto, using(crate::proofs::OneCall::asks_by))]
pub fn ask_step<R: Wait>(rt: &R, mail: &mut MailOut) -> Option<Told>
    ensures { AsksBy mail.old result mail.new }
{
    mail.take(rt)
}

/// A viewer learns what was taken.
#[tactic(auto, using(crate::proofs::OneCall::learns_by))]
pub fn learn_step<V: Grow>(viewer: &mut Viewer<V>, told: Told)
    requires { told.front.book ≡ viewer.old.shown.book }
    ensures { LearnsBy viewer.old.learned told viewer.new.learned }
{
    viewer.learn(told);
}

/// A viewer looks. What it is shown goes on from all that it was shown and told before.
#[tactic(auto, using(crate::proofs::OneCall::looks_by))]
pub fn look_step<V: Grow, R: Wait>(rt: &R, viewer: Viewer<V>) -> Shown<V>
    ensures fresh { Fresh viewer.shown.points viewer.learned.points result.shown.points }
    ensures step { LooksBy viewer.schema viewer.shown result.shown }
{
    viewer.look(rt)
}

/// The builder ends its pair. Where memory is wanted that is no step: viewers see what they saw.
#[tactic(auto, using(crate::proofs::OneCall::ends_ok))]
pub fn end_step<V: Grow, R: Wait>(
    rt: &R,
    alloc: Global,
    builder: Builder<V>,
) -> (List<Entry>, Result<(Rested<V>, List<Last>), GivenUp>)
    requires { EachEnded builder.feeders builder.taken }
    ensures ends { IfOk result.1 (λ t. EndsPairBy builder t.0.ended) }
    ensures rests { IfErr result.1 (λ g. g.shown ≡ builder.published) }
{
    builder.into_journal(rt, alloc)
}

/// A viewer learns the ended list.
#[tactic(auto, using(crate::proofs::OneCall::learns_end_by))]
pub fn learn_end_step<V: Grow>(viewer: &mut Viewer<V>, last: Last)
    requires { last.whole.book ≡ viewer.old.shown.book }
    ensures { LearnsEndBy last.whole viewer.new.learned }
{
    viewer.learn_last(last);
}
