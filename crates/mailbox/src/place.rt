//! The rule of a mailbox's place, and what each of its steps does. No value of a view is ever made.
ghost use Rattle.std.specs.Prelude.{◌≡◌, ⊤};
ghost use Rattle.mailbox.specs.Rule.{KeepsMail};
ghost use Rattle.mailbox.specs.Steps.{after_letter, naming_view, named_view, putter_view, removed_view, taker_view, IsTake};
ghost use Rattle.mailbox.specs.declared.place.View.TheVariants.{Fresh};

use crossbeam_queue::protocol::{Lesson, Outcome, Protocol, Split};
use crossbeam_queue::{Pass, RuledArrayQueue};
use published_pair::{Front, Told};
use std::collections::LinkedList;

/// What the place holds: while the mailbox is opened the pair's name, and from then on what was put.
#[derive(Drop)]
pub enum Letter {
    Opens(Told),
    Brings(Told),
}

/// What the putting end's pass knows: the pair, and all that it has put, in order.
pub struct Putting {
    pub pair: Front,
    pub put: LinkedList<Told>,
}

/// What the taking end's pass knows: the pair, and all that it has taken, in order.
pub struct Taking {
    pub pair: Front,
    pub taken: LinkedList<Told>,
}

/// What a pass knows: nothing yet, the pair alone, and then, of one end, what it has put or taken.
pub enum View {
    Fresh,
    Opening(Front),
    Whole(Front),
    Puts(Putting),
    /// It has removed what the place held, and puts one more next.
    Replaces(Putting),
    Takes(Taking),
}

/// The rule of a mailbox.
pub struct MailRule;

impl Protocol<Letter, View> for MailRule {
    /// The place and the passes keep the mailbox's rule.
    ghost holds = { KeepsMail };

    /// The first pass knows nothing.
    ghost first = { Fresh };
}

/// The place of a mailbox.
pub type Place = RuledArrayQueue<Letter, View, MailRule>;

/// A pass of a mailbox's place.
pub type MailPass = Pass<Letter, View>;

/// The pair's name goes in.
pub struct Names;

impl Outcome<Letter, View> for Names {
    /// The pass knows the pair.
    ghost then = { λ v x w. w ≡ naming_view x };
}

/// The pair's name comes out.
pub struct Begins;

impl Outcome<Letter, View> for Begins {
    /// The pass is that of both ends, and nothing was put.
    ghost then = { λ v x w. w ≡ named_view v };
}

/// The ends get a pass each.
pub struct Parts;

impl Split<View> for Parts {
    /// One puts.
    ghost left = { putter_view };

    /// The other takes.
    ghost right = { taker_view };
}

/// A told length is put.
pub struct Puts;

impl Outcome<Letter, View> for Puts {
    /// The putting end has put it.
    ghost then = { λ v x w. w ≡ after_letter v x };
}

/// What the place held is removed by the putting end.
pub struct Removes;

impl Outcome<Letter, View> for Removes {
    /// The putting end puts one more next.
    ghost then = { λ v x w. w ≡ removed_view v };
}

/// What the place holds is taken.
pub struct Takes;

impl Outcome<Letter, View> for Takes {
    /// It is the last that was put, of the pair, and is noted.
    ghost then = { IsTake };
}

impl Lesson<Letter, View> for Takes {
    /// An empty place tells nothing.
    ghost fact = { λ v items. ⊤ };
}
