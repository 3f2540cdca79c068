//! The two ends of a mailbox.
ghost use Rattle.std.specs.Prelude.{◌≡◌, ◌≤◌, [], ◌∷◌, ◌++◌, length, IfOk, IfSome};
ghost use Rattle.mailbox.specs.Ends.{and_taken, mail_in, mail_out};
ghost use Rattle.mailbox.specs.Rule.{WasPutLast};
ghost use Rattle.texts.specs.Counts.{next_count};

use crate::place::{Begins, Letter, MailPass, Names, Parts, Place, Puts, Removes, Takes};
use cube_view::Grow;
use published_pair::{Publisher, Told};
use std::alloc::Global;
use std::marker::Model;
use std::sync::{Arc, Wait};
use texts::NoMemory;

/// The end that puts told lengths. Contracts see the mailbox's name, the pair's, and the lengths that were put.
#[derive(Drop)]
pub struct MailIn {
    place: Arc<Place>,
    pass: MailPass,
    mark: Told,
}

impl Model for MailIn {
    ghost use Rattle.std.specs.Prelude.{◌≡◌};
    ghost use Rattle.std.specs.Arc.{arc_value};
    ghost use Rattle.crossbeam_queue.specs.Passes.{IsPassOf, ruled_capacity};
    ghost use Rattle.mailbox.specs.Ends.{InEnd, in_of, KnowsPut};

    ghost Value = { InEnd };

    ghost view = { λ e. in_of e.pass e.mark.front.book };

    ghost invariant = { λ e. IsPassOf (arc_value e.place) e.pass × KnowsPut e.pass e.mark.front × (ruled_capacity (arc_value e.place) ≡ 1) };
}

impl MailIn {
    /// Puts the told length in place of what the mailbox holds.
    pub fn put<R: Wait>(&mut self, rt: &R, told: Told)
        requires { told.front.book ≡ self.old.pair }
        ensures { self.new ≡ mail_in self.old.mailbox self.old.pair (self.old.lengths ++ length told.front.points ∷ []) }
    {
        self.place
            .force_push_as::<Puts, Removes, R>(rt, &mut self.pass, Letter::Brings(told));
    }
}

/// The end that takes what was put last. Contracts see the mailbox's name, the pair's, how often it was asked, and what
/// was taken.
#[derive(Drop)]
pub struct MailOut {
    place: Arc<Place>,
    pass: MailPass,
    mark: Told,
    takes: u64,
}

impl Model for MailOut {
    ghost use Rattle.std.specs.Arc.{arc_value};
    ghost use Rattle.crossbeam_queue.specs.Passes.{IsPassOf};
    ghost use Rattle.mailbox.specs.Ends.{OutEnd, out_of, KnowsTaken};

    ghost Value = { OutEnd };

    ghost view = { λ e. out_of e.pass e.mark.front.book e.takes };

    ghost invariant = { λ e. IsPassOf (arc_value e.place) e.pass × KnowsTaken e.pass e.mark.front };
}

impl MailOut {
    /// Takes what the mailbox holds, which is the last that was put: by its rule, as `mail_laws` tells, since no clause
    /// of one end can name what the other did. `None` only where it was empty at one moment of the call.
    pub fn take<R: Wait>(&mut self, rt: &R) -> Option<Told>
        ensures last { IfSome result (WasPutLast self.old.pair self.old.taken) }
        ensures end { self.new ≡ mail_out self.old.mailbox self.old.pair (next_count self.old.takes) (and_taken self.old.taken result) }
        ensures rises { self.old.takes ≤ self.new.takes }
    {
        self.takes = self.takes.saturating_add(1);
        match self.place.pop_as::<Takes, R>(rt, &mut self.pass) {
            Some(Letter::Brings(told)) => Some(told),
            Some(Letter::Opens(_)) => unreachable!(),
            None => None,
        }
    }

    /// How often `take` was called; at 2^64 - 1 it stands still.
    pub fn takes(&self) -> u64
        ensures { result ≡ self.now.takes }
    {
        self.takes
    }
}

/// A mailbox of the publisher's pair, in which nothing was put.
pub fn open_mail<V: Grow>(
    alloc: Global,
    publisher: &Publisher<V>,
) -> Result<(MailIn, MailOut), NoMemory>
    ensures put { IfOk result (λ ends. ends.0 ≡ mail_in ends.1.mailbox publisher.now.published.book []) }
    ensures take { IfOk result (λ ends. ends.1 ≡ mail_out ends.1.mailbox publisher.now.published.book 0 []) }
{
    let (place, mut pass) = Place::ruled(alloc, 1)?;
    match place.try_push_as::<Names>(&mut pass, Letter::Opens(publisher.tell())) {
        Ok(()) => {}
        Err(_) => return Err(NoMemory),
    }
    match place.try_pop_as::<Begins>(&mut pass) {
        Some(_) => {}
        None => return Err(NoMemory),
    }
    let taking = place.another::<Parts>(&mut pass);
    let place = Arc::new(alloc, place)?;
    let shared = Arc::try_clone(&place)?;
    Ok((
        MailIn {
            place,
            pass,
            mark: publisher.tell(),
        },
        MailOut {
            place: shared,
            pass: taking,
            mark: publisher.tell(),
            takes: 0,
        },
    ))
}
