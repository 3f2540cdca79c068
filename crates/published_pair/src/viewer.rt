//! The ends that look.
ghost use Rattle.std.specs.Prelude.{◌≡◌, ◌≤◌, ◌<◌, length, max, ◌∷◌, [], Some, IfSome, IfOk, IfErr, IsSome, MatchResult};
ghost use Rattle.std.proofs.Props.{props};
ghost use Rattle.cube_view.specs.Bag.{Counts};
ghost use Rattle.left_right.specs.Sides.{view};
ghost use Rattle.world_core.specs.PairFact.{IsPrefix};
ghost use Rattle.published_pair.specs.Pair.{names, Fresh};

use crate::book::{Front, Whole};
use crate::looks::Looks;
use crate::names::Names;
use crate::rule::{Look, PairRule};
use crate::stand::Stand;
use crate::told::{Closed, Last, Told};
use change_signal::Waiting;
use cube_view::{Grow, Schema};
use ghost_values::GhostValue;
use left_right::reader::{Reader, Reading};
use std::sync::{Arc, Wait};

/// Contracts see its book, which names the pair, the schema, the list that it was shown last and the view that counted
/// it, the longest list that it learned, and the ended list once it has learned that.
#[derive(Drop)]
pub struct Viewer<V: Grow> {
    pub(crate) reader: Reader<Stand<V>, Option<Names>, PairRule<V>>,
    pub(crate) schema: Schema,
    pub(crate) shown: Front,
    /// The view that it was shown last.
    pub(crate) shown_view: GhostValue<V>,
    pub(crate) learned: Front,
    pub(crate) last: Option<Whole>,
    pub(crate) looks: Arc<Looks>,
    ghost book: { learned.book ≡ shown.book },
    ghost within: { IfSome last (λ w. (w.book ≡ shown.book) × (learned.points ≡ w.points)) } by { Prim.hlevel props },
    ghost named: { view reader.place ≡ Some (names shown.book schema shown.points) },
}

/// A look. It is not `Drop`: end it by `leave`.
pub struct Shown<V: Grow> {
    reading: Reading<Stand<V>, Option<Names>, PairRule<V>>,
    schema: Schema,
    shown: Front,
    /// The view that is shown.
    shown_view: GhostValue<V>,
    learned: Front,
    last: Option<Whole>,
    looks: Arc<Looks>,
    /// What `Looks::begin` answered.
    began: u64,
    ghost book: { learned.book ≡ shown.book },
    ghost within: { IfSome last (λ w. (w.book ≡ shown.book) × (shown.points ≡ w.points) × (learned.points ≡ w.points)) } by { Prim.hlevel props },
    ghost named: { view reading.place ≡ Some (names shown.book schema shown.points) },
    ghost counts: { reading.part.value.history.items ≡ shown.points },
    ghost schema_is: { V.schema reading.part.value.view ≡ schema },
    ghost view_is: { reading.part.value.view ≡ shown_view.value },
}

// Where the list has ended, what was published of it is a prefix of it.
fn cover(last: &Option<Whole>, front: &Front)
    requires { IfSome last.now (λ w. w.book ≡ front.now.book) }
    ensures { IfSome last.now (λ w. IsPrefix front.now.points w.points) }
{
    if let Some(whole) = last {
        whole.covers(front);
    }
}

impl<V: Grow> Viewer<V> {
    // Enters once. The viewer comes back where the publisher is gone, or where it learned of more than the copy has.
    fn enter(self) -> Result<Shown<V>, Viewer<V>>
        ensures shown { MatchResult result (λ s. Fresh self.shown.points self.learned.points s.shown.points) (λ v. IsPrefix self.shown.points v.shown.points) }
        ensures same { IfOk result (λ s. (s.shown.book ≡ self.shown.book) × (s.learned ≡ self.learned) × (s.last ≡ self.last) × (s.schema ≡ self.schema)) }
        ensures back { IfErr result (λ v. (v.shown.book ≡ self.shown.book) × (v.learned ≡ self.learned) × (v.last ≡ self.last) × (v.schema ≡ self.schema)) }
    {
        let Viewer {
            reader,
            schema,
            shown,
            shown_view,
            learned,
            last,
            looks,
        } = self;
        let began = looks.begin();
        let reading = match reader.enter_as::<Look<V>>() {
            Ok(reading) => reading,
            Err(reader) => {
                looks.end(began);
                return Err(Viewer {
                    reader,
                    schema,
                    shown,
                    shown_view,
                    learned,
                    last,
                    looks,
                });
            }
        };
        let shown = reading.get().front.again();
        let shown_view = GhostValue::of(&reading.get().view);
        if shown.goes_on(&learned) {
            cover(&last, &shown);
            return Ok(Shown {
                reading,
                schema,
                shown,
                shown_view,
                learned,
                last,
                looks,
                began,
            });
        }
        let reader = reading.leave();
        looks.end(began);
        Err(Viewer {
            reader,
            schema,
            shown,
            shown_view,
            learned,
            last,
            looks,
        })
    }

    /// Shows a published list that goes on from all that it was shown and told of, and exactly the ended list once it
    /// has learned that. It waits for no publication: it tries again only where a publisher told of a list before it
    /// was shown, which none does.
    pub fn look<R: Wait>(self, rt: &R) -> Shown<V>
        ensures fresh { Fresh self.shown.points self.learned.points result.shown.points }
        ensures ended { IfSome self.last (λ w. result.shown.points ≡ w.points) }
        ensures same { (result.shown.book ≡ self.shown.book) × (result.learned ≡ self.learned) × (result.last ≡ self.last) × (result.schema ≡ self.schema) }
    {
        let mut viewer = self;
        let mut waiting = Waiting::new();
        for _ in rt.forever() {
            match viewer.enter() {
                Ok(shown) => return shown,
                Err(back) => {
                    viewer = back;
                    viewer.looks.pause(rt, &mut waiting);
                }
            }
        }
        unreachable!()
    }

    /// Learns of a published list. What it learned before and this one are prefixes of the longest.
    pub fn learn(&mut self, told: Told)
        requires { told.front.book ≡ self.old.shown.book }
        ensures learned { IsPrefix self.old.learned.points self.new.learned.points × IsPrefix told.front.points self.new.learned.points }
        ensures greatest { length self.new.learned.points ≡ max (length self.old.learned.points) (length told.front.points) }
        ensures same { (self.new.shown ≡ self.old.shown) × (self.new.last ≡ self.old.last) × (self.new.schema ≡ self.old.schema) }
        ensures view { self.new.shown_view ≡ self.old.shown_view }
    {
        let Told { front } = told;
        cover(&self.last, &front);
        self.learned = self.learned.again().longer(front);
    }

    /// Learns the ended list. Whatever it was shown or told of is a prefix of it.
    pub fn learn_last(&mut self, last: Last)
        requires { last.whole.book ≡ self.old.shown.book }
        ensures learned { IsPrefix self.old.learned.points self.new.learned.points × (self.new.learned.points ≡ last.whole.points) }
        ensures last { self.new.last ≡ Some last.whole }
        ensures same { (self.new.shown ≡ self.old.shown) × (self.new.schema ≡ self.old.schema) }
        ensures view { self.new.shown_view ≡ self.old.shown_view }
    {
        let Last { front, whole } = last;
        whole.covers(&self.learned);
        self.learned = front;
        self.last = Some(whole);
    }

    /// How long the longest list is that it learned of.
    pub fn told(&self) -> u64
        ensures { result ≡ length self.now.learned.points }
    {
        self.learned.len()
    }

    /// How long the list is that it was shown last.
    pub fn seen(&self) -> u64
        ensures { result ≡ length self.now.shown.points }
    {
        self.shown.len()
    }

    /// The pair's schema.
    pub fn schema(&self) -> &Schema
        ensures { result.now ≡ self.now.schema }
    {
        &self.schema
    }

    /// Whatever it was shown or told of is a prefix of the ended list.
    pub fn close<R: Wait>(self, _rt: &R) -> Closed
        requires { IsSome self.last }
        ensures seen { result.seen ≡ length self.shown.points }
        ensures within { IfSome self.last (λ w. Fresh self.shown.points self.learned.points w.points) }
    {
        cover(&self.last, &self.shown);
        cover(&self.last, &self.learned);
        Closed {
            seen: self.shown.len(),
        }
    }
}

impl<V: Grow> Shown<V> {
    /// The view. It counts exactly the shown list, and has the pair's schema.
    pub fn view(&self) -> &V
        ensures view { result.now ≡ self.now.shown_view.value }
        ensures counts { Counts (V.weight_at result.now) (V.seen result.now) self.now.shown.points }
        ensures schema { V.schema result.now ≡ self.now.schema }
    {
        &self.reading.get().view
    }

    /// Ends the look.
    pub fn leave(self) -> Viewer<V>
        ensures same { (result.shown ≡ self.shown) × (result.learned ≡ self.learned) × (result.last ≡ self.last) × (result.schema ≡ self.schema) }
        ensures view { result.shown_view ≡ self.shown_view }
    {
        let Shown {
            reading,
            schema,
            shown,
            shown_view,
            learned,
            last,
            looks,
            began,
        } = self;
        let reader = reading.leave();
        looks.end(began);
        Viewer {
            reader,
            schema,
            shown,
            shown_view,
            learned,
            last,
            looks,
        }
    }
}
