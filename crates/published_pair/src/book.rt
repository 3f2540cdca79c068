//! What was published, as a history that only proofs read and that only grows, until it ends. What runs keeps two
//! lengths alone.
ghost use Rattle.std.specs.Prelude.{◌≡◌, ◌+◌, ◌<◌, ◌≤◌, ◌^◌, ◌++◌, ◌∷◌, [], length, max, drop, MatchBool, IfSome, Some, None};
ghost use Rattle.left_right.specs.Sides.{view};
ghost use Rattle.cube_view.specs.Bag.{most_points};
ghost use Rattle.world_core.specs.PairFact.{IsPrefix};
ghost use Rattle.published_pair.specs.Notes.{batches_of, open_of};
ghost use Rattle.published_pair.specs.Rules.{first_word_of, known, Known};

use crate::note::Note;
use crate::publisher::PairWriter;
use cube_view::{Grow, Point};
use ghost_values::GhostList;
use logbook::{Gain, Offer, Plain, Play, Rule, Seen, Start, Word};
use std::marker::Model;
use std::sync::Wait;

/// The rule of the book: its word is the length of the history, and nothing follows an end.
pub struct Law;

impl Rule<Note, u64> for Law {
    ghost use Rattle.std.specs.Prelude.{[]};
    ghost use base.Fml.{ftrue};
    ghost use Rattle.published_pair.specs.Rules.{IsKept};

    ghost holds = { λ cells log. IsKept cells log };

    ghost first = { [] };

    ghost hinted = { λ n log. Unit {0} };

    ghost shows = { λ log. [] };

    ghost keeps = { λ names log. ftrue };

    ghost moves = { λ ask before after answer. Unit {0} };
}

/// Callers trade nothing.
pub struct Nothing;

impl Gain<Note, u64> for Nothing {
    ghost use base.Fml.{ftrue};

    ghost after = { λ names about answer. ftrue };
}

/// A step that adds a note.
pub struct Add;

impl Play<Note, u64> for Add {
    ghost use Rattle.published_pair.specs.Rules.{AddsNote};

    ghost then = { AddsNote };
}

impl Plain<GhostList<Point>, Note, u64> for Add {
    ghost use Rattle.std.specs.Prelude.{None};
    ghost use Rattle.published_pair.specs.declared.note.Note.TheVariants.{Published};

    ghost ask = { λ batch. Published batch.items };

    ghost state = { λ batch. None };
}

/// What the step asks that ends the history.
pub struct Close;

impl Plain<(), Note, u64> for Close {
    ghost use Rattle.std.specs.Prelude.{None};
    ghost use Rattle.published_pair.specs.declared.note.Note.TheVariants.{Ended};

    ghost ask = { λ nothing. Ended };

    ghost state = { λ nothing. None };
}

/// The word of a book. Contracts see which book it is.
#[derive(Drop)]
pub struct Head {
    word: Word<Note, u64, Law>,
    ghost head_is: { word ≡ first_word_of word.book },
}

/// A list that was published. Contracts see its book, which names the pair, and its points.
#[derive(Drop)]
pub struct Front {
    count: u64,
    notes: u64,
    seen: Seen<Note, u64, Law>,
}

impl Model for Front {
    ghost use Rattle.std.specs.Prelude.{◌≡◌, ◌≤◌, length};
    ghost use Rattle.published_pair.specs.Rules.{Known, known};
    ghost use Rattle.published_pair.specs.Notes.{noted_points, batches_of, open_of};

    ghost Value = { Known };

    ghost view = { λ f. known f.seen.book (noted_points f.seen.log) };

    ghost invariant = { λ f. (f.count ≡ length (noted_points f.seen.log)) × (f.notes ≡ length f.seen.log) × (f.seen.log ≡ open_of (batches_of f.seen.log)) × (f.notes ≤ f.count) };
}

/// The list of a publisher that has ended. Contracts see its book and its points.
#[derive(Drop)]
pub struct Whole {
    count: u64,
    seen: Seen<Note, u64, Law>,
}

impl Model for Whole {
    ghost use Rattle.std.specs.Prelude.{◌≡◌, length};
    ghost use Rattle.published_pair.specs.Rules.{Known, known};
    ghost use Rattle.published_pair.specs.Notes.{noted_points, batches_of, ended_of};

    ghost Value = { Known };

    ghost view = { λ w. known w.seen.book (noted_points w.seen.log) };

    ghost invariant = { λ w. (w.count ≡ length (noted_points w.seen.log)) × (w.seen.log ≡ ended_of (batches_of w.seen.log)) };
}

/// A book in which nothing is published.
pub fn open_book() -> (Head, Front)
    ensures empty { result.1.points ≡ [] }
    ensures book { result.0.word ≡ first_word_of result.1.book }
{
    let (seen, mut first, _second) = Seen::open(Start::alone(), 0, 0);
    let head = Head {
        word: Word::tracked(0, &mut first),
    };
    let front = Front {
        count: 0,
        notes: 0,
        seen,
    };
    (head, front)
}

impl Front {
    /// How many points there are.
    pub fn len(&self) -> u64
        ensures { result ≡ length self.now.points }
    {
        self.count
    }

    /// The same list once more. It takes no memory.
    pub fn again(&self) -> Front
        ensures { result ≡ self.now }
    {
        Front {
            count: self.count,
            notes: self.notes,
            seen: self.seen.again(),
        }
    }

    /// Whether it is no shorter than the other. Then the other is a prefix of it.
    pub fn goes_on(&self, older: &Front) -> bool
        requires { older.now.book ≡ self.now.book }
        ensures { MatchBool result (IsPrefix older.now.points self.now.points) (length self.now.points < length older.now.points) }
    {
        let mut both = self.seen.again();
        both.learn(&older.seen);
        older.count <= self.count
    }

    /// The longer of the two. Both are prefixes of it.
    pub fn longer(self, other: Front) -> Front
        requires { other.book ≡ self.book }
        ensures book { result.book ≡ self.book }
        ensures this { IsPrefix self.points result.points }
        ensures that { IsPrefix other.points result.points }
        ensures length { length result.points ≡ max (length self.points) (length other.points) }
    {
        let mut both = self.seen.again();
        both.learn(&other.seen);
        if self.count < other.count {
            other
        } else {
            self
        }
    }

    // Adds a batch behind all that was published, unless more was published than is seen here.
    fn try_add(&self, head: &Head, batch: &GhostList<Point>, size: u64) -> Option<Front>
        requires book { head.now.word ≡ first_word_of self.now.book }
        requires size { (size ≡ length batch.now.items) × (0 < size) }
        requires room { length self.now.points + size ≤ most_points }
        ensures { IfSome result (λ f. f ≡ known self.now.book (self.now.points ++ batch.now.items)) }
    {
        let seen = self.seen.again();
        let offer: Offer<Note, u64, Law, Nothing> = seen.plain::<Nothing, GhostList<Point>, Add>(
            batch,
        );
        let Some(seen) = write_behind(head, seen, self.notes, offer) else {
            return None;
        };
        Some(Front {
            count: self.count + size,
            notes: self.notes + 1,
            seen,
        })
    }

    /// Publishes a batch after all that was published. Whoever has the head is alone, so it succeeds at once.
    pub fn add<R: Wait>(&self, rt: &R, head: &Head, batch: &GhostList<Point>, size: u64) -> Front
        requires book { head.now.word ≡ first_word_of self.now.book }
        requires size { size ≡ length batch.now.items }
        requires room { length self.now.points + size ≤ most_points }
        ensures { result ≡ known self.now.book (self.now.points ++ batch.now.items) }
    {
        if size == 0 {
            return self.again();
        }
        for _ in rt.forever() {
            if let Some(front) = self.try_add(head, batch, size) {
                return front;
            }
        }
        unreachable!()
    }

    // Ends the history, unless more was published than is seen here.
    fn try_end(&self, head: &Head) -> Option<Whole>
        requires book { head.now.word ≡ first_word_of self.now.book }
        requires room { length self.now.points ≤ most_points }
        ensures { IfSome result (λ w. w ≡ self.now) }
    {
        let seen = self.seen.again();
        let offer: Offer<Note, u64, Law, Nothing> = seen.plain::<Nothing, (), Close>(&());
        let Some(seen) = write_behind(head, seen, self.notes, offer) else {
            return None;
        };
        Some(Whole {
            count: self.count,
            seen,
        })
    }

    /// Ends the history behind all that was published. Whoever has the head is alone, so it succeeds at once.
    pub fn end<R: Wait>(&self, rt: &R, head: &Head) -> Whole
        requires book { head.now.word ≡ first_word_of self.now.book }
        requires room { length self.now.points ≤ most_points }
        ensures { result ≡ self.now }
    {
        for _ in rt.forever() {
            if let Some(whole) = self.try_end(head) {
                return whole;
            }
        }
        unreachable!()
    }
}

// Writes the offered note behind all that is seen, and tells what is seen then; or nothing, if more had been written.
fn write_behind(
    head: &Head,
    mut seen: Seen<Note, u64, Law>,
    notes: u64,
    mut offer: Offer<Note, u64, Law, Nothing>,
) -> Option<Seen<Note, u64, Law>>
    requires book { head.now.word ≡ first_word_of seen.book }
    requires open { seen.log ≡ open_of (batches_of seen.log) }
    requires notes { (notes ≡ length seen.log) × (notes ≤ most_points) }
    requires offer { (offer.names ≡ seen.names) × (offer.state ≡ None) }
    ensures book { IfSome result (λ s. s.book ≡ seen.book) }
    ensures log { IfSome result (λ s. s.log ≡ seen.log ++ offer.ask ∷ []) }
{
    let mut pen = seen.no_pen();
    let found = head
        .word
        .compare_exchange::<Add, Nothing>(notes, notes + 1, &mut seen, &mut offer, &mut pen);
    if found != notes {
        return None;
    }
    Some(seen)
}

/// Ends the history of a pair whose shown copy has all that was sent.
pub fn end_book<V: Grow, R: Wait>(rt: &R, writer: &PairWriter<V>, head: &Head) -> Whole
    requires sent { drop writer.now.behind writer.now.log.items ≡ [] }
    requires book { head.now.word ≡ first_word_of writer.now.desk.shown.value.front.book }
    requires room { length writer.now.desk.shown.value.front.points ≤ most_points }
    ensures { result ≡ writer.now.desk.shown.value.front }
{
    writer.published().front.end(rt, head)
}

impl Whole {
    /// How many points there are.
    pub fn len(&self) -> u64
        ensures { result ≡ length self.now.points }
    {
        self.count
    }

    /// The same list once more. It takes no memory.
    pub fn again(&self) -> Whole
        ensures { result ≡ self.now }
    {
        Whole {
            count: self.count,
            seen: self.seen.again(),
        }
    }

    /// Whatever was published in its history is a prefix of it.
    pub fn covers(&self, front: &Front)
        requires { front.now.book ≡ self.now.book }
        ensures { IsPrefix front.now.points self.now.points }
    {
        let mut both = self.seen.again();
        both.learn(&front.seen);
    }
}
