//! The end of a publisher.
ghost use Rattle.std.specs.Prelude.{◌≡◌, ◌≤◌, [], drop, length, vec_capacity, All, Some, IfErr, IfOk};
ghost use Rattle.cube_view.specs.Bag.{most_points};
ghost use Rattle.left_right.specs.Sides.{view};
ghost use Rattle.world_core.specs.PairFact.{IsPrefix};
ghost use Rattle.published_pair.specs.Rules.{first_word_of};
ghost use Rattle.published_pair.specs.Pair.{standing, names};

use crate::book::{Front, Whole, end_book};
use crate::looks::Looks;
use crate::names::Names;
use crate::publisher::{Of, Pairing, Publisher, PublisherOf, show};
use crate::stand::Sent;
use crate::told::{GivenUp, Last};
use cube_view::{Grow, Schema};
use left_right::writer::Writer;
use std::alloc::Global;
use std::sync::{Arc, Wait};
use texts::List;

/// The copies of a pairing whose publisher has ended.
pub struct RestedOf<K: Pairing> {
    writer: Writer<K::Stand, Sent, Option<Names>, K::Rule>,
    schema: Schema,
    ended: Whole,
    looks: Arc<Looks>,
    ghost shown: { K.Stand.state writer.desk.shown.value ≡ standing ended.points ended schema },
    ghost pends: { drop writer.behind writer.log.items ≡ [] },
    ghost named: { view writer.desk.place ≡ Some (names ended.book schema ended.points) },
}

/// Contracts see the ended list, whose book names the pair, and the schema. Viewers can look at it. It is not `Drop`:
/// end it by `finish`.
pub type Rested<V> = RestedOf<Of<V>>;

fn make_last(front: &Front, whole: &Whole) -> Last
    requires { front.now ≡ whole.now }
    ensures { result.whole ≡ whole.now }
{
    Last {
        front: front.again(),
        whole: whole.again(),
    }
}

// Makes what each viewer is to learn, in room that was taken before anything was shown.
fn make_lasts(room: Vec<Last>, front: &Front, whole: &Whole, viewers: u32) -> List<Last>
    requires room { (room.items ≡ []) × (viewers ≤ vec_capacity room) }
    requires same { front.now ≡ whole.now }
    ensures { (length result ≡ viewers) × All (λ l. l.whole ≡ whole.now) result }
{
    let mut all = room;
    for _ in 0..viewers {
        all.push_reserved(make_last(front, whole));
    }
    List::from_vec(all)
}

impl<V: Grow> PublisherOf<Of<V>> {
    /// Shows viewers each point that was appended, and ends the list. It gives a `Last` for each viewer of the pair,
    /// for which room is taken before anything is shown. Where memory is wanted the pair is given up, and viewers see
    /// what they saw.
    pub fn end<R: Wait>(self, rt: &R, alloc: Global) -> Result<(Rested<V>, List<Last>), GivenUp>
        ensures rested { IfOk result (λ t. (t.0.ended.points ≡ self.appended.items) × (t.0.ended.book ≡ self.published.book) × (t.0.schema ≡ self.schema)) }
        ensures lasts { IfOk result (λ t. (length t.1 ≡ self.viewers) × All (λ l. l.whole ≡ t.0.ended) t.1) }
        ensures given_up { IfErr result (λ g. (g.whole.book ≡ self.published.book) × IsPrefix g.whole.points self.appended.items) }
        ensures still_shown { IfErr result (λ g. g.shown ≡ self.published) }
    {
        match self.end_shown(rt, alloc) {
            Ok(ended) => Ok(ended),
            Err(publisher) => Err(publisher.give_up(rt)),
        }
    }

    // The same, but that the publisher comes back where memory is wanted, before anything is shown.
    fn end_shown<R: Wait>(
        self,
        rt: &R,
        alloc: Global,
    ) -> Result<(Rested<V>, List<Last>), Publisher<V>>
        ensures rested { IfOk result (λ t. (t.0.ended.points ≡ self.appended.items) × (t.0.ended.book ≡ self.published.book) × (t.0.schema ≡ self.schema)) }
        ensures lasts { IfOk result (λ t. (length t.1 ≡ self.viewers) × All (λ l. l.whole ≡ t.0.ended) t.1) }
        ensures refused { IfErr result (λ p. (p.published ≡ self.published) × (p.appended ≡ self.appended)) }
    {
        let viewers = self.viewers;
        let mut room = Vec::new(alloc);
        if room.reserve(viewers as usize).is_err() {
            return Err(self);
        }
        match self.rest(rt) {
            Ok(rested) => {
                let front = &rested.writer.published().front;
                let lasts = make_lasts(room, front, &rested.ended, viewers);
                Ok((rested, lasts))
            }
            Err(publisher) => Err(publisher),
        }
    }

    // Shows viewers each point that was appended, and ends the list.
    fn rest<R: Wait>(self, rt: &R) -> Result<Rested<V>, Publisher<V>>
        ensures rested { IfOk result (λ t. (t.ended.points ≡ self.appended.items) × (t.ended.book ≡ self.published.book) × (t.schema ≡ self.schema)) }
        ensures refused { IfErr result (λ p. (p.published ≡ self.published) × (p.appended ≡ self.appended)) }
    {
        let mut publisher = self;
        if publisher.note(rt).is_err() {
            return Err(publisher);
        }
        let PublisherOf {
            writer,
            head,
            schema,
            published,
            noted,
            since,
            alloc,
            appended,
            viewers,
            looks,
        } = publisher;
        looks.wait_for_earlier(rt);
        let (writer, outcome) = show(rt, writer, &schema, &published, &noted);
        if outcome.is_err() {
            return Err(PublisherOf {
                writer,
                head,
                schema,
                published,
                noted,
                since,
                alloc,
                appended,
                viewers,
                looks,
            });
        }
        looks.count_publication();
        let ended = end_book(rt, &writer, &head);
        Ok(RestedOf {
            writer,
            schema,
            ended,
            looks,
        })
    }
}

impl<V: Grow> RestedOf<Of<V>> {
    /// How many points the ended list has.
    pub fn len(&self) -> u64
        ensures { result ≡ length self.now.ended.points }
    {
        self.ended.len()
    }

    /// Uses the copies up. To be called once no viewer looks any more: a later look waits for ever.
    pub fn finish<R: Wait>(self, rt: &R) {
        let RestedOf {
            writer,
            schema: _schema,
            ended: _ended,
            looks,
        } = self;
        looks.wait_for_all(rt);
        writer.take(rt);
    }
}
