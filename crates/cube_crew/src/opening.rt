//! What a run opens: a lane with an end for each feeder, a pair with a viewer for each session, and their mailboxes.
ghost use Rattle.std.specs.Prelude.{◌≡◌, ◌≤◌, ◌+◌, [], All, IfOk, vec_len};
ghost use Rattle.cube_crew.specs.Begins.{AreEmptyViews};
ghost use Rattle.cube_crew.specs.Opened.{AreMails, IsNewLane, IsNewTo, IsUntaken};

use crate::rooms::first_refusals;
use cube_view::{Grow, Schema};
use feed_queue::{DrawEnd, FeedEnd, open_lane};
use feed_reader::FirstRefusals;
use mailbox::{MailIn, MailOut, open_mail};
use published_pair::{Publisher, Viewer, open};
use std::alloc::Global;
use std::sync::Wait;
use texts::{List, NoMemory};

/// How many items the lane has room for.
pub(crate) const ROOM: usize = 1024;

/// The mailboxes of the asks and of the finals.
#[derive(Drop)]
pub(crate) struct Mails {
    pub ins: List<MailIn>,
    pub outs: Vec<MailOut>,
    pub final_outs: Vec<MailOut>,
}

/// A mailbox of the publisher's pair for each of so many sessions.
fn open_mails<V: Grow>(
    alloc: Global,
    publisher: &Publisher<V>,
    sessions: usize,
) -> Result<(List<MailIn>, Vec<MailOut>), NoMemory>
    ensures mails { IfOk result (λ t. AreMails publisher.now.published.book t.0 t.1.items) }
    ensures len { IfOk result (λ t. vec_len t.1 ≡ sessions) }
{
    let mut ins = List::new(alloc);
    let mut outs = Vec::new(alloc);
    for _ in 0..sessions {
        let (put, take) = open_mail(alloc, publisher)?;
        ins.add(put)?;
        outs.push(take)?;
    }
    Ok((ins, outs))
}

/// All that a run opens. Its publisher is not `Drop`.
pub(crate) struct Opened<P, W> {
    pub schema: Schema,
    pub firsts: Vec<FirstRefusals>,
    pub ends: Vec<FeedEnd>,
    pub draws: DrawEnd,
    pub publisher: P,
    pub viewers: Vec<W>,
    pub mails: Mails,
}

/// The mailboxes of so many asks and finals.
fn open_all_mails<V: Grow>(
    alloc: Global,
    publisher: &Publisher<V>,
    asks: usize,
    finals: usize,
) -> Result<Mails, NoMemory>
    ensures asks { IfOk result (λ m. AreMails publisher.now.published.book m.ins m.outs.items) }
    ensures finals { IfOk result (λ m. All (IsUntaken publisher.now.published.book) m.final_outs.items) }
    ensures len { IfOk result (λ m. (vec_len m.outs ≡ asks) × (vec_len m.final_outs ≡ finals)) }
{
    let (ins, outs) = open_mails(alloc, publisher, asks)?;
    let (_, final_outs) = open_mails(alloc, publisher, finals)?;
    Ok(Mails {
        ins,
        outs,
        final_outs,
    })
}

/// Opens the lane, the pair and the mailboxes of so many feeds, asks and finals. What can't be let go, the publisher,
/// is opened after all but the mailboxes, and finished where one of them finds no memory.
pub(crate) fn open_run<V: Grow, R: Wait>(
    rt: &R,
    alloc: Global,
    first: V,
    again: V,
    feeds: usize,
    asks: usize,
    finals: usize,
) -> Result<Opened<Publisher<V>, Viewer<V>>, NoMemory>
    requires views { AreEmptyViews V.weight_at V.seen V.schema first again }
    requires few { (1 ≤ feeds) × (feeds ≤ 8) × (asks ≤ 8) × (finals ≤ 8) }
    ensures schema { IfOk result (λ o. (o.schema ≡ V.schema first) × (o.publisher.schema ≡ V.schema first)) }
    ensures feeds { IfOk result (λ o. IsNewLane (V.schema first) feeds o.ends.items o.draws × (vec_len o.firsts ≡ feeds) × All (λ f. f ≡ []) o.firsts.items) }
    ensures publisher { IfOk result (λ o. (o.publisher.published.points ≡ []) × (o.publisher.appended.items ≡ []) × (o.publisher.viewers ≡ asks + finals)) }
    ensures viewers { IfOk result (λ o. (vec_len o.viewers ≡ asks + finals) × All (IsNewTo o.publisher.schema o.publisher.published) o.viewers.items) }
    ensures asks { IfOk result (λ o. AreMails o.publisher.published.book o.mails.ins o.mails.outs.items × (vec_len o.mails.outs ≡ asks)) }
    ensures finals { IfOk result (λ o. All (IsUntaken o.publisher.published.book) o.mails.final_outs.items × (vec_len o.mails.final_outs ≡ finals)) }
{
    let schema = first.schema().copy(alloc)?;
    let firsts = first_refusals(alloc, feeds)?;
    let (ends, draws) = open_lane(alloc, &schema, ROOM, feeds as u8)?;
    let (publisher, viewers) = open(rt, alloc, first, again, (asks + finals) as u32)?;
    match open_all_mails(alloc, &publisher, asks, finals) {
        Ok(mails) => Ok(Opened {
            schema,
            firsts,
            ends: ends.into_vec(),
            draws,
            publisher,
            viewers: viewers.into_vec(),
            mails,
        }),
        Err(NoMemory) => {
            publisher.finish(rt);
            Err(NoMemory)
        }
    }
}
