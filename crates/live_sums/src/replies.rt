//! The replies of one run.
ghost use Rattle.std.specs.Prelude.{◌≡◌, ◌≤◌, ◌++◌, [], Err, IfOk, OnOk, drop, length, max};
ghost use Rattle.outer_io.specs.Told.{Told};
ghost use Rattle.query_syntax.specs.declared.query.Parsed.{Parsed};
ghost use Rattle.recount.specs.Faults.{BeginsWithReply, IsPrintableReply};
ghost use Rattle.reply_json.specs.declared.reply.Reply.{Reply};
ghost use Rattle.reply_sums.specs.Sums.{AsksShallow};
ghost use Rattle.session_core.specs.Asked.{reply_line};
ghost use Rattle.session_core.specs.Transcript.{seen_in, told_in};
ghost use Rattle.share_replies.specs.Refusals.{total_of_sum};
ghost use Rattle.share_replies.specs.declared.fault.WrongReply.{WrongReply};
ghost use Rattle.texts.specs.LineFeeds.{NoFeed};
ghost use Rattle.live_sums.specs.Rests.{KeepsRest};
ghost use Rattle.live_sums.specs.Runs.{AddsNext, IsUnreadable, IsWrongNext, TakesLine, run_left};
ghost use Rattle.live_sums.specs.declared.fault.WrongShare.{WrongShare};

use crate::fault::{ReplyFault, WrongShare, fault_of_sum};
use crate::reading::read_line;
use outer_io::Source;
use query_syntax::Parsed;
use recount::{Marks, may_come, next_reply, seen_in, told_in};
use reply_json::Reply;
use run_files::{Stop, stop_of_cut};
use share_replies::{Summed, WrongReply, add_reply};
use std::alloc::Global;

/// A run's replies: what is left of them, of which some bytes are held, and the greatest numbers that were printed so
/// far.
pub(crate) struct Replies<S: Source> {
    source: S,
    held: Vec<u8>,
    marks: Marks,
}

/// A reply, and how many bytes its line has.
#[derive(Drop)]
struct FirstReply {
    reply: Reply,
    size: usize,
}

/// The reply that the bytes begin with.
fn first_reply(alloc: Global, held: &[u8]) -> Result<FirstReply, ReplyFault>
    ensures printable { IfOk result (λ first. IsPrintableReply first.reply) }
    ensures within { IfOk result (λ first. first.size ≤ length held.now) }
    ensures line { IfOk result (λ first. held.now ≡ reply_line first.reply ++ drop first.size held.now) }
    ensures none { (w : WrongShare) → result ≡ Err (ReplyFault.Wrong w) → (reply : Reply) → ¬ BeginsWithReply held.now reply }
    ensures not_reply { (w : WrongShare) → result ≡ Err (ReplyFault.Wrong w) → w ≡ WrongShare.Reply WrongReply.NotReply }
{
    let Ok(first) = next_reply(alloc, held) else {
        return Err(ReplyFault::Stopped(Stop::NoMemory));
    };
    match first {
        Some(next) => Ok(FirstReply {
            size: next.line.len(),
            reply: next.reply,
        }),
        None => Err(ReplyFault::Wrong(WrongShare::Reply(WrongReply::NotReply))),
    }
}

/// The bytes after the first n.
fn bytes_after(alloc: Global, bytes: &[u8], n: usize) -> Result<Vec<u8>, ReplyFault>
    requires { n ≤ length bytes.now }
    ensures rest { IfOk result (λ rest. rest.items ≡ drop n bytes.now) }
    ensures right { (w : WrongShare) → result ≡ Err (ReplyFault.Wrong w) → ⊥ }
{
    match Vec::from_slice(alloc, &bytes[n..]) {
        Ok(rest) => Ok(rest),
        Err(_) => Err(ReplyFault::Stopped(Stop::NoMemory)),
    }
}

/// The greatest numbers with one reply more.
fn marks_after(marks: Marks, reply: &Reply) -> Marks
    ensures seen { result.seen ≡ max marks.seen (seen_in reply.now) }
    ensures told { result.told ≡ max marks.told (told_in reply.now) }
{
    Marks {
        seen: marks.seen.max(seen_in(reply)),
        told: marks.told.max(told_in(reply)),
    }
}

impl<S: Source> Replies<S> {
    /// All replies that the source has.
    pub(crate) fn new(alloc: Global, source: S) -> Replies<S>
        ensures source { result.source ≡ source }
        ensures none { (result.held.items ≡ []) × (result.marks.seen ≡ 0) × (result.marks.told ≡ 0) }
    {
        Replies {
            source,
            held: Vec::new(alloc),
            marks: Marks { seen: 0, told: 0 },
        }
    }

    /// The source as it is now.
    pub(crate) fn into_source(self) -> S
        ensures { result ≡ self.source }
    {
        let Replies {
            source,
            held: _,
            marks: _,
        } = self;
        source
    }

    /// Reads on to the end of the next line.
    fn fill(&mut self) -> Result<(), ReplyFault>
        ensures keeps { OnOk result (KeepsRest (run_left S.left self.old) (run_left S.left self.new)) }
        ensures line { OnOk result (¬ NoFeed self.new.held.items) }
        ensures marks { self.new.marks ≡ self.old.marks }
        ensures ended { (w : WrongShare) → result ≡ Err (ReplyFault.Wrong w) → IsUnreadable S.left self.old w }
    {
        let is_whole = match read_line(&mut self.source, &mut self.held) {
            Ok(is_whole) => is_whole,
            Err(fault) => return Err(ReplyFault::Stopped(stop_of_cut(fault))),
        };
        if is_whole {
            Ok(())
        } else {
            Err(ReplyFault::Wrong(WrongShare::Reply(WrongReply::TooFew)))
        }
    }

    /// The next reply.
    fn next(&mut self, alloc: Global) -> Result<Reply, ReplyFault>
        ensures read { IfOk result (TakesLine S.left self.old self.new) }
        ensures marks { self.new.marks ≡ self.old.marks }
        ensures wrong { (w : WrongShare) → result ≡ Err (ReplyFault.Wrong w) → IsUnreadable S.left self.old w }
    {
        self.fill()?;
        let first = first_reply(alloc, self.held.as_slice())?;
        let rest = bytes_after(alloc, self.held.as_slice(), first.size)?;
        self.held = rest;
        Ok(first.reply)
    }

    /// The sum with the next reply, which answers what was asked.
    pub(crate) fn add_next(
        &mut self,
        alloc: Global,
        asked: &Parsed,
        sum: &Option<Summed>,
    ) -> Result<Option<Summed>, ReplyFault>
        requires { AsksShallow asked.now }
        ensures adds { IfOk result (AddsNext S.left asked.now self.old self.new sum.now) }
        ensures wrong { (w : WrongShare) → result ≡ Err (ReplyFault.Wrong w) → IsWrongNext S.left asked.now (total_of_sum sum.now) self.old w }
    {
        let reply = self.next(alloc)?;
        let sum = match add_reply(alloc, asked, sum, &reply) {
            Ok(sum) => sum,
            Err(fault) => return Err(fault_of_sum(fault)),
        };
        if !may_come(self.marks.seen, self.marks.told, &reply) {
            return Err(ReplyFault::Wrong(WrongShare::Behind));
        }
        self.marks = marks_after(self.marks, &reply);
        Ok(sum)
    }
}
