//! A feeder's work, run in place.
ghost use Rattle.std.specs.Prelude.{◌≡◌, ◌+◌, ◌-◌, ◌^◌, ◌<◌, ◌≤◌, [], true, false, length, IsTrue, MatchBool};
ghost use Rattle.cube_view.specs.Validity.{valid};
ghost use Rattle.feed_reader.specs.Rows.{IsValidRow};
ghost use Rattle.outer_io.specs.Lines.{input_limit};
ghost use Rattle.crew_feeder.specs.Leaving.{HasFed, IsFeeding};
ghost use Rattle.crew_feeder.specs.Taking.{IsReady, having_ended, having_fed, having_taken_row, new_work};

use crate::FeedDone;
use cube_view::{Point, Schema};
use feed_queue::{Ended, FeedEnd, Item};
use feed_reader::{FeedCounts, FeedJob, FirstRefusals, Header, Refusal, Row, next_row};
use ghost_values::GhostValue;
use outer_io::{CutFault, LineCutter, Source};
use std::alloc::Global;
use std::sync::Wait;
use world_core::Entry;

/// A feeder's job with its end of a lane and what it has counted so far, before its run or after it.
pub struct FeedWork<I: Source> {
    pub cutter: LineCutter<I>,
    pub header: Header,
    pub end: FeedEnd,
    pub blank: u64,
    pub refused: u64,
    pub first: FirstRefusals,
    pub fault: Option<CutFault>,
}

/// Sends an entry of the point.
fn send_point<R: Wait>(rt: &R, end: &mut FeedEnd, point: Point)
    requires open { end.old.ended ≡ false }
    requires few { length end.old.points < 2 ^ 32 - 1 }
    requires valid { IsTrue (valid end.old.schema point) }
    ensures { end.new ≡ having_fed end.old point }
{
    let entry = Entry {
        feeder: end.feeder(),
        number: end.sent(),
        point,
    };
    end.send(rt, Item::One(entry));
}

/// Sends the End, which tells how many entries were sent.
fn send_end<R: Wait>(rt: &R, end: &mut FeedEnd)
    requires { end.old.ended ≡ false }
    ensures { end.new ≡ having_ended end.old }
{
    let (feeder, sent) = (end.feeder(), end.sent());
    end.send(rt, Item::End(feeder, sent));
}

impl<I: Source> FeedWork<I> {
    /// A work that is not run yet. It takes no memory: the room for the refusals is given.
    pub fn new(job: FeedJob<I>, end: FeedEnd, first: FirstRefusals) -> FeedWork<I>
        requires { first ≡ [] }
        ensures { result ≡ new_work job end }
    {
        let FeedJob { cutter, header } = job;
        FeedWork {
            cutter,
            header,
            end,
            blank: 0,
            refused: 0,
            first,
            fault: None,
        }
    }

    /// Sends the row's point, or counts the row.
    fn take_row<R: Wait>(&mut self, rt: &R, row: Row, line: u64)
        requires open { self.old.end.ended ≡ false }
        requires few { length self.old.end.points < 2 ^ 32 - 1 }
        requires counts { (self.old.blank < 2 ^ 32) × (self.old.refused < 2 ^ 32) }
        requires valid { IsValidRow self.old.end.schema row }
        ensures { self.new ≡ having_taken_row self.old line row }
    {
        match row {
            Row::Blank => self.blank += 1,
            Row::Point(point) => send_point(rt, &mut self.end, point),
            Row::Refused(fault) => {
                self.refused += 1;
                self.first.keep(Refusal { line, fault });
            }
        }
    }

    /// Takes the row of the next line, and says whether there was one. A fault is noted.
    fn take_next<R: Wait>(
        &mut self,
        rt: &R,
        alloc: Global,
        schema: &Schema,
        start: &GhostValue<FeedWork<I>>,
    ) -> bool
        requires ready { IsReady schema.now start.now.value }
        requires feeding { IsFeeding I.left I.faults start.now.value self.old }
        ensures fed { MatchBool result (IsFeeding I.left I.faults start.now.value self.new) (HasFed I.left I.faults false start.now.value self.new) }
        ensures given { IsTrue result → (self.old.cutter.given < self.new.cutter.given) × (self.new.cutter.given ≤ input_limit) }
    {
        match next_row(alloc, schema, &self.header, &mut self.cutter) {
            Ok(Some((row, line))) => {
                self.take_row(rt, row, line);
                true
            }
            Ok(None) => false,
            Err(fault) => {
                self.fault = Some(fault);
                false
            }
        }
    }

    /// Takes the rows of all lines that are left, up to the first fault.
    fn take_rows<R: Wait>(&mut self, rt: &R, alloc: Global, schema: &Schema)
        requires { IsReady schema.now self.old }
        ensures { HasFed I.left I.faults false self.old self.new }
    {
        let start = self.begun(schema);
        'rows: loop {
            if !self.take_next(rt, alloc, schema, &start) {
                return;
            }
        }
    }

    /// Takes the rows of at most so many lines, and says whether they were all that are left, up to the first fault.
    fn take_some<R: Wait>(
        &mut self,
        rt: &R,
        alloc: Global,
        schema: &Schema,
        lines: usize,
        start: &GhostValue<FeedWork<I>>,
    ) -> bool
        requires ready { IsReady schema.now start.now.value }
        requires feeding { IsFeeding I.left I.faults start.now.value self.old }
        ensures { MatchBool result (HasFed I.left I.faults false start.now.value self.new) (IsFeeding I.left I.faults start.now.value self.new) }
    {
        for _ in 0..lines {
            if !self.take_next(rt, alloc, schema, start) {
                return true;
            }
        }
        false
    }

    /// Sends an entry for each point among the rows that are left, and at last the End, also where the feed ends by a
    /// fault. It waits while the lane's queue is full.
    pub fn run<R: Wait>(&mut self, rt: &R, alloc: Global, schema: &Schema)
        requires { IsReady schema.now self.old }
        ensures { HasFed I.left I.faults true self.old self.new }
    {
        self.take_rows(rt, alloc, schema);
        send_end(rt, &mut self.end);
    }

    /// The work as it is before its run, which contracts of the parts of a run read.
    pub fn begun(&self, schema: &Schema) -> GhostValue<FeedWork<I>>
        requires { IsReady schema.now self.now }
        ensures value { result.value ≡ self.now }
        ensures feeding { IsFeeding I.left I.faults result.value self.now }
    {
        GhostValue::of(self)
    }

    /// Does a part of a run that began with a work as the carried one: it takes at most so many lines, sends the End
    /// where they are the last, and says whether they are. It waits while the lane's queue is full, as
    /// [`FeedWork::run`] does.
    pub fn run_some<R: Wait>(
        &mut self,
        rt: &R,
        alloc: Global,
        schema: &Schema,
        lines: usize,
        start: &GhostValue<FeedWork<I>>,
    ) -> bool
        requires ready { IsReady schema.now start.now.value }
        requires feeding { IsFeeding I.left I.faults start.now.value self.old }
        ensures { MatchBool result (HasFed I.left I.faults true start.now.value self.new) (IsFeeding I.left I.faults start.now.value self.new) }
    {
        if !self.take_some(rt, alloc, schema, lines, start) {
            return false;
        }
        send_end(rt, &mut self.end);
        true
    }

    /// The source with what was counted, and what is left of the end. It takes no memory.
    pub fn finish(self) -> (FeedDone<I>, Ended)
        requires { self.end.ended ≡ true }
        ensures source { result.0.source ≡ self.cutter.source }
        ensures accepted { result.0.counts.accepted ≡ length self.end.points }
        ensures counts { (result.0.counts.blank ≡ self.blank) × (result.0.counts.refused ≡ self.refused) }
        ensures first { result.0.counts.first ≡ self.first }
        ensures fault { result.0.counts.fault ≡ self.fault }
        ensures ended { result.1 ≡ self.end }
    {
        let FeedWork {
            cutter,
            header: _,
            end,
            blank,
            refused,
            first,
            fault,
        } = self;
        let counts = FeedCounts {
            accepted: u64::from(end.sent()),
            blank,
            refused,
            fault,
            first: first.into_list(),
        };
        let source = cutter.into_source();
        (FeedDone { source, counts }, end.finish())
    }
}
