//! A session: a script answered line by line over what a live pair shows.
ghost use Rattle.std.specs.Prelude.{◌≡◌, ◌≢◌, ◌+◌, ◌<◌, ◌≤◌, ◌++◌, length, true, false, Ok, Err, IfOk, IfSome, IsErrOf, vec_len, vec_capacity};
ghost use Rattle.live_session.specs.Answered.{PutsFor, PutsLine};
ghost use Rattle.live_session.specs.Bounds.{RunCosts, TurnCosts};
ghost use Rattle.live_session.specs.Ending.{EndsScript};
ghost use Rattle.live_session.specs.News.{KeepsOut, seen_asked};
ghost use Rattle.live_session.specs.Reading.{ReadsNext};
ghost use Rattle.live_session.specs.Saying.{IsServed};
ghost use Rattle.live_session.specs.State.{SessionState, ends_of, new_session};
ghost use Rattle.live_session.specs.Turned.{HasFaults, HasTurned, listed};
ghost use Rattle.live_session.specs.Viewers.{AsksViewer, DoneBy, DoneFinally, IsSameViewer, KeepsFinals, KeepsSoFar, ShowsSame, news};
ghost use Rattle.outer_io.specs.Bytes.{GainsPart};
ghost use Rattle.outer_io.specs.Cutting.{IsNew};
ghost use Rattle.outer_io.specs.Lines.{input_limit};
ghost use Rattle.session_core.specs.Answering.{CountsFaults};

use crate::answering::answer_line;
use crate::asking::seen_asked;
use crate::turn::Turn;
use cube_view::{Grow, Schema};
use mailbox::MailOut;
use outer_io::{IoFault, LineCutter, Sink, Source};
use probe_core::Steps;
use published_pair::Viewer;
use query_syntax::Parsed;
use reply_json::no_memory_line;
use session_core::{Served, SessionFault, next_asked};
use std::alloc::Global;
use std::marker::Model;
use std::sync::Wait;
use std::sync::ledger::Ledger;
use texts::{List, NoMemory};

/// A script, where its replies go, and what was put so far.
pub struct Session<I: Source, O: Sink> {
    source: LineCutter<I>,
    sink: O,
    seens: Vec<u64>,
    replies: u64,
    lacked: bool,
    ended: bool,
}

impl<I: Source, O: Sink> Model for Session<I, O> {
    ghost use Rattle.std.specs.Prelude.{◌≡◌, ◌≤◌, false};
    ghost use Rattle.live_session.specs.State.{SessionState};
    ghost use Rattle.outer_io.specs.Progress.{IsGoing};

    ghost Value = { SessionState I O };

    ghost view = { λ s. record { source = s.source; sink = s.sink; seens = s.seens.items; replies = s.replies; lacked = s.lacked; ended = s.ended } };

    ghost invariant = { λ s. s.ended ≡ false → IsGoing s.source × (s.replies ≤ s.source.given) };
}

/// Room for a number, if there is one.
fn make_room(seens: &mut Vec<u64>, seen: Option<u64>) -> Result<(), NoMemory>
    ensures items { seens.new.items ≡ seens.old.items }
    ensures room { IfOk result (λ _. vec_len seens.new + length (listed seen) ≤ vec_capacity seens.new) }
{
    match seen {
        None => Ok(()),
        Some(_) => match seens.try_reserve(1) {
            Ok(()) => Ok(()),
            Err(_) => Err(NoMemory),
        },
    }
}

/// Adds the number, if there is one.
fn note(seens: &mut Vec<u64>, seen: Option<u64>)
    requires { vec_len seens.old + length (listed seen) ≤ vec_capacity seens.old }
    ensures { seens.new.items ≡ seens.old.items ++ listed seen }
{
    if let Some(n) = seen {
        seens.push_reserved(n);
    }
}

impl<I: Source, O: Sink> Session<I, O> {
    /// A session that has answered nothing, over a cutter that has given nothing.
    pub fn new(alloc: Global, source: LineCutter<I>, sink: O) -> Session<I, O>
        requires { IsNew source.source source }
        ensures { result ≡ new_session source sink }
    {
        Session {
            source,
            sink,
            seens: Vec::new(alloc),
            replies: 0,
            lacked: false,
            ended: false,
        }
    }

    /// The numbers of points seen that its replies printed, in order.
    pub fn seens(&self) -> &[u64]
        ensures { result.now ≡ self.now.seens }
    {
        self.seens.as_slice()
    }

    /// How many replies it put.
    pub fn replies(&self) -> u64
        ensures { result ≡ self.now.replies }
    {
        self.replies
    }

    /// Whether a reply was the line for want of memory, or a turn found none.
    pub fn lacked(&self) -> bool
        ensures { result ≡ self.now.lacked }
    {
        self.lacked
    }

    /// Its script and its sink as they are now.
    pub fn into_parts(self) -> (I, O)
        ensures { (result.0 ≡ self.source.source) × (result.1 ≡ self.sink) }
    {
        let Session {
            source,
            sink,
            seens: _,
            replies: _,
            lacked: _,
            ended: _,
        } = self;
        (source.into_source(), sink)
    }

    /// What the next line means, or none where the session is at its end.
    fn read_next(&mut self, schema: &Schema) -> Result<Option<Parsed>, SessionFault>
        requires { self.old.ended ≡ false }
        ensures reads { ReadsNext I.left I.faults schema.now self.old self.new result }
        ensures same { (self.new.sink ≡ self.old.sink) × (self.new.seens ≡ self.old.seens) × (self.new.replies ≡ self.old.replies) }
        ensures faults { HasFaults I.left I.faults O.held O.faults self.old self.new result }
        ensures no_write { result ≢ Err SessionFault.Write }
    {
        let mut parsed = Parsed::Skip;
        match next_asked(schema, &mut self.source, &mut parsed) {
            Ok(true) => Ok(Some(parsed)),
            Ok(false) => {
                self.ended = true;
                Ok(None)
            }
            Err(SessionFault::NoMemory) => {
                self.ended = true;
                self.lacked = true;
                Err(SessionFault::NoMemory)
            }
            Err(fault) => {
                self.ended = true;
                Err(fault)
            }
        }
    }

    /// Puts the line of a reply, in one put, and counts it. Room for its number is taken before.
    fn put(&mut self, line: &[u8], seen: Option<u64>) -> Result<Turn, SessionFault>
        requires open { self.old.ended ≡ false }
        requires room { (self.old.replies < self.old.source.given) × (self.old.source.given ≤ input_limit) }
        ensures put { IfOk result (PutsLine O.held self.old self.new line.now seen) }
        ensures source { self.new.source ≡ self.old.source }
        ensures write { IsErrOf result SessionFault.Write → GainsPart (O.held self.old.sink) (O.held self.new.sink) line.now × (self.new.lacked ≡ self.old.lacked) }
        ensures faults { HasFaults I.left I.faults O.held O.faults self.old self.new result }
        ensures others { (result ≢ Err SessionFault.Read) × (result ≢ Err SessionFault.TooMuch) }
        ensures name { O.name self.new.sink ≡ O.name self.old.sink }
    {
        match make_room(&mut self.seens, seen) {
            Ok(()) => {}
            Err(NoMemory) => {
                self.ended = true;
                self.lacked = true;
                return Err(SessionFault::NoMemory);
            }
        }
        match self.sink.put(line) {
            Ok(()) => {
                note(&mut self.seens, seen);
                self.replies += 1;
                Ok(Turn::Replied)
            }
            Err(IoFault::Failed) => {
                self.ended = true;
                Err(SessionFault::Write)
            }
            Err(IoFault::NoMemory) => {
                self.ended = true;
                self.lacked = true;
                Err(SessionFault::NoMemory)
            }
        }
    }

    /// Puts what is answered to a line by a viewer that was shown and told what the reply prints. A reply that found no
    /// memory is the line that says so. The memory of a reply's line goes back to `room`.
    fn finish<V: Grow>(
        &mut self,
        viewer: &Viewer<V>,
        parsed: &Parsed,
        served: Result<Served, NoMemory>,
        room: &mut List<u8>,
    ) -> Result<Turn, SessionFault>
        requires open { self.old.ended ≡ false }
        requires room { (self.old.replies < self.old.source.given) × (self.old.source.given ≤ input_limit) }
        requires served { IsServed viewer.now parsed.now served }
        ensures puts { PutsFor O.held viewer.now self.old self.new parsed.now result }
        ensures source { self.new.source ≡ self.old.source }
        ensures faults { HasFaults I.left I.faults O.held O.faults self.old self.new result }
        ensures others { (result ≢ Err SessionFault.Read) × (result ≢ Err SessionFault.TooMuch) }
        ensures name { O.name self.new.sink ≡ O.name self.old.sink }
    {
        match served {
            Ok(Served::Skipped) => Ok(Turn::Skipped),
            Ok(Served::Reply(line)) => {
                let seen = seen_asked(viewer.seen(), parsed);
                let turn = self.put(line.as_slice(), seen);
                *room = line;
                turn
            }
            Ok(Served::Quit) => {
                self.ended = true;
                Ok(Turn::Ended)
            }
            Err(NoMemory) => {
                self.lacked = true;
                self.put(no_memory_line().as_bytes(), None)
            }
        }
    }

    /// Reads one line of the script, learns what the mailbox holds and looks once where the line asks for it, and puts
    /// its reply, if it asks for one. The viewer comes back with every answer. `Ended` comes at `quit`, at the script's
    /// end and on an ended session; a fault is answered once, and from then on the session has ended. `NoMemory` comes
    /// where the line, its meaning, the list of seen numbers or the sink found none. The memory of `room` is used from
    /// reply to reply.
    pub fn turn<V: Grow, R: Wait, L: Ledger>(
        &mut self,
        rt: &R,
        alloc: Global,
        viewer: Viewer<V>,
        mail: &mut MailOut,
        steps: &mut Steps<L>,
        room: &mut List<u8>,
    ) -> (Viewer<V>, Result<Turn, SessionFault>)
        requires { viewer.shown.book ≡ mail.old.pair }
        ensures turned { HasTurned (ends_of I.Source O.Sink) result.0 viewer.schema (news viewer mail.old) (news result.0 mail.new) self.old self.new result.1 }
        ensures ended { self.old.ended ≡ true → (result.1 ≡ Ok Turn.Ended) × (self.new ≡ self.old) × (mail.new ≡ mail.old) × ShowsSame viewer result.0 }
        ensures faults { HasFaults I.left I.faults O.held O.faults self.old self.new result.1 × (O.name self.new.sink ≡ O.name self.old.sink) }
        ensures viewer { IsSameViewer viewer result.0 × AsksViewer I.Source viewer mail.old self.old result.0 mail.new self.new }
        ensures costs { TurnCosts I.Source result.0 mail.old mail.new self.old self.new steps.old steps.new result.1 }
        ensures so_far { KeepsSoFar (ends_of I.Source O.Sink) V.is_stat viewer (news viewer mail.old) (news result.0 mail.new) self.old self.new result.1 }
        ensures finals { KeepsFinals (ends_of I.Source O.Sink) V.is_stat viewer mail.old mail.new self.old self.new result.1 }
    {
        if self.ended {
            return (viewer, Ok(Turn::Ended));
        }
        match self.read_next(viewer.schema()) {
            Ok(Some(parsed)) => {
                let (viewer, served) = answer_line(rt, alloc, viewer, mail, &parsed, steps, room);
                let turn = self.finish(&viewer, &parsed, served, room);
                (viewer, turn)
            }
            Ok(None) => (viewer, Ok(Turn::Ended)),
            Err(fault) => (viewer, Err(fault)),
        }
    }

    /// Takes turns to the script's end or a fault. Where it ends without a fault, or with too much, all that the script
    /// asks is answered. A script that it goes over from its front is refused where there was too much, and is not
    /// where it ends without a fault. Of a viewer that has learned the ended list, the replies are a final transcript
    /// over it: each number of points that they print is its length. It takes at most the steps of the lines that it
    /// read, each over the view that was looked at for it.
    pub fn run<V: Grow, R: Wait, L: Ledger>(
        &mut self,
        rt: &R,
        alloc: Global,
        viewer: Viewer<V>,
        mail: &mut MailOut,
        steps: &mut Steps<L>,
    ) -> (Viewer<V>, Result<(), SessionFault>)
        requires { (viewer.shown.book ≡ mail.old.pair) × (self.old.ended ≡ false) }
        ensures done { DoneBy (ends_of I.Source O.Sink) V.is_stat viewer mail.old (news result.0 mail.new) self.old self.new result.1 }
        ensures finals { DoneFinally (ends_of I.Source O.Sink) V.is_stat viewer mail.old mail.new self.old self.new result.1 }
        ensures script { EndsScript I.left viewer.schema self.old self.new result.1 }
        ensures causes { CountsFaults I.faults O.faults self.old.source self.new.source self.old.sink self.new.sink result.1 }
        ensures costs { RunCosts I.Source viewer result.0 self.old.source self.new.source steps.old steps.new result.1 }
        ensures viewer { IsSameViewer viewer result.0 }
        ensures names { (O.name self.new.sink ≡ O.name self.old.sink) × KeepsOut result.0.learned mail.old mail.new }
    {
        let mut viewer = viewer;
        let mut room = List::new(alloc);
        'turns: loop {
            let (after, turn) = self.turn(rt, alloc, viewer, mail, steps, &mut room);
            viewer = after;
            match turn {
                Ok(Turn::Ended) => return (viewer, Ok(())),
                Ok(_) => {}
                Err(fault) => return (viewer, Err(fault)),
            }
        }
    }
}
