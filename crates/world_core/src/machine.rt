//! The machine as a program: the parts of a world, and what each event does to them.
ghost use Rattle.std.specs.Prelude.{◌≡◌, ◌+◌, ◌<◌, ◌≤◌, ◌^◌, ◌&&◌, length, map, nat_lt, replicate, All, IfOk, OnOk, IsTrue};
ghost use Rattle.std.specs.Vec.{vec_len};
ghost use Rattle.cube_view.specs.Bag.{amount, anywhere};
ghost use Rattle.query_syntax.specs.Queries.{is_valid_query as is_valid};
ghost use Rattle.query_syntax.specs.Tables.{is_drill as asks_drill};
ghost use Rattle.world_core.specs.Interleaving.{entry_points};
ghost use Rattle.world_core.specs.Machine.{first_world, has_rest as rest_is_left, is_possible as can_happen, happens, after_push, after_pop, after_publish, after_tell, after_look, after_event};
ghost use Rattle.world_core.specs.Parts.{deque_lists, world_now};
ghost use Rattle.world_core.specs.Worlds.{KeepsOrder};

use crate::{Entry, Event, Shot, World};
use cube_view::{Point, Schema};
use query_syntax::{Query, is_drill, is_valid_query, table_of};
use std::alloc::Global;
use std::collections::VecDeque;
use texts::{List, NoMemory};

/// The parts of a world while events happen to it.
#[derive(Drop)]
pub struct Machine {
    rest: Vec<VecDeque<Point>>,
    queue: VecDeque<Entry>,
    pending: Vec<Entry>,
    journal: Vec<Entry>,
    seen: Vec<u64>,
    told: Vec<u64>,
    shots: List<Shot>,
    skipped: List<u64>,
}

fn rests_of(alloc: Global, feeds: &[List<Point>]) -> Result<Vec<VecDeque<Point>>, NoMemory>
    ensures { IfOk result (λ rests. deque_lists rests.items ≡ feeds.now) }
{
    let mut rests = Vec::new(alloc);
    for feed in feeds {
        let points = Vec::from_slice(alloc, feed.as_slice()).map_err(|_| NoMemory)?;
        rests
            .push(VecDeque::from_vec(points))
            .map_err(|_| NoMemory)?;
    }
    Ok(rests)
}

fn lists_of(alloc: Global, rests: Vec<VecDeque<Point>>) -> Result<List<List<Point>>, NoMemory>
    ensures { IfOk result (λ lists. lists ≡ deque_lists rests.items) }
{
    let mut lists = List::new(alloc);
    for rest in rests {
        lists.add(List::from_vec(Vec::from(rest)))?;
    }
    Ok(lists)
}

fn zeros(alloc: Global, count: u32) -> Result<Vec<u64>, NoMemory>
    ensures { IfOk result (λ numbers. numbers.items ≡ replicate count 0) }
{
    Ok(vec![in alloc; 0; count as usize]?)
}

fn points_of(alloc: Global, entries: &[Entry]) -> Result<List<Point>, NoMemory>
    ensures { IfOk result (λ points. points ≡ entry_points entries.now) }
{
    let mut points = List::new(alloc);
    for entry in entries {
        points.add(entry.point)?;
    }
    Ok(points)
}

impl Machine {
    /// The machine before all events.
    pub fn new(alloc: Global, feeds: &[List<Point>], sessions: u32) -> Result<Machine, NoMemory>
        ensures { IfOk result (λ m. world_now m ≡ first_world feeds.now sessions) }
    {
        Ok(Machine {
            rest: rests_of(alloc, feeds)?,
            queue: VecDeque::new(alloc),
            pending: Vec::new(alloc),
            journal: Vec::new(alloc),
            seen: zeros(alloc, sessions)?,
            told: zeros(alloc, sessions)?,
            shots: List::new(alloc),
            skipped: List::new(alloc),
        })
    }

    fn has_rest(&self, feeder: u8) -> bool
        ensures { result ≡ rest_is_left (world_now self.now) feeder }
    {
        let place = usize::from(feeder);
        1 <= place && place <= self.rest.len() && !self.rest[place - 1].is_empty()
    }

    fn is_possible(&self, schema: &Schema, room: u32, event: &Event) -> bool
        ensures { result ≡ can_happen schema.now room (world_now self.now) event.now }
    {
        match event {
            Event::Push(feeder) => self.has_rest(*feeder) && self.queue.len() < room as usize,
            Event::Pop => !self.queue.is_empty(),
            Event::Publish => true,
            Event::Tell(session) => (*session as usize) < self.told.len(),
            Event::Look(session, query) => {
                (*session as usize) < self.seen.len()
                    && is_valid_query(schema, query)
                    && is_drill(&query.verb)
            }
        }
    }

    fn push(&mut self, feeds: &[List<Point>], feeder: u8) -> Result<(), NoMemory>
        requires rest { IsTrue (rest_is_left (world_now self.old) feeder) }
        requires order { KeepsOrder feeds.now (length self.old.seen.items) (world_now self.old) }
        requires short { All (λ feed. length feed < 2 ^ 32) feeds.now }
        ensures { OnOk result (world_now self.new ≡ after_push (world_now self.old) feeder) }
    {
        let place = usize::from(feeder) - 1;
        let rest = &mut self.rest[place];
        let number = (feeds[place].len() - rest.len()) as u32;
        let Some(point) = rest.pop_front() else {
            return Ok(());
        };
        let entry = Entry {
            feeder,
            number,
            point,
        };
        self.queue.push_back(entry)?;
        Ok(())
    }

    fn pop(&mut self) -> Result<(), NoMemory>
        ensures { OnOk result (world_now self.new ≡ after_pop (world_now self.old)) }
    {
        match self.queue.pop_front() {
            Some(entry) => self.pending.push(entry).map_err(|_| NoMemory),
            None => Ok(()),
        }
    }

    fn publish(&mut self) -> Result<(), NoMemory>
        ensures { OnOk result (world_now self.new ≡ after_publish (world_now self.old)) }
    {
        self.journal.append(&mut self.pending).map_err(|_| NoMemory)
    }

    fn tell(&mut self, session: u32)
        requires { session < vec_len self.old.told }
        ensures { world_now self.new ≡ after_tell (world_now self.old) session }
    {
        self.told[session as usize] = self.journal.len() as u64;
    }

    fn look(
        &mut self,
        alloc: Global,
        schema: &Schema,
        session: u32,
        query: &Query,
    ) -> Result<(), NoMemory>
        requires session { session < vec_len self.old.seen }
        requires query { IsTrue (is_valid schema.now query.now) }
        requires verb { IsTrue (asks_drill query.now.verb) }
        requires light { amount anywhere (entry_points self.old.journal.items) < 2 ^ 64 }
        ensures { OnOk result (world_now self.new ≡ after_look schema.now (world_now self.old) session query.now) }
    {
        let points = points_of(alloc, self.journal.as_slice())?;
        let table = table_of(alloc, schema, query, points.as_slice())?;
        self.shots.add(Shot { session, table })?;
        self.seen[session as usize] = self.journal.len() as u64;
        Ok(())
    }

    fn apply(
        &mut self,
        alloc: Global,
        schema: &Schema,
        feeds: &[List<Point>],
        room: u32,
        event: &Event,
    ) -> Result<(), NoMemory>
        requires possible { IsTrue (can_happen schema.now room (world_now self.old) event.now) }
        requires order { KeepsOrder feeds.now (length self.old.seen.items) (world_now self.old) }
        requires short { All (λ feed. length feed < 2 ^ 32) feeds.now }
        requires light { amount anywhere (entry_points self.old.journal.items) < 2 ^ 64 }
        ensures { OnOk result (world_now self.new ≡ happens schema.now (world_now self.old) event.now) }
    {
        match event {
            Event::Push(feeder) => {
                prove!(self.queue.len() < room as usize);
                self.push(feeds, *feeder)
            }
            Event::Pop => self.pop(),
            Event::Publish => self.publish(),
            Event::Tell(session) => {
                self.tell(*session);
                Ok(())
            }
            Event::Look(session, query) => self.look(alloc, schema, *session, query),
        }
    }

    /// Does what the event does, or notes its number where it isn't possible.
    pub fn take_event(
        &mut self,
        alloc: Global,
        schema: &Schema,
        feeds: &[List<Point>],
        room: u32,
        number: u64,
        event: &Event,
    ) -> Result<(), NoMemory>
        requires order { KeepsOrder feeds.now (length self.old.seen.items) (world_now self.old) }
        requires short { All (λ feed. length feed < 2 ^ 32) feeds.now }
        requires light { amount anywhere (entry_points self.old.journal.items) < 2 ^ 64 }
        ensures { OnOk result (world_now self.new ≡ after_event schema.now room number (world_now self.old) event.now) }
    {
        if self.is_possible(schema, room, event) {
            self.apply(alloc, schema, feeds, room, event)
        } else {
            self.skipped.add(number)
        }
    }

    /// The world that the machine is at.
    pub fn into_world(self, alloc: Global) -> Result<World, NoMemory>
        ensures { IfOk result (λ world. world ≡ world_now self) }
    {
        let Machine {
            rest,
            queue,
            pending,
            journal,
            seen,
            told,
            shots,
            skipped,
        } = self;
        Ok(World {
            rest: lists_of(alloc, rest)?,
            queue: List::from_vec(Vec::from(queue)),
            pending: List::from_vec(pending),
            journal: List::from_vec(journal),
            seen: List::from_vec(seen),
            told: List::from_vec(told),
            shots,
            skipped,
        })
    }
}
