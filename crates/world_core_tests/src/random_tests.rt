//! Random schedules against a straight program over plain lists.
ghost use Rattle.std.specs.Prelude.{◌<◌};

use crate::machine_tests::{CountShot, Plan, are_shots, count, counted, entry, query, world_of};
use cube_view::{Point, Tile};
use example_schemas::point;
use query_syntax::{Query, Verb};
use std::alloc::Global;
use std::process::Abort;
use std::test::Fail;
use texts::{List, NoMemory};
use world_core::{Entry, Event};

/// Numbers that look random, always the same ones.
#[derive(Drop)]
struct Numbers {
    state: u64,
}

impl Numbers {
    fn under(&mut self, bound: u32) -> u32
        requires { 0 < bound }
        ensures { result < bound }
    {
        self.state = self
            .state
            .wrapping_mul(6364136223846793005)
            .wrapping_add(1442695040888963407);
        (self.state >> 33) as u32 % bound
    }
}

fn random_query(numbers: &mut Numbers) -> Query {
    match numbers.under(4) {
        0 => query(Verb::Stat),
        1 => {
            let mut quarter = count();
            quarter.region = Tile { z: 1, x: 0, y: 0 };
            quarter
        }
        _ => count(),
    }
}

fn random_event(numbers: &mut Numbers) -> Event {
    match numbers.under(8) {
        0 => Event::Push(1),
        1 => Event::Push(2),
        2 => Event::Push(numbers.under(4) as u8),
        3 | 4 => Event::Pop,
        5 => Event::Publish,
        6 => Event::Tell(numbers.under(3)),
        _ => Event::Look(numbers.under(3), random_query(numbers)),
    }
}

fn random_events(numbers: &mut Numbers) -> [Event; 24] {
    let mut events = [Event::Pop; 24];
    for i in 0..24 {
        events[i] = random_event(numbers);
    }
    events
}

/// All entries in the order in which they were sent, and how many of them were drawn and shown.
#[derive(Drop)]
struct Straight {
    sent: List<Entry>,
    drawn: usize,
    shown: usize,
    shots: List<CountShot>,
    skipped: List<u64>,
}

fn is_inside(tile: &Tile, point: &Point) -> bool {
    let deeper = 3u8.saturating_sub(tile.z);
    point.spot.x >> deeper == tile.x && point.spot.y >> deeper == tile.y
}

impl Straight {
    fn send(&mut self, plan: &Plan, feeder: u8) -> Result<bool, NoMemory> {
        if feeder == 0 {
            return Ok(false);
        }
        let own = self
            .sent
            .as_slice()
            .iter()
            .filter(|e| e.feeder == feeder)
            .count();
        let next = plan
            .feeds
            .get(usize::from(feeder) - 1)
            .and_then(|feed| feed.get(own));
        let (Some(next), Ok(number)) = (next, u32::try_from(own)) else {
            return Ok(false);
        };
        if self.sent.len().saturating_sub(self.drawn) >= plan.room as usize {
            return Ok(false);
        }
        self.sent.add(entry(feeder, number, *next))?;
        Ok(true)
    }

    fn draw(&mut self) -> bool {
        if self.drawn >= self.sent.len() {
            return false;
        }
        self.drawn += 1;
        true
    }

    fn look(&mut self, session: u32, query: &Query) -> Result<bool, NoMemory> {
        if query.verb != Verb::Count {
            return Ok(false);
        }
        let shown = self.sent.as_slice().iter().take(self.shown);
        let total = shown.filter(|e| is_inside(&query.region, &e.point)).count();
        self.shots
            .add(counted(session, total as u64, self.shown as u64))?;
        Ok(true)
    }

    fn happen(&mut self, plan: &Plan, event: &Event) -> Result<bool, NoMemory> {
        match event {
            Event::Push(feeder) => self.send(plan, *feeder),
            Event::Pop => Ok(self.draw()),
            Event::Publish => {
                self.shown = self.drawn;
                Ok(true)
            }
            Event::Tell(session) => Ok(*session < plan.sessions),
            Event::Look(session, query) if *session < plan.sessions => self.look(*session, query),
            Event::Look(_, _) => Ok(false),
        }
    }
}

fn straight_run(alloc: Global, plan: &Plan) -> Result<Straight, NoMemory> {
    let mut straight = Straight {
        sent: List::new(alloc),
        drawn: 0,
        shown: 0,
        shots: List::new(alloc),
        skipped: List::new(alloc),
    };
    for (number, event) in plan.events.iter().enumerate() {
        if !straight.happen(plan, event)? {
            straight.skipped.add(number as u64)?;
        }
    }
    Ok(straight)
}

fn compare(rt: &impl Abort, alloc: Global, plan: &Plan) -> Result<(), NoMemory> {
    let world = world_of(rt, alloc, plan)?;
    let straight = straight_run(alloc, plan)?;
    let shown = straight.sent.as_slice().iter().take(straight.shown);
    let same = shown
        .zip(world.journal.as_slice())
        .all(|(want, have)| want == have);
    assert!(rt;
        same && world.journal.len() == straight.shown,
        "journal of {:?}",
        plan.events
    );
    let shots = are_shots(world.shots.as_slice(), straight.shots.as_slice());
    assert!(rt; shots, "shots of {:?}", plan.events);
    let skipped = world.skipped.as_slice() == straight.skipped.as_slice();
    assert!(rt; skipped, "skipped of {:?}", plan.events);
    Ok(())
}

#[test]
fn random_schedules_do_as_plain_lists(rt: HostRuntime) -> Result<(), Fail> {
    let first = [point(0, 0, 0, 0), point(7, 7, 1, 1), point(3, 3, 0, 2)];
    let second = [point(4, 0, 1, 0), point(1, 2, 0, 5)];
    let mut numbers = Numbers { state: 1 };
    for _ in 0..2000 {
        let events = random_events(&mut numbers);
        let plan = Plan {
            feeds: &[&first, &second],
            room: numbers.under(4),
            sessions: 2,
            events: &events,
        };
        compare(&rt, rt.alloc(), &plan)?;
    }
    Ok(())
}
