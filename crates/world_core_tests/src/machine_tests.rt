//! Runs of the machine against worlds that were worked out by hand, and against a straight program.
ghost use Rattle.std.specs.Prelude.{◌≡◌, ◌^◌, ◌<◌, ◌&&◌, nat_lt, length};
ghost use Rattle.std.specs.List.{list_all};
ghost use Rattle.cube_view.specs.Validity.{valid};

use cube_view::{Point, Schema, Tile, is_valid};
use example_schemas::{point, schema_of_kinds};
use query_syntax::{Choice, Query, Rect, RowOut, Span, ValueSet, Verb};
use std::alloc::Global;
use std::process::Abort;
use std::test::Fail;
use texts::{List, NoMemory};
use world_core::{Entry, Event, Shot, World, run};

fn are_valid(schema: &Schema, points: &[Point]) -> bool
    ensures { result ≡ list_all (valid schema.now) points.now }
{
    points.iter().all(|point| is_valid(schema, point))
}

fn is_feed(schema: &Schema, feed: &[Point]) -> bool
    ensures { result ≡ (nat_lt (length feed.now) (2 ^ 32) && list_all (valid schema.now) feed.now) }
{
    feed.len() < 1 << 32 && are_valid(schema, feed)
}

fn are_feeds(schema: &Schema, feeds: &[List<Point>]) -> bool
    ensures { result ≡ list_all (λ feed. nat_lt (length feed) (2 ^ 32) && list_all (valid schema.now) feed) feeds.now }
{
    feeds.iter().all(|feed| is_feed(schema, feed.as_slice()))
}

/// What a run is given.
#[derive(Clone, Copy)]
pub struct Plan<'a> {
    pub feeds: &'a [&'a [Point]],
    pub room: u32,
    pub sessions: u32,
    pub events: &'a [Event],
}

fn lists_of(alloc: Global, feeds: &[&[Point]]) -> Result<List<List<Point>>, NoMemory> {
    let mut lists = List::new(alloc);
    for feed in feeds {
        let points = Vec::from_slice(alloc, feed).map_err(|_| NoMemory)?;
        lists.add(List::from_vec(points))?;
    }
    Ok(lists)
}

// The world that the plan's events make, under the schema of kinds.
pub fn world_of(rt: &impl Abort, alloc: Global, plan: &Plan) -> Result<World, NoMemory> {
    let schema = schema_of_kinds(alloc)?;
    let lists = lists_of(alloc, plan.feeds)?;
    let feeds = lists.as_slice();
    assert!(rt; !feeds.is_empty() && feeds.len() <= 8);
    assert!(rt; are_feeds(&schema, feeds));
    run(alloc, &schema, feeds, plan.room, plan.sessions, plan.events)
}

pub fn query(verb: Verb) -> Query {
    Query {
        verb,
        region: Tile { z: 0, x: 0, y: 0 },
        sets: [Choice::All; 4],
        time: Span {
            from: 0,
            to: 1 << 32,
        },
    }
}

pub fn count() -> Query {
    query(Verb::Count)
}

fn p1() -> Point {
    point(0, 0, 0, 0)
}

fn p2() -> Point {
    point(7, 7, 1, 1)
}

pub fn entry(feeder: u8, number: u32, point: Point) -> Entry {
    Entry {
        feeder,
        number,
        point,
    }
}

/// A shot of a count: the session, the total, and how many points were seen.
#[derive(Clone, Copy, PartialEq, Eq, Debug)]
pub struct CountShot {
    session: u32,
    total: u64,
    seen: u64,
}

pub fn counted(session: u32, total: u64, seen: u64) -> CountShot {
    CountShot {
        session,
        total,
        seen,
    }
}

fn is_shot(shot: &Shot, want: &CountShot) -> bool {
    match shot.table.rows.as_slice() {
        [RowOut::One(total)] => {
            let have = counted(shot.session, *total, shot.table.seen);
            have == *want
        }
        _ => false,
    }
}

pub fn are_shots(shots: &[Shot], wants: &[CountShot]) -> bool {
    shots.len() == wants.len()
        && shots
            .iter()
            .zip(wants)
            .all(|(shot, want)| is_shot(shot, want))
}

/// A plan, and the world that it has to make.
#[derive(Clone, Copy)]
struct Case<'a> {
    name: &'a str,
    plan: Plan<'a>,
    left: &'a [usize],
    queue: &'a [Entry],
    pending: &'a [Entry],
    journal: &'a [Entry],
    seen: &'a [u64],
    told: &'a [u64],
    shots: &'a [CountShot],
    skipped: &'a [u64],
}

fn check(rt: &impl Abort, alloc: Global, case: &Case) -> Result<(), NoMemory> {
    let world = world_of(rt, alloc, &case.plan)?;
    let rests = world.rest.as_slice();
    let left = rests.len() == case.left.len()
        && rests
            .iter()
            .zip(case.left)
            .all(|(rest, n)| rest.len() == *n);
    assert!(rt; left, "{}: rests", case.name);
    assert!(rt;
        world.queue.as_slice() == case.queue,
        "{}: queue",
        case.name
    );
    assert!(rt;
        world.pending.as_slice() == case.pending,
        "{}: pending",
        case.name
    );
    assert!(rt;
        world.journal.as_slice() == case.journal,
        "{}: journal",
        case.name
    );
    assert!(rt; world.seen.as_slice() == case.seen, "{}: seen", case.name);
    assert!(rt; world.told.as_slice() == case.told, "{}: told", case.name);
    assert!(rt;
        are_shots(world.shots.as_slice(), case.shots),
        "{}: shots",
        case.name
    );
    assert!(rt;
        world.skipped.as_slice() == case.skipped,
        "{}: skipped",
        case.name
    );
    Ok(())
}

#[test]
fn interleaves_two_feeds_through_a_queue_of_one(rt: HostRuntime) -> Result<(), Fail> {
    let case = Case {
        name: "two feeds",
        plan: Plan {
            feeds: &[&[p1()], &[p2()]],
            room: 1,
            sessions: 1,
            events: &[
                Event::Pop,
                Event::Push(1),
                Event::Push(2),
                Event::Pop,
                Event::Push(2),
                Event::Look(0, count()),
                Event::Publish,
                Event::Look(0, count()),
                Event::Tell(0),
                Event::Pop,
                Event::Look(0, count()),
                Event::Publish,
            ],
        },
        left: &[0, 0],
        queue: &[],
        pending: &[],
        journal: &[entry(1, 0, p1()), entry(2, 0, p2())],
        seen: &[1],
        told: &[1],
        shots: &[counted(0, 0, 0), counted(0, 1, 1), counted(0, 1, 1)],
        skipped: &[0, 2],
    };
    check(&rt, rt.alloc(), &case)?;
    Ok(())
}

// Events that change nothing but what is noted, where the one feed has one point.
fn check_noted<'a>(
    rt: &impl Abort,
    alloc: Global,
    name: &'a str,
    room: u32,
    events: &'a [Event],
    skipped: &'a [u64],
) -> Result<(), NoMemory> {
    let plan = Plan {
        feeds: &[&[p1()]],
        room,
        sessions: 1,
        events,
    };
    let case = Case {
        name,
        plan,
        left: &[1],
        queue: &[],
        pending: &[],
        journal: &[],
        seen: &[0],
        told: &[0],
        shots: &[],
        skipped,
    };
    check(rt, alloc, &case)
}

#[test]
fn notes_events_that_are_not_possible(rt: HostRuntime) -> Result<(), Fail> {
    let mut none_of_kind = count();
    none_of_kind.sets[0] = Choice::Only(ValueSet::none());
    let all_places = Rect {
        x0: 0,
        y0: 0,
        x1: 8,
        y1: 8,
    };
    let looks = [
        Event::Look(0, query(Verb::Told)),
        Event::Look(0, query(Verb::Stat)),
        Event::Look(0, query(Verb::Quit)),
        Event::Look(0, query(Verb::Map(4))),
        Event::Look(0, none_of_kind),
        Event::Look(0, query(Verb::Window(all_places))),
        Event::Look(0, query(Verb::Best { depth: 1, rows: 1 })),
    ];
    let unknown_sessions = [Event::Tell(1), Event::Look(1, count())];
    let alloc = rt.alloc();
    check_noted(&rt, alloc, "no events", 1, &[], &[])?;
    check_noted(
        &rt,
        alloc,
        "unknown feeders",
        1,
        &[Event::Push(0), Event::Push(2)],
        &[0, 1],
    )?;
    check_noted(
        &rt,
        alloc,
        "unknown sessions",
        1,
        &unknown_sessions,
        &[0, 1],
    )?;
    check_noted(&rt, alloc, "no table", 1, &looks, &[0, 1, 2, 3, 4, 5, 6])?;
    check_noted(&rt, alloc, "no room", 0, &[Event::Push(1)], &[0])?;
    Ok(())
}

#[test]
fn moves_entries_from_queue_to_journal(rt: HostRuntime) -> Result<(), Fail> {
    let case = Case {
        name: "two publications on end",
        plan: Plan {
            feeds: &[&[p1()], &[p1(), p2()]],
            room: 2,
            sessions: 2,
            events: &[
                Event::Push(2),
                Event::Push(2),
                Event::Pop,
                Event::Pop,
                Event::Publish,
                Event::Publish,
                Event::Tell(1),
            ],
        },
        left: &[1, 0],
        queue: &[],
        pending: &[],
        journal: &[entry(2, 0, p1()), entry(2, 1, p2())],
        seen: &[0, 0],
        told: &[0, 2],
        shots: &[],
        skipped: &[],
    };
    check(&rt, rt.alloc(), &case)?;
    Ok(())
}

#[test]
fn notes_a_push_past_the_end_of_a_feed(rt: HostRuntime) -> Result<(), Fail> {
    let case = Case {
        name: "a push past the feed's end",
        plan: Plan {
            feeds: &[&[p1()], &[p1(), p2()]],
            room: 2,
            sessions: 1,
            events: &[Event::Push(1), Event::Push(1), Event::Push(3)],
        },
        left: &[0, 2],
        queue: &[entry(1, 0, p1())],
        pending: &[],
        journal: &[],
        seen: &[0],
        told: &[0],
        shots: &[],
        skipped: &[1, 2],
    };
    check(&rt, rt.alloc(), &case)?;
    Ok(())
}

#[test]
fn a_look_does_not_see_what_is_pending(rt: HostRuntime) -> Result<(), Fail> {
    let case = Case {
        name: "a look before the publication",
        plan: Plan {
            feeds: &[&[p1()], &[p1(), p2()]],
            room: 2,
            sessions: 2,
            events: &[
                Event::Push(1),
                Event::Pop,
                Event::Look(1, count()),
                Event::Tell(0),
            ],
        },
        left: &[0, 2],
        queue: &[],
        pending: &[entry(1, 0, p1())],
        journal: &[],
        seen: &[0, 0],
        told: &[0, 0],
        shots: &[counted(1, 0, 0)],
        skipped: &[],
    };
    check(&rt, rt.alloc(), &case)?;
    Ok(())
}
