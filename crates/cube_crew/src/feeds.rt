//! The feeders: their jobs become works, the works run side by side, and become what is given back.
ghost use Rattle.std.specs.Prelude.{◌≡◌, ◌≤◌, [], true, map, vec_len, vec_capacity, All};
ghost use Rattle.std.specs.List.{AllZip};
ghost use Rattle.crew_feeder.specs.Leaving.{HasFed};
ghost use Rattle.crew_feeder.specs.Taking.{IsReady};
ghost use Rattle.cube_crew.specs.Works.{end_of, fed_of, works_of};

use crew_feeder::{FeedDone, FeedWork};
use cube_view::Schema;
use feed_queue::{Ended, FeedEnd};
use feed_reader::{FeedJob, FirstRefusals};
use outer_io::Source;
use std::alloc::Global;
use std::sync::Wait;
use std::thread::{self, Threads};

/// Each job with its end of the lane and room for its refusals. It takes no memory.
pub(crate) fn seat_feeds<I: Source>(
    mut jobs: Vec<FeedJob<I>>,
    mut ends: Vec<FeedEnd>,
    mut firsts: Vec<FirstRefusals>,
    room: Vec<FeedWork<I>>,
) -> Vec<FeedWork<I>>
    requires len { (vec_len ends ≡ vec_len jobs) × (vec_len firsts ≡ vec_len jobs) }
    requires none { All (λ f. f ≡ []) firsts.items }
    requires room { (room.items ≡ []) × (vec_len jobs ≤ vec_capacity room) }
    ensures works { result.items ≡ works_of jobs.items ends.items }
    ensures len { vec_len result ≡ vec_len jobs }
    ensures room { vec_capacity room ≤ vec_capacity result }
{
    let Some(job) = jobs.pop() else {
        jobs.destroy_empty();
        return room;
    };
    let Some(end) = ends.pop() else {
        unreachable!()
    };
    let Some(first) = firsts.pop() else {
        unreachable!()
    };
    let mut works = seat_feeds(jobs, ends, firsts, room);
    works.push_reserved(FeedWork::new(job, end, first));
    works
}

/// Runs the feeders side by side, each in a thread of its own where one can be made.
pub(crate) fn run_feeds<R: Threads + Wait + Sync, I: Source + Send>(
    rt: &R,
    alloc: Global,
    schema: &Schema,
    works: &mut [FeedWork<I>],
)
    requires ready { All (λ w. IsReady schema.now w) works.old }
    ensures { AllZip (HasFed I.left I.faults true) works.old works.new }
{
    thread::for_each_mut(
        rt,
        works,
        8,
        &|_: usize, work: &mut FeedWork<I>|
            requires { IsReady schema.now work.old }
            ensures { HasFed I.left I.faults true work.old work.new }
        { work.run(rt, alloc, schema) },
    );
}

/// What each work gives back, and what is left of its end. It takes no memory.
pub(crate) fn end_feeds<I: Source>(
    mut works: Vec<FeedWork<I>>,
    dones: Vec<FeedDone<I>>,
    ended: Vec<Ended>,
) -> (Vec<FeedDone<I>>, Vec<Ended>)
    requires ended { All (λ w. w.end.ended ≡ true) works.items }
    requires room { (dones.items ≡ []) × (ended.items ≡ []) × (vec_len works ≤ vec_capacity dones) × (vec_len works ≤ vec_capacity ended) }
    ensures dones { result.0.items ≡ map fed_of works.items }
    ensures ended { result.1.items ≡ map end_of works.items }
    ensures len { (vec_len result.0 ≡ vec_len works) × (vec_len result.1 ≡ vec_len works) }
    ensures room { (vec_capacity dones ≤ vec_capacity result.0) × (vec_capacity ended ≤ vec_capacity result.1) }
{
    let Some(work) = works.pop() else {
        works.destroy_empty();
        return (dones, ended);
    };
    let (mut dones, mut ended) = end_feeds(works, dones, ended);
    let (done, end) = work.finish();
    dones.push_reserved(done);
    ended.push_reserved(end);
    (dones, ended)
}
