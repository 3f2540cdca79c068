//! Carriers beside real values, also on two threads.
ghost use Rattle.std.specs.Prelude.{◌≡◌, [], ◌∷◌};

use crate::{GhostList, GhostValue};
use std::process::Abort;
use std::thread::{Threads, join};

/// A number, with carriers that say what it was and all that it was.
#[derive(Drop)]
struct Counter {
    count: u32,
    start: GhostValue<u32>,
    counts: GhostList<u32>,
}

/// A counter at 5, told by its carriers.
fn at_five() -> Counter
    ensures start { result.start.value ≡ 5 }
    ensures counts { result.counts.items ≡ 5 ∷ [] }
{
    let count = 5;
    Counter {
        count,
        start: GhostValue::of(&count),
        counts: GhostList::new().and(&count),
    }
}

/// The sum of two counters, each read by a thread of its own.
fn sum_on_two_threads<R: Threads>(rt: &R, first: Counter, second: Counter) -> u32 {
    let (a, b) = join(rt, move || first.count, move || second.count);
    a.saturating_add(b)
}

/// The double of a counter that two threads read at once.
fn double_by_two_threads<R: Threads>(rt: &R, counter: &Counter) -> u32 {
    let (a, b) = join(rt, move || counter.count, move || counter.count);
    a.saturating_add(b)
}

#[test]
fn goes_to_another_thread(rt: HostRuntime) {
    assert_eq!(rt; sum_on_two_threads(&rt, at_five(), at_five()), 10);
}

#[test]
fn is_read_by_two_threads_at_once(rt: HostRuntime) {
    assert_eq!(rt; double_by_two_threads(&rt, &at_five()), 10);
}
