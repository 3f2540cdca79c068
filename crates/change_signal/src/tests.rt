//! A wait with a notice and one without, and which waits yield.
use crate::{Signal, Waiting};
use std::sync::Wait;
use std::sync::atomic::{AtomicU64, Ordering};
use std::thread::{Threads, join};

/// Waits until the word is the number, and says how often it paused.
fn wait_for<R: Wait>(rt: &R, word: &AtomicU64, number: u64, changed: &Signal) -> u64 {
    let mut pauses = 0u64;
    let mut waiting = Waiting::new();
    for _ in rt.forever() {
        if word.load(Ordering::SeqCst) == number {
            return pauses;
        }
        changed.pause(rt, &mut waiting);
        pauses = pauses.saturating_add(1);
    }
    unreachable!()
}

/// Two threads take turns to raise a word, and each waits for the other.
fn take_turns<R: Wait + Threads + Sync>(rt: &R, turns: u64) -> u64 {
    let word = AtomicU64::new(0);
    let changed = Signal::new();
    let even = || {
        for turn in 0..turns {
            wait_for(rt, &word, turn.saturating_mul(2), &changed);
            word.fetch_add(1, Ordering::SeqCst);
            changed.notify();
        }
    };
    let odd = || {
        for turn in 0..turns {
            wait_for(
                rt,
                &word,
                turn.saturating_mul(2).saturating_add(1),
                &changed,
            );
            word.fetch_add(1, Ordering::SeqCst);
            changed.notify();
        }
    };
    join(rt, even, odd);
    word.load(Ordering::SeqCst)
}

#[test]
fn threads_wait_for_each_other(rt: HostRuntime) {
    assert_eq!(rt; take_turns(&rt, 1000), 2000);
}

#[test]
fn a_wait_without_a_notice_goes_on(rt: HostRuntime) {
    let signal = Signal::new();
    let mut waiting = Waiting::new();
    for _ in 0..20 {
        signal.pause(&rt, &mut waiting);
    }
    signal.notify();
    signal.notify();
}

/// How often a wait that was told to yield five times pauses until it says that it is about to sleep. It is told at
/// once.
fn pauses_before_sleep<R: Wait>(rt: &R, signal: &Signal) -> u64 {
    let mut pauses = 0u64;
    let mut waiting = Waiting::yielding(5);
    for _ in 0..100 {
        if signal.word.load(Ordering::SeqCst) & 1 == 1 {
            break;
        }
        signal.pause(rt, &mut waiting);
        pauses = pauses.saturating_add(1);
    }
    signal.notify();
    pauses
}

/// The first of 64 waits that sleep one after the other which yields and should not, or does not and should.
fn first_unlike<R: Wait>(rt: &R, signal: &Signal) -> Option<u64> {
    for wait in 0u64..64 {
        let yields = wait % 16 == 0 || wait == 1 || wait == 2 || wait == 4 || wait == 8;
        let wanted = if yields { 17 } else { 12 };
        if pauses_before_sleep(rt, signal) != wanted {
            return Some(wait);
        }
    }
    None
}

#[test]
fn yields_that_were_in_vain_are_left_out_until_some_are_enough(rt: HostRuntime) {
    let signal = Signal::new();
    assert_eq!(rt; first_unlike(&rt, &signal), None);
    let mut waiting = Waiting::yielding(5);
    for _ in 0..12 {
        signal.pause(&rt, &mut waiting);
    }
    for _ in 0..3 {
        assert_eq!(rt; pauses_before_sleep(&rt, &signal), 17);
    }
}
