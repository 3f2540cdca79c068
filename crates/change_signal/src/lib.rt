//! Threads. How a thread waits until another one has changed what both share: it tries a few times, and then it sleeps.
//!
//! What is shared, as a queue, is the caller's. A thread that cannot go on calls [`Signal::pause`] after each try that
//! failed, and one that has changed what others may wait for calls [`Signal::notify`], which reads one word where
//! nobody sleeps. A sleep ends by a notice, and no sleep is longer than ten milliseconds, so a notice that is missed
//! costs a moment and never the run. The crate stands on `crossbeam_utils` for the first tries. It promises nothing of
//! waiting.
//!
//! ```
//! let mut waiting = Waiting::new();
//! for _ in rt.forever() {
//!     match queue.pop(rt) {
//!         Some(item) => return item,
//!         None => filled.pause(rt, &mut waiting),
//!     }
//! }
//! // and in the thread that fills the queue:
//! queue.push(rt, item);
//! filled.notify();
//! ```
#![tactic(auto)]

#[cfg(test)]
mod tests;

use crossbeam_utils::Backoff;
use std::sync::Wait;
use std::sync::atomic::{AtomicU64, Ordering};
use std::thread::yield_now;
use std::time::Duration;

/// No sleep is longer, in milliseconds.
const LONGEST_SLEEP: u64 = 10;

/// Where waits sleep one after the other in spite of their yields, one of so many yields all the same. It is a power of
/// two.
const VAIN_WAITS: u64 = 16;

/// By what threads are told of a change that they may sleep for.
#[derive(Drop)]
pub struct Signal {
    /// It is odd from the moment at which a thread is about to sleep until the next notice, which makes it even.
    word: AtomicU64,
    /// How many waits have slept, one after the other, since the yields of one were enough. From twice `VAIN_WAITS` it
    /// goes back to once.
    vain: AtomicU64,
}

/// One wait of a thread: how often it has tried, and what the word was when it said last that it is about to sleep.
#[derive(Drop)]
pub struct Waiting {
    backoff: Backoff,
    /// How often it yields yet, after the first tries, before it sleeps.
    yields: u32,
    /// How many waits before it have slept, once it has learned that of the signal.
    vain: Option<u64>,
    said: u64,
}

impl Waiting {
    /// A wait that has not begun.
    pub fn new() -> Waiting {
        Waiting::yielding(0)
    }

    /// The same, which yields so many times more before it sleeps, where waits before it did not sleep in spite of
    /// that. It is for what is mostly over soon, where the wake of a sleeper would be felt.
    pub fn yielding(yields: u32) -> Waiting {
        Waiting {
            backoff: Backoff::new(),
            yields,
            vain: None,
            said: 0,
        }
    }
}

impl Signal {
    /// A signal on which nobody sleeps.
    pub fn new() -> Signal {
        Signal {
            word: AtomicU64::new(0),
            vain: AtomicU64::new(0),
        }
    }

    /// Waits a moment, after a try that failed. The first eleven times it spins or yields, and then it yields as often
    /// as the wait was told, if that is worth it. Then it takes turns: at one call it says that it is about to sleep,
    /// and at the next, if there was no notice since, it sleeps.
    pub fn pause<R: Wait>(&self, rt: &R, waiting: &mut Waiting) {
        if !waiting.backoff.is_completed() {
            waiting.backoff.snooze();
            return;
        }
        if waiting.vain.is_none() {
            self.weigh(waiting);
        }
        if waiting.yields > 0 {
            waiting.yields -= 1;
            yield_now();
            return;
        }
        self.sleep(rt, waiting);
    }

    /// Takes a wait its yields, where those before it have slept in spite of theirs. Of waits that sleep one after the
    /// other the first three, the 5th, the 9th and the 17th yield, and then each 16th. So a thread for which there is
    /// seldom something to do yields seldom, and soon finds out where that has changed.
    fn weigh(&self, waiting: &mut Waiting) {
        let vain = self.vain.load(Ordering::SeqCst);
        if vain & vain.wrapping_sub(1) != 0 {
            waiting.yields = 0;
        }
        waiting.vain = Some(vain);
        // That stands if the wait is over before it sleeps.
        self.vain.store(0, Ordering::SeqCst);
    }

    /// Says that the thread is about to sleep, or sleeps if it has said so and there was no notice since.
    fn sleep<R: Wait>(&self, rt: &R, waiting: &mut Waiting) {
        let said = self.word.fetch_or(1, Ordering::SeqCst) | 1;
        if waiting.said == said {
            // The caller has tried since it said so, in vain. Whoever changed what it tries after that has made the
            // word another one, and then this returns at once.
            let longest = Duration::from_millis(LONGEST_SLEEP);
            self.word
                .park_timeout(rt, (said & 0xffff_ffff) as u32, longest);
        } else {
            // A change from now on finds the word odd. One that came before is found by the caller's next try.
            waiting.said = said;
            let vain = waiting.vain.unwrap_or(0);
            let next = if vain < 2 * VAIN_WAITS - 1 {
                vain + 1
            } else {
                VAIN_WAITS
            };
            self.vain.store(next, Ordering::SeqCst);
        }
    }

    /// Wakes all threads that sleep, after a change. Until one is about to sleep again, further calls only read the
    /// word.
    pub fn notify(&self) {
        let word = self.word.load(Ordering::SeqCst);
        if word & 1 == 0 {
            return;
        }
        // Of several threads that find it odd one makes it even, and wakes.
        let even = word.wrapping_add(1);
        let taken = self
            .word
            .compare_exchange(word, even, Ordering::SeqCst, Ordering::SeqCst);
        if taken.is_ok() {
            self.word.wake_all();
        }
    }
}
