//! How two threads find out that both have begun.
ghost use Rattle.std.specs.Prelude.{◌≡◌};

use std::sync::atomic::{AtomicU64, Ordering};
use std::sync::{OnceLock, OnceToken, Wait};
use std::time::Duration;

/// How often the thread that comes first sleeps for the other one. A thread that was made may begin late where the
/// machine is busy, and one that could not be made never does.
const MOST_SLEEPS: u32 = 200;

/// How long each of these sleeps is, in milliseconds. It ends where the other thread comes.
const LONGEST_SLEEP: u64 = 10;

/// Where two threads meet. It is decided once whether they did, so both find the same.
#[derive(Drop)]
pub(crate) struct Meeting {
    begun: AtomicU64,
    pub(crate) met: OnceLock<bool>,
}

impl Meeting {
    /// A meeting to which nobody has come.
    pub(crate) fn new() -> Meeting {
        Meeting {
            begun: AtomicU64::new(0),
            met: OnceLock::new(),
        }
    }

    /// Tells that this thread has begun, and finds out whether the other one has, for which it waits if it came first.
    pub(crate) fn attend<R: Wait>(&self, rt: &R) -> OnceToken<'_, bool>
        ensures { result.of ≡ self.now.met.id }
    {
        let second = self.begun.fetch_add(1, Ordering::SeqCst) > 0;
        self.begun.wake_all();
        let both = second || self.has_met(rt);
        // Where the other thread has decided first, what it found stands.
        self.met.init(rt, || both)
    }

    /// Waits for the other thread, and says whether it came.
    fn has_met<R: Wait>(&self, rt: &R) -> bool {
        for _ in 0..MOST_SLEEPS {
            if self.begun.load(Ordering::SeqCst) > 1 {
                return true;
            }
            self.begun
                .park_timeout(rt, 1, Duration::from_millis(LONGEST_SLEEP));
        }
        false
    }
}
