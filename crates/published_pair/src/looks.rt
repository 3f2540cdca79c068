//! How a publisher sleeps while looks are open, and a viewer until a publication. No promise rests on what is counted
//! here: the copies wait for each look in their own way, by yielding, and find none where this has waited for it.
use change_signal::{Signal, Waiting};
use crossbeam_utils::CachePadded;
use std::alloc::Global;
use std::sync::atomic::{AtomicU64, Ordering};
use std::sync::{Arc, Wait};
use texts::NoMemory;

/// How often the publisher yields while looks are open, before it sleeps. A look takes some microseconds, and to wake a
/// sleeper takes longer: with eight sessions that never pause, most publications find one open.
const YIELDS_FOR_LOOKS: u32 = 200;

/// The looks of a pair that are open, counted apart by whether so many publications as were made when they began are an
/// even number.
#[derive(Drop)]
pub struct Looks {
    publications: AtomicU64,
    even: CachePadded<AtomicU64>,
    odd: CachePadded<AtomicU64>,
    /// Tells the publisher that a look has ended.
    ended: Signal,
    /// Tells viewers that there is another publication.
    published: Signal,
}

impl Looks {
    /// For the ends of a pair to share: no look is open, and nothing was published.
    pub(crate) fn open(alloc: Global) -> Result<Arc<Looks>, NoMemory> {
        let looks = Looks {
            publications: AtomicU64::new(0),
            even: CachePadded::new(AtomicU64::new(0)),
            odd: CachePadded::new(AtomicU64::new(0)),
            ended: Signal::new(),
            published: Signal::new(),
        };
        Arc::new(alloc, looks).map_err(|_| NoMemory)
    }

    /// The count of the looks that began after so many publications.
    fn open_at(&self, publications: u64) -> &AtomicU64 {
        if publications % 2 == 0 {
            &self.even
        } else {
            &self.odd
        }
    }

    /// Counts a look that begins. It answers after how many publications, which `end` is to be told.
    pub(crate) fn begin(&self) -> u64 {
        let began = self.publications.load(Ordering::SeqCst);
        self.open_at(began).fetch_add(1, Ordering::SeqCst);
        began
    }

    /// Counts a look that has ended. Where the publisher does not sleep, this reads one word more.
    pub(crate) fn end(&self, began: u64) {
        self.open_at(began).fetch_sub(1, Ordering::SeqCst);
        self.ended.notify();
    }

    /// Waits until the looks that began before the last publication have ended: they may be at the copy that is written
    /// next.
    pub(crate) fn wait_for_earlier<R: Wait>(&self, rt: &R) {
        let next = self.publications.load(Ordering::SeqCst).wrapping_add(1);
        // The looks that began one publication ago are counted with those that will begin after the next one.
        let open = self.open_at(next);
        let mut waiting = Waiting::yielding(YIELDS_FOR_LOOKS);
        for _ in rt.forever() {
            if open.load(Ordering::SeqCst) == 0 {
                break;
            }
            self.ended.pause(rt, &mut waiting);
        }
    }

    /// Counts a publication, once viewers are shown the other copy, and wakes those that wait for it.
    pub(crate) fn count_publication(&self) {
        self.publications.fetch_add(1, Ordering::SeqCst);
        self.published.notify();
    }

    /// Waits until all looks have ended that began so far. Those that begin meanwhile are counted apart from them.
    pub(crate) fn wait_for_all<R: Wait>(&self, rt: &R) {
        self.wait_for_earlier(rt);
        self.count_publication();
        self.wait_for_earlier(rt);
    }

    /// Waits a moment for a publication, after a look that found too little.
    pub(crate) fn pause<R: Wait>(&self, rt: &R, waiting: &mut Waiting) {
        self.published.pause(rt, waiting);
    }
}
