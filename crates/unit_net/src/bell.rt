//! Bells: how engines and workers wake each other.
//!
//! A bell that is rung before its listener lies down keeps it awake: who rings writes the ring first and then looks whether
//! the listener sleeps, and who lies down says so first and then looks whether it was rung. So no ring is lost.

use mio::Waker;
use std::sync::Wait;
use std::sync::atomic::{AtomicBool, AtomicU64, Ordering};
use std::thread::yield_now;
use std::time::Duration;

/// How often a worker lets others run before it sleeps.
const WORKER_YIELDS: u32 = 200;

/// How often an engine lets others run before it sleeps, while a request is with a worker.
const ENGINE_YIELDS: u32 = 20;

/// Milliseconds that a worker sleeps at most. No bell rings where a run is stopped, so no sleep is without an end.
const WORKER_SLEEP: u64 = 20;

/// The bell of an engine, which sleeps in its poll.
#[derive(Drop)]
pub(crate) struct EngineBell {
    rung: AtomicBool,
    asleep: AtomicBool,
    waker: Waker,
}

impl EngineBell {
    /// A bell that wasn't rung yet.
    pub(crate) fn new(waker: Waker) -> EngineBell {
        EngineBell {
            rung: AtomicBool::new(false),
            asleep: AtomicBool::new(false),
            waker,
        }
    }

    /// Rings. The system is called only where the engine sleeps.
    pub(crate) fn ring(&self) {
        self.rung.store(true, Ordering::SeqCst);
        if self.is_asleep() && self.asleep.swap(false, Ordering::SeqCst) {
            // A wake that fails leaves a sleep of at most its limit.
            let _ = self.waker.wake();
        }
    }

    /// Whether the engine sleeps or is about to.
    pub(crate) fn is_asleep(&self) -> bool {
        self.asleep.load(Ordering::SeqCst)
    }

    /// Whether it was rung since the last take.
    pub(crate) fn take(&self) -> bool {
        self.rung.load(Ordering::SeqCst) && self.rung.swap(false, Ordering::SeqCst)
    }

    /// Lets others run for a while; whether it was rung.
    pub(crate) fn take_soon(&self) -> bool {
        for _ in 0..ENGINE_YIELDS {
            yield_now();
            if self.take() {
                return true;
            }
        }
        false
    }

    /// Says that the engine is about to sleep; whether it may, since the bell wasn't rung.
    pub(crate) fn lie_down(&self) -> bool {
        self.asleep.store(true, Ordering::SeqCst);
        !self.take()
    }

    /// Says that the engine is awake, and takes a ring.
    pub(crate) fn get_up(&self) {
        self.asleep.store(false, Ordering::SeqCst);
        self.take();
    }
}

/// The bell of all workers: a small count of rings that no worker has taken yet.
///
/// A worker can't keep what it saw last, so it takes a ring. The count stops at the number of workers: each of them then
/// takes a ring, and looks for work behind it.
#[derive(Drop)]
pub(crate) struct WorkBell {
    pending: AtomicU64,
    looking: AtomicU64,
    sleepers: AtomicU64,
    lively: AtomicBool,
    most: u64,
}

impl WorkBell {
    /// A bell for so many workers that wasn't rung yet.
    pub(crate) fn new(workers: u32) -> WorkBell {
        WorkBell {
            pending: AtomicU64::new(0),
            looking: AtomicU64::new(0),
            sleepers: AtomicU64::new(0),
            lively: AtomicBool::new(false),
            most: u64::from(workers),
        }
    }

    /// Rings. The system is called only where fewer workers look for a ring than rings are there, and one sleeps.
    pub(crate) fn ring(&self) {
        if !self.lively.load(Ordering::SeqCst) {
            self.lively.store(true, Ordering::SeqCst);
        }
        if self.pending.load(Ordering::SeqCst) >= self.most {
            return;
        }
        let before = self.pending.fetch_add(1, Ordering::SeqCst);
        if before >= self.looking.load(Ordering::SeqCst)
            && self.sleepers.load(Ordering::SeqCst) != 0
        {
            self.pending.wake_one();
        }
    }

    /// Takes a ring, if one is there.
    fn take(&self) -> bool {
        let seen = self.pending.load(Ordering::SeqCst);
        if seen == 0 {
            return false;
        }
        self.pending
            .compare_exchange(seen, seen - 1, Ordering::SeqCst, Ordering::SeqCst)
            .is_ok()
    }

    // Looks for a ring and lets others run, by turns. Who stops looking takes no ring before it looks once more, since
    // whoever rang may have counted on it.
    fn take_soon(&self) -> bool {
        self.looking.fetch_add(1, Ordering::SeqCst);
        let mut taken = false;
        for _ in 0..WORKER_YIELDS {
            yield_now();
            if self.take() {
                taken = true;
                break;
            }
        }
        self.looking.fetch_sub(1, Ordering::SeqCst);
        taken
    }

    /// Takes a ring, or sleeps for a while where none comes soon.
    ///
    /// Where no ring came during the last sleep of a worker, it sleeps at once.
    pub(crate) fn rest<R: Wait>(&self, rt: &R) {
        if self.take() || (self.lively.load(Ordering::SeqCst) && self.take_soon()) {
            return;
        }
        self.sleepers.fetch_add(1, Ordering::SeqCst);
        if !self.take() {
            let limit = Duration::from_millis(WORKER_SLEEP);
            self.pending.park_timeout(rt, 0, limit);
            if !self.take() {
                self.lively.store(false, Ordering::SeqCst);
            }
        }
        self.sleepers.fetch_sub(1, Ordering::SeqCst);
    }
}
