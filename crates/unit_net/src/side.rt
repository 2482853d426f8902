//! What a link shares with its connections and with the gate.

use crate::bell::EngineBell;
use crate::flags::{FREE, Flags, MOVED, READING};
use std::alloc::AllocError;
use std::sync::Arc;
use std::sync::atomic::{AtomicU64, Ordering};

/// The engine's side of a link: its bell, and what its connections do.
#[derive(Drop)]
pub(crate) struct EngineSide {
    bell: EngineBell,
    moves: AtomicU64,
    asking: AtomicU64,
}

impl EngineSide {
    /// A side at which nothing happened yet.
    pub(crate) fn new(bell: EngineBell) -> EngineSide {
        EngineSide {
            bell,
            moves: AtomicU64::new(0),
            asking: AtomicU64::new(0),
        }
    }

    /// The engine's bell.
    pub(crate) fn bell(&self) -> &EngineBell {
        &self.bell
    }

    /// How many reads and writes moved bytes so far; it begins again behind the highest number.
    pub(crate) fn moves(&self) -> u64 {
        self.moves.load(Ordering::SeqCst)
    }

    /// Whether a connection waits for a worker: it has got bytes or was checked, and hasn't waited for its client since.
    pub(crate) fn is_asking(&self) -> bool {
        self.asking.load(Ordering::SeqCst) != 0
    }
}

/// A connection's place at its link. Dropped, the place is free again.
pub(crate) struct Place {
    flags: Arc<Flags>,
    side: Arc<EngineSide>,
    asks: bool,
    reads: bool,
}

impl Place {
    /// The place of that word of flags.
    ///
    /// Fails for want of memory alone.
    pub(crate) fn at(flags: &Arc<Flags>, side: &Arc<EngineSide>) -> Result<Place, AllocError> {
        let side = Arc::try_clone(side)?;
        let flags = Arc::try_clone(flags)?;
        Ok(Place {
            flags,
            side,
            asks: false,
            reads: false,
        })
    }

    /// The connection's flags.
    pub(crate) fn flags(&self) -> &Flags {
        &self.flags
    }

    /// Notes that bytes came.
    pub(crate) fn got(&mut self) {
        self.moved();
        self.note(true, false);
    }

    /// Notes that bytes went.
    pub(crate) fn wrote(&mut self) {
        self.moved();
        self.note(self.asks, false);
    }

    /// Notes that no more bytes come.
    pub(crate) fn ends(&mut self) {
        self.note(self.asks, false);
    }

    /// Notes that a read answered `NotYet`.
    pub(crate) fn waits_for_bytes(&mut self) {
        self.note(false, true);
    }

    /// Notes that a write answered `NotYet`.
    pub(crate) fn waits_for_room(&mut self) {
        self.note(false, false);
    }

    /// Notes that the connection was looked at.
    pub(crate) fn looked_at(&mut self) {
        self.note(true, false);
    }

    // Notes that bytes moved.
    fn moved(&mut self) {
        self.side.moves.fetch_add(1, Ordering::SeqCst);
        self.flags.raise(MOVED);
    }

    // Notes whether the connection waits for a worker, and whether it waits in a read; shared words change only where that
    // does.
    fn note(&mut self, asks: bool, reads: bool) {
        if asks && !self.asks {
            self.side.asking.fetch_add(1, Ordering::SeqCst);
        }
        if self.asks && !asks {
            self.side.asking.fetch_sub(1, Ordering::SeqCst);
        }
        if reads && !self.reads {
            self.flags.raise(READING);
        }
        if self.reads && !reads {
            self.flags.lower(READING);
        }
        self.asks = asks;
        self.reads = reads;
    }
}

impl Drop for Place {
    fn drop(self) {
        let Place {
            flags,
            side,
            asks,
            reads: _,
        } = self;
        if asks {
            side.asking.fetch_sub(1, Ordering::SeqCst);
        }
        flags.reset(FREE);
    }
}
