//! Which connection was silent for longest.

use crate::flags::{FREE, Flags, MOVED, READING};
use std::alloc::{AllocError, Global};
use std::sync::Arc;

/// Milliseconds that a connection may be silent before its place can be taken.
const SILENCE: u64 = 10_000;

/// Milliseconds between two looks at all places.
const LOOK_EVERY: u64 = 250;

/// Since when each place is silent, in milliseconds of the link's clock, told to a quarter of a second.
///
/// A connection is silent where its last call was a read that answered `NotYet`, and it moved no byte since the last look.
#[derive(Drop)]
pub(crate) struct Silences {
    since: Vec<u64>,
    looked: u64,
    // The least of them at the last look.
    first: u64,
}

impl Silences {
    /// Of so many places, none of which was looked at yet.
    ///
    /// Fails for want of memory alone.
    pub(crate) fn of(alloc: Global, places: usize) -> Result<Silences, AllocError> {
        Ok(Silences {
            since: vec![in alloc; 0u64; places]?,
            looked: 0,
            first: 0,
        })
    }

    /// Looks at all places, but not sooner than a quarter of a second after the last look.
    pub(crate) fn look(&mut self, places: &[Arc<Flags>], now: u64) {
        if now.saturating_sub(self.looked) < LOOK_EVERY {
            return;
        }
        self.looked = now;
        let mut first = now;
        for (since, flags) in self.since.iter_mut().zip(places) {
            if !is_silent(flags) {
                *since = now;
                flags.lower(MOVED);
            }
            first = first.min(*since);
        }
        self.first = first;
    }

    /// Whether a connection may have been silent for long enough; it asks no place.
    pub(crate) fn may_be_due(&self, now: u64) -> bool {
        now.saturating_sub(self.first) >= SILENCE
    }

    /// The place that was silent for longest, if that is long enough.
    pub(crate) fn longest(&self, places: &[Arc<Flags>], now: u64) -> Option<usize> {
        let mut longest = None;
        let mut least = now.checked_sub(SILENCE)?;
        for (place, (since, flags)) in self.since.iter().zip(places).enumerate() {
            if *since <= least && is_silent(flags) {
                least = *since;
                longest = Some(place);
            }
        }
        longest
    }
}

// Whether the connection of that place waits in a read, and moved no byte since the last look.
fn is_silent(flags: &Flags) -> bool {
    flags.all() & (FREE | READING | MOVED) == READING
}
