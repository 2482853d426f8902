//! A ring that no thread shares any more.
ghost use Rattle.std.specs.Prelude.{◌≡◌, ◌+◌, ◌<◌, ℕ};
ghost use Rattle.std.specs.Slots.{slots_len, IsFull};

use crate::opening::{ENTRIES, HEAD, TAIL};
use crate::ring::Ring;
use crate::seat::RingSeat;
use atomic_table::Closed;
use std::alloc::Global;

/// The last words of a ring that was closed.
pub struct ClosedRing {
    pub(crate) closed: Closed<u8, Global>,
    pub(crate) size: u32,
    ghost full: { IsFull closed.words × (slots_len closed.words ≡ size + 48)
        × (slots_len closed.slots ≡ 0) },
}

impl ClosedRing {
    ghost use Rattle.nncq_ring.specs.Ends.{last_words};

    /// The last head.
    pub fn head(&self) -> u64
        ensures { result ≡ (last_words self.now).head }
    {
        self.closed.word(HEAD)
    }

    /// The last tail.
    pub fn tail(&self) -> u64
        ensures { result ≡ (last_words self.now).tail }
    {
        self.closed.word(TAIL)
    }

    /// The last entry of a slot.
    pub fn entry(&self, slot: u32) -> u64
        requires { slot < self.now.size }
        ensures { result ≡ (last_words self.now).entry slot }
    {
        self.closed.word(ENTRIES + slot as usize)
    }
}

impl Drop for ClosedRing {
    fn drop(self) {
        let ClosedRing { closed, size: _ } = self;
        closed.free();
    }
}

impl Ring {
    ghost use Rattle.nncq_ring.specs.Ends.{EndsWith};
    ghost use Rattle.nncq_ring.specs.Seats.{BelongsTo};

    /// Ends the ring with one of its seats. The last words and the last views of all seats, of which this seat's is one, meet
    /// the rule: each number is in the line or with one seat, what was put was taken or stands in the line, and places were used
    /// in order.
    pub fn close(self, seat: RingSeat) -> ClosedRing
        requires own { BelongsTo seat self }
        ensures size { result.size ≡ self.size }
        ensures last { EndsWith self seat result }
    {
        let Ring { table, size } = self;
        let RingSeat { seat: last } = seat;
        ClosedRing {
            closed: table.close_with(last),
            size,
        }
    }
}
