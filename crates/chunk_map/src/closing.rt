//! A chunk map that no thread shares any more.
ghost use Rattle.std.specs.Prelude.{◌≡◌, ◌+◌, ◌*◌, ◌<◌, ◌≤◌, ℕ};
ghost use Rattle.std.specs.Slots.{slots_len, IsFull};

use crate::map::ChunkMap;
use crate::seat::MapSeat;
use atomic_table::Closed;
use std::alloc::Global;

/// The last words of a chunk map that was closed.
pub struct ClosedMap {
    pub(crate) closed: Closed<u8, Global>,
    pub(crate) segments: u32,
    ghost full: { IsFull closed.words × (slots_len closed.words ≡ 16 * (segments + 1))
        × (slots_len closed.slots ≡ 0) × (segments ≤ 8) },
}

impl ClosedMap {
    ghost use Rattle.chunk_map.specs.Ends.{last_open, last_words};

    /// How many segments were open at last.
    pub fn open_count(&self) -> u64
        ensures { result ≡ last_open self.now }
    {
        self.closed.word(0)
    }

    /// The last word of the map with this number. A bit that is set is a free chunk.
    pub fn word(&self, number: usize) -> u64
        requires { number < 10 * self.now.segments }
        ensures { result ≡ last_words self.now number }
    {
        self.closed.word(16 * (number / 10 + 1) + number % 10)
    }
}

impl Drop for ClosedMap {
    fn drop(self) {
        let ClosedMap {
            closed,
            segments: _,
        } = self;
        closed.free();
    }
}

impl ChunkMap {
    ghost use Rattle.chunk_map.specs.Ends.{EndsWith};
    ghost use Rattle.chunk_map.specs.Seats.{BelongsTo};

    /// Ends the map with one of its seats. The last words and the last views of all seats, of which this seat's is one, meet the
    /// rule: each chunk is free or with one seat, and each segment was opened once.
    pub fn close(self, seat: MapSeat) -> ClosedMap
        requires own { BelongsTo seat self }
        ensures segments { result.segments ≡ self.segments }
        ensures last { EndsWith self seat result }
    {
        let ChunkMap { table, segments } = self;
        let MapSeat { seat: last } = seat;
        ClosedMap {
            closed: table.close_with(last),
            segments,
        }
    }
}
