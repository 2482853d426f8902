//! A table of slots that no thread shares any more.
ghost use Rattle.std.specs.Prelude.{◌≡◌, ◌+◌, ◌*◌, ◌<◌, ◌≤◌, ℕ, Option};
ghost use Rattle.std.specs.Slots.{slots_len, IsFull};

use crate::seat::SlotSeat;
use crate::table::SlotTable;
use atomic_table::Closed;
use std::alloc::Global;

/// The last words and values of a table of slots that was closed.
pub struct ClosedSlots<T> {
    pub(crate) closed: Closed<Option<T>, Global>,
    pub(crate) segments: u32,
    ghost full: { IsFull closed.words × (slots_len closed.words ≡ 16 * (segments + 1))
        × IsFull closed.slots × (slots_len closed.slots ≡ 640 * segments) × (segments ≤ 8) },
}

impl<T> ClosedSlots<T> {
    ghost use Rattle.segment_table.specs.Ends.{last_words};

    /// The last word of the map with this number. A bit that is set is a free chunk.
    pub fn word(&self, number: usize) -> u64
        requires { number < 10 * self.now.segments }
        ensures { result ≡ last_words self.now number }
    {
        self.closed.word(16 * (number / 10 + 1) + number % 10)
    }
}

impl<T: Drop> Drop for ClosedSlots<T> {
    fn drop(self) {
        let ClosedSlots {
            mut closed,
            segments: _,
        } = self;
        let mut i = 0;
        while i < closed.slot_count() {
            drop(closed.take(i));
            i += 1;
        }
        closed.free();
    }
}

impl<T> SlotTable<T> {
    ghost use Rattle.segment_table.specs.Ends.{EndsWith};
    ghost use Rattle.segment_table.specs.Owning.{BelongsTo};

    /// Ends the table with one of its seats. The last words, the values of the slots that are at home, and the last views of
    /// all seats, of which this seat's is one, meet the rule: all segments are open, each chunk is free or with one seat, and
    /// the slot of a free chunk is at home and empty.
    pub fn close(self, seat: SlotSeat<T>) -> ClosedSlots<T>
        requires own { BelongsTo seat self }
        ensures segments { result.segments ≡ self.segments }
        ensures last { EndsWith self seat result }
    {
        let SlotTable { table, segments } = self;
        let SlotSeat { seat: last } = seat;
        ClosedSlots {
            closed: table.close_with(last),
            segments,
        }
    }
}
