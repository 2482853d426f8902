//! A queue that no thread shares any more.
ghost use Rattle.std.specs.Prelude.{◌≡◌, ◌+◌, ◌*◌, ◌≤◌, ℕ};
ghost use Rattle.std.specs.Slots.{slots_len, IsFull};

use crate::layout::{Place, word_at};
use crate::queue::AppQueue;
use crate::seat::QueueSeat;
use atomic_table::Closed;
use std::alloc::Global;

/// The last words of a queue that was closed.
pub struct ClosedQueue {
    pub(crate) closed: Closed<u8, Global>,
    pub(crate) size: u32,
    ghost full: { IsFull closed.words × (slots_len closed.words ≡ 112 + 5 * size)
        × (slots_len closed.slots ≡ 0) },
}

impl ClosedQueue {
    ghost use Rattle.app_queue.specs.Ends.{last_word};
    ghost use Rattle.app_queue.specs.Layout.{IsReal};

    /// The last value of a word.
    pub fn word(&self, place: Place) -> u64
        requires { IsReal self.now.size place }
        ensures { result ≡ last_word self.now place }
    {
        self.closed.word(word_at(self.size, place))
    }
}

impl Drop for ClosedQueue {
    fn drop(self) {
        let ClosedQueue { closed, size: _ } = self;
        closed.free();
    }
}

impl AppQueue {
    ghost use Rattle.app_queue.specs.Ends.{EndsWith};
    ghost use Rattle.app_queue.specs.Seats.{BelongsTo, items_of};

    /// Ends the queue with one of its seats. The last words and the last views of all seats, of which this seat's is one, meet the
    /// rule: each item is in one ring or with one seat, the tags of free items are 0, every arm was won once or still stands, and
    /// holders know their items' words.
    pub fn close(self, seat: QueueSeat) -> ClosedQueue
        requires own { BelongsTo seat self }
        ensures items { result.size ≡ items_of self }
        ensures last { EndsWith self seat result }
    {
        let AppQueue { table, size } = self;
        let QueueSeat { seat: last } = seat;
        ClosedQueue {
            closed: table.close_with(last),
            size,
        }
    }
}
