//! Tags that no thread shares any more.
ghost use Rattle.std.specs.Prelude.{◌≡◌, ◌<◌, ℕ};
ghost use Rattle.std.specs.Slots.{slots_len, IsFull};

use crate::seat::TagSeat;
use crate::tags::Tags;
use atomic_table::Closed;
use std::alloc::Global;

/// The last tags of items, after their table was closed.
pub struct ClosedTags {
    pub(crate) closed: Closed<u8, Global>,
    pub(crate) items: u32,
    ghost full: { IsFull closed.words × (slots_len closed.words ≡ items)
        × (slots_len closed.slots ≡ 0) },
}

impl ClosedTags {
    ghost use Rattle.tracking_word.specs.Ends.{last_tags};

    /// The last tag of an item.
    pub fn tag(&self, item: u32) -> u64
        requires { item < self.now.items }
        ensures { result ≡ last_tags self.now item }
    {
        self.closed.word(item as usize)
    }
}

impl Drop for ClosedTags {
    fn drop(self) {
        let ClosedTags { closed, items: _ } = self;
        closed.free();
    }
}

impl Tags {
    ghost use Rattle.tracking_word.specs.Ends.{EndsWith};
    ghost use Rattle.tracking_word.specs.Seats.{BelongsTo};

    /// Ends the tags with one of their seats. The last tags and the last views of all seats, of which this seat's is one, meet
    /// the rule: every arm was won once or still stands, and each item is with one seat.
    pub fn close(self, seat: TagSeat) -> ClosedTags
        requires own { BelongsTo seat self }
        ensures items { result.items ≡ self.items }
        ensures last { EndsWith self seat result }
    {
        let Tags { table, items } = self;
        let TagSeat { seat: last } = seat;
        ClosedTags {
            closed: table.close_with(last),
            items,
        }
    }
}
