//! Loads: one word of a fabric is read, and noted.
ghost use Rattle.std.specs.Prelude.{ℕ, ◌≡◌};
ghost use Rattle.fabric_words.specs.Offsets.{offset_of};
ghost use Rattle.fabric_words.specs.Places.{IsThere};
ghost use Rattle.fabric_rule.specs.Looks.{place_of};
ghost use Rattle.fabric_rule.specs.Told.{Sees};

use crate::event::Segments;
use crate::table::{FabricSeat, FabricTable};
use app_queue::Side;
use std::marker::Brand;
use unit_types::Handlers;

/// Which word a seat looks at.
#[derive(Clone, Copy, Drop)]
pub enum Look {
    /// The next stream.
    Next,
    /// How many of these segments are open.
    Open(Segments),
    /// A word of these segments' map, in which words are numbered from 0.
    Map { segments: Segments, number: u32 },
    /// The tail of a ring.
    Tail { queue: u32, side: Side },
    /// The head of a ring.
    Head { queue: u32, side: Side },
    /// The entry of a ring at the slot of a place.
    Entry { queue: u32, side: Side, place: u64 },
    /// The tag of an item.
    Tag { queue: u32, item: u32 },
    /// The run word of an item.
    Run { queue: u32, item: u32 },
    /// The part word of an item.
    Part { queue: u32, item: u32 },
}

impl<H: Handlers> FabricTable<H> {
    /// The word that is looked at, which stands at `word`.
    pub fn load(&self, seat: &mut FabricSeat<H>, word: usize, look: Look) -> u64
        requires own { seat.old.seat.table_id ≡ self.now.table.shared.table_id }
        requires word { word ≡ offset_of self.now.table.shared.key
            (place_of self.now.table.shared.key look) }
        requires there { IsThere self.now.table.shared.key (place_of self.now.table.shared.key look) }
        ensures own { (seat.new.seat.table_id ≡ seat.old.seat.table_id)
            × (seat.new.seat.id ≡ seat.old.seat.id) }
        ensures told { Sees H H.reply_of self.now.table.shared.key seat.old.seat.id look
            seat.old.seat.me result seat.new.seat.me }
    {
        self.load_word::<Brand, Look>(&mut seat.seat, word, look)
    }
}
