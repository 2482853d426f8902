//! Entries that are put at the ends of rings, and parts of replies that workers send.
ghost use Rattle.std.specs.Prelude.{ℕ, ◌≡◌, ◌≢◌, ◌≤◌, ◌<◌, ◌∷◌, ◌^◌, []};
ghost use Rattle.nncq_ring.specs.Words.{entry_of};
ghost use Rattle.app_queue.specs.declared.side.Side.TheVariants.{Free, Line};
ghost use Rattle.port_message.specs.Words.{numbers_of};
ghost use Rattle.unit_model.specs.Holding.{FitsQueue, items_of};
ghost use Rattle.unit_model.specs.Shapes.{role_in};
ghost use Rattle.unit_model.specs.Sharing.{Holds};
ghost use Rattle.fabric_words.specs.Offsets.{offset_of};
ghost use Rattle.fabric_words.specs.Places.{HasItem};
ghost use Rattle.fabric_words.specs.declared.place.Place.TheVariants.{Tag};
ghost use Rattle.fabric_rule.specs.Opening.{ledger_of};
ghost use Rattle.fabric_rule.specs.Sending.{CarriesPart, Gives, Pushes, PushesPart, SawVacant, Sends, queue_to, word_of_part, work_armed, work_before};
ghost use Rattle.fabric_rule.specs.Steps.{HasLists, slot_of};
ghost use Rattle.fabric_rule.specs.Views.{got_at, held_at, log_at, part_said, posts_of, run_said, tag_said};

use crate::table::{FabricSeat, FabricTable, GotItem};
use std::marker::Brand;
use unit_types::Handlers;

/// An item for a place of a ring, in whose slot this entry was seen.
#[derive(Clone, Copy, Drop)]
pub struct EntryPut {
    pub item: u32,
    pub place: u64,
    pub entry: u64,
}

/// A part of a reply, for the engine that posted the stream: its number, from 0 on, and whether it
/// is the last.
#[derive(Clone, Copy, Drop)]
pub struct PartOut {
    pub stream: u64,
    pub poster: u32,
    pub number: u64,
    pub last: bool,
}

// The entry of the item at the place, in a ring of this size.
fn entry_at(size: u32, put: EntryPut) -> u64
    requires there { put.item < size }
    requires low { put.place < 2 ^ 62 }
    ensures { result ≡ entry_of size put.place put.item }
{
    put.place - put.place % size as u64 + put.item as u64
}

impl<H: Handlers> FabricTable<H> {
    /// Pushes an armed item of an engine into the line of queue 0: one exchange of `word`, the slot
    /// of the place, from the entry that was seen there to the item's. The entry as it was. `size`
    /// is how many items the queue has.
    ///
    /// The seat has a work and the item, which it armed: its arm is with the view. It saw the tail at the place, and then
    /// the entry.
    pub fn push(&self, seat: &mut FabricSeat<H>, word: usize, size: u32, put: EntryPut) -> u64
        requires own { seat.old.seat.table_id ≡ self.now.table.shared.table_id }
        requires size { size ≡ items_of self.now.table.shared.key 0 }
        requires word { word ≡ offset_of self.now.table.shared.key
            (slot_of self.now.table.shared.key 0 Line put.place) }
        requires there { HasItem self.now.table.shared.key 0 put.item }
        requires busy { seat.old.seat.me.0.works ≢ [] }
        requires engine { role_in self.now.table.shared.key seat.old.seat.me.0.seat ≡ 0 }
        requires holds { Holds (held_at 0) put.item seat.old.seat.me.0 }
        requires armed { (stream : ℕ) × tag_said 0 seat.old.seat.me.0 put.item stream
            × (stream ≢ 0) × (1 ≤ posts_of stream put.item seat.old.seat.me.0.arms) }
        requires saw { SawVacant (items_of self.now.table.shared.key 0)
            (log_at 0 Line seat.old.seat.me.0) put.place put.entry }
        ensures own { (seat.new.seat.table_id ≡ seat.old.seat.table_id)
            × (seat.new.seat.id ≡ seat.old.seat.id) }
        ensures slots { seat.new.seat.me.1 ≡ seat.old.seat.me.1 }
        ensures told { Pushes H H.reply_of self.now.table.shared.key seat.old.seat.id put.item
            put.place put.entry seat.old.seat.me.0 result seat.new.seat.me.0 }
    {
        let next = entry_at(size, put);
        self.exchange_word::<Brand, EntryPut>(&mut seat.seat, word, put.entry, next, put)
    }

    /// Gives an item without a tag back into its free ring: one exchange of `word`, the slot of the
    /// place, from the entry that was seen there to the item's. The entry as it was. `size` is how
    /// many items the queue has.
    ///
    /// The seat has a work and the item, whose tag is 0. It saw the tail at the place, and then the
    /// entry.
    pub fn give(
        &self,
        seat: &mut FabricSeat<H>,
        word: usize,
        queue: u32,
        size: u32,
        put: EntryPut,
    ) -> u64
        requires own { seat.old.seat.table_id ≡ self.now.table.shared.table_id }
        requires size { size ≡ items_of self.now.table.shared.key queue }
        requires word { word ≡ offset_of self.now.table.shared.key
            (slot_of self.now.table.shared.key queue Free put.place) }
        requires there { HasItem self.now.table.shared.key queue put.item }
        requires busy { seat.old.seat.me.0.works ≢ [] }
        requires holds { Holds (held_at queue) put.item seat.old.seat.me.0 }
        requires untagged { tag_said queue seat.old.seat.me.0 put.item 0 }
        requires saw { SawVacant (items_of self.now.table.shared.key queue)
            (log_at queue Free seat.old.seat.me.0) put.place put.entry }
        ensures own { (seat.new.seat.table_id ≡ seat.old.seat.table_id)
            × (seat.new.seat.id ≡ seat.old.seat.id) }
        ensures slots { seat.new.seat.me.1 ≡ seat.old.seat.me.1 }
        ensures told { Gives H H.reply_of self.now.table.shared.key seat.old.seat.id queue put.item
            put.place put.entry seat.old.seat.me.0 result seat.new.seat.me.0 }
    {
        let next = entry_at(size, put);
        let about = (queue, put);
        self.exchange_word::<Brand, (u32, EntryPut)>(&mut seat.seat, word, put.entry, next, about)
    }

    /// Sends a part of a reply with an item that a worker got from the free ring of the poster's
    /// queue: one store of `word`, which is the item's tag.
    ///
    /// The seat is a worker's, with the lists and the stream that it took, all of whose earlier
    /// parts it has sent and pushed. It noted or stored the item's run, and the part's number and
    /// last mark as the item's part. The run's slots have the pieces of the part; they go home with
    /// the stream.
    pub fn send_part(&self, seat: &mut FabricSeat<H>, word: usize, got: GotItem, part: PartOut)
        requires own { seat.old.seat.table_id ≡ self.now.table.shared.table_id }
        requires word { word ≡ offset_of self.now.table.shared.key (Tag (queue_to part) got.item) }
        requires there { HasItem self.now.table.shared.key (queue_to part) got.item }
        requires main { HasLists seat.old.seat.me.0 (ledger_of seat.old.seat.me.0)
            (work_before part ∷ []) }
        requires worker { role_in self.now.table.shared.key seat.old.seat.me.0.seat ≡ 1 }
        requires holds { Holds (held_at (queue_to part)) got.item seat.old.seat.me.0 }
        requires got { got_at (queue_to part) seat.old.seat.me.0 got.item got.place }
        requires run { run_said (queue_to part) seat.old.seat.me.0 got.item got.run }
        requires part { part_said (queue_to part) seat.old.seat.me.0 got.item (word_of_part part) }
        requires fits { FitsQueue self.now.table.shared.key (queue_to part) (numbers_of got.run) }
        requires carries { CarriesPart H.reply_of part (numbers_of got.run) seat.old.seat.me.1 }
        ensures own { (seat.new.seat.table_id ≡ seat.old.seat.table_id)
            × (seat.new.seat.id ≡ seat.old.seat.id) }
        ensures told { Sends H H.reply_of self.now.table.shared.key seat.old.seat.id part got.item
            got.place got.run seat.old.seat.me seat.new.seat.me }
    {
        let about = (got, part);
        self.store_word::<Brand, (GotItem, PartOut)>(&mut seat.seat, word, part.stream, about);
    }

    /// Pushes a part of a reply into the line of the poster's queue: one exchange of `word`, the
    /// slot of the place, from the entry that was seen there to the item's. The entry as it was.
    /// `size` is how many items the queue has.
    ///
    /// The seat is a worker's that armed the part with the item. It saw the tail at the place, and
    /// then the entry.
    pub fn push_part(
        &self,
        seat: &mut FabricSeat<H>,
        word: usize,
        size: u32,
        part: PartOut,
        put: EntryPut,
    ) -> u64
        requires own { seat.old.seat.table_id ≡ self.now.table.shared.table_id }
        requires size { size ≡ items_of self.now.table.shared.key (queue_to part) }
        requires word { word ≡ offset_of self.now.table.shared.key
            (slot_of self.now.table.shared.key (queue_to part) Line put.place) }
        requires there { HasItem self.now.table.shared.key (queue_to part) put.item }
        requires work { seat.old.seat.me.0.works ≡ work_armed part put.item ∷ [] }
        requires worker { role_in self.now.table.shared.key seat.old.seat.me.0.seat ≡ 1 }
        requires holds { Holds (held_at (queue_to part)) put.item seat.old.seat.me.0 }
        requires armed { tag_said (queue_to part) seat.old.seat.me.0 put.item part.stream }
        requires saw { SawVacant (items_of self.now.table.shared.key (queue_to part))
            (log_at (queue_to part) Line seat.old.seat.me.0) put.place put.entry }
        ensures own { (seat.new.seat.table_id ≡ seat.old.seat.table_id)
            × (seat.new.seat.id ≡ seat.old.seat.id) }
        ensures slots { seat.new.seat.me.1 ≡ seat.old.seat.me.1 }
        ensures told { PushesPart H H.reply_of self.now.table.shared.key seat.old.seat.id part
            put.item put.place put.entry seat.old.seat.me.0 result seat.new.seat.me.0 }
    {
        let next = entry_at(size, put);
        let about = (part, put);
        self.exchange_word::<Brand, (PartOut, EntryPut)>(
            &mut seat.seat,
            word,
            put.entry,
            next,
            about,
        )
    }
}
