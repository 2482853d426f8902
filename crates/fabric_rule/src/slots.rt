//! What lies in the chunks of a seat is put there and taken out.
ghost use Rattle.std.specs.Prelude.{◌≡◌, ◌∷◌, ◌<◌, Some};
ghost use Rattle.carried_slots.specs.Carried.{but, content, front, numbers};
ghost use Rattle.unit_model.specs.Weights.{times};
ghost use Rattle.fabric_rule.specs.Reordering.{Brings, IsQuiet};

use crate::table::{FabricSeat, FabricTable};
use request_context::Parcel;
use std::marker::Brand;
use unit_types::Handlers;

impl<H: Handlers> FabricTable<H> {
    // The slot of the chunk comes to the front, by a load of word 0, which never changes.
    fn bring(&self, seat: &mut FabricSeat<H>, chunk: usize)
        requires own { seat.old.seat.table_id ≡ self.now.table.shared.table_id }
        ensures own { (seat.new.seat.table_id ≡ seat.old.seat.table_id)
            × (seat.new.seat.id ≡ seat.old.seat.id) }
        ensures told { Brings H H.reply_of self.now.table.shared.key seat.old.seat.id chunk
            seat.old.seat.me seat.new.seat.me }
    {
        self.load_word::<Brand, usize>(&mut seat.seat, 0, chunk);
    }

    /// Puts a content into the slot of a chunk that the seat has, and takes out what it had. Chunks
    /// are numbered over all segments. It is no step of the machine, and leaves the view.
    pub fn swap(
        &self,
        seat: &mut FabricSeat<H>,
        chunk: usize,
        new: Option<Parcel<H>>,
    ) -> Option<Parcel<H>>
        requires own { seat.old.seat.table_id ≡ self.now.table.shared.table_id }
        requires held { 0 < times chunk (numbers seat.old.seat.me.1) }
        ensures own { (seat.new.seat.table_id ≡ seat.old.seat.table_id)
            × (seat.new.seat.id ≡ seat.old.seat.id) }
        ensures view { seat.new.seat.me.0 ≡ seat.old.seat.me.0 }
        ensures was { content seat.old.seat.me.1 chunk ≡ Some result }
        ensures slots { seat.new.seat.me.1 ≡ (chunk, new) ∷ but chunk seat.old.seat.me.1 }
        ensures quiet { IsQuiet H H.reply_of self.now.table.shared.key seat.old.seat.id
            seat.old.seat.me.0 }
    {
        self.bring(seat, chunk);
        let table = &self.table;
        let shared = &table.shared;
        shared.exchange(&mut seat.seat, chunk, new)
    }
}
