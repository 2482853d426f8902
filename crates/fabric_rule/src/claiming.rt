//! Chunks are claimed and given back one by one, each with its slot.
ghost use Rattle.std.specs.Prelude.{◌≡◌, ◌*◌, ◌<◌, Some, None};
ghost use Rattle.carried_slots.specs.Carried.{content};
ghost use Rattle.unit_model.specs.Limits.{segment_chunks};
ghost use Rattle.fabric_words.specs.Offsets.{offset_of};
ghost use Rattle.fabric_rule.specs.Claiming.{Claims, MayClaim, Releases, chunk_in, side_segments, word_of_chunk};

use crate::event::Segments;
use crate::table::{FabricSeat, FabricTable};
use std::marker::Brand;
use unit_types::Handlers;

impl<H: Handlers> FabricTable<H> {
    /// Claims a chunk, where it is free: clears its bit in `word`, the map word that has it.
    /// Whether it was free; then it is the seat's, with its empty slot in front of what the seat
    /// carries.
    ///
    /// The chunk is numbered from 0 in the segments of the seat's side. The seat has a work, and
    /// saw the chunk's segment open.
    pub fn claim_bit(
        &self,
        seat: &mut FabricSeat<H>,
        word: usize,
        segments: Segments,
        chunk: u32,
    ) -> bool
        requires own { seat.old.seat.table_id ≡ self.now.table.shared.table_id }
        requires word { word ≡ offset_of self.now.table.shared.key
            (word_of_chunk self.now.table.shared.key segments chunk) }
        requires may { MayClaim self.now.table.shared.key seat.old.seat.me.0 segments chunk }
        ensures own { (seat.new.seat.table_id ≡ seat.old.seat.table_id)
            × (seat.new.seat.id ≡ seat.old.seat.id) }
        ensures told { Claims H H.reply_of self.now.table.shared.key seat.old.seat.id segments chunk
            seat.old.seat.me result seat.new.seat.me }
    {
        let bit = chunk % 64;
        let mask = !(1u64 << bit);
        let about = (segments, chunk);
        let found = self.and_word::<Brand, (Segments, u32)>(&mut seat.seat, word, mask, about);
        (found >> bit) & 1 == 1
    }

    /// Gives a chunk of the seat back with its slot: sets its bit in `word`, the map word that has
    /// it.
    ///
    /// The chunk is numbered from 0 in these segments. Its slot is empty.
    pub fn release_bit(&self, seat: &mut FabricSeat<H>, word: usize, segments: Segments, chunk: u32)
        requires own { seat.old.seat.table_id ≡ self.now.table.shared.table_id }
        requires word { word ≡ offset_of self.now.table.shared.key
            (word_of_chunk self.now.table.shared.key segments chunk) }
        requires there { chunk < segment_chunks * side_segments self.now.table.shared.key segments }
        requires empty { content seat.old.seat.me.1
            (chunk_in self.now.table.shared.key segments chunk) ≡ Some None }
        ensures own { (seat.new.seat.table_id ≡ seat.old.seat.table_id)
            × (seat.new.seat.id ≡ seat.old.seat.id) }
        ensures told { Releases H H.reply_of self.now.table.shared.key seat.old.seat.id segments
            chunk seat.old.seat.me seat.new.seat.me }
    {
        let bit = chunk % 64;
        let about = (segments, chunk);
        self.or_word::<Brand, (Segments, u32)>(&mut seat.seat, word, 1u64 << bit, about);
    }
}
