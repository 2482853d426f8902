//! The single steps on the table: each is one load, one change of one bit, or one exchange of a slot that the seat carries.
ghost use Rattle.std.specs.Prelude.{ℕ, ◌≡◌, ◌≢◌, ◌+◌, ◌*◌, ◌/◌, ◌<◌, ◌≤◌, List, [], ◌∷◌, Option, Some, None, IsTrue, IsFalse};

use crate::seat::SlotSeat;
use crate::table::{Aim, Bringing, Freeing, SeeingOpen, SeeingWord, SlotTable, Taking};
use std::marker::Brand;

impl<T> SlotTable<T> {
    ghost use Rattle.unit_model.specs.Weights.{times};
    ghost use Rattle.atomic_table.specs.Table.{rest};
    ghost use Rattle.carried_slots.specs.Carried.{but, content, front, numbers};
    ghost use Rattle.chunk_map.specs.Looks.{open_seen};
    ghost use Rattle.chunk_map.specs.declared.view.MapEvent.TheVariants.{SawOpen, SawWord, Gained, Missed, Released};
    ghost use Rattle.segment_table.specs.Events.{did};
    ghost use Rattle.segment_table.specs.Owning.{BelongsTo, knows, slots_of};

    // How many segments are open, which is all of them.
    pub(crate) fn load_open(&self, seat: &mut SlotSeat<T>) -> u64
        requires own { BelongsTo seat.old self.now }
        ensures own { BelongsTo seat.new self.now }
        ensures count { (result ≡ self.now.segments) × (1 ≤ result) × (result ≤ 8)
            × (open_seen (knows seat.old).log ≤ result) }
        ensures view { seat.new.seat.me ≡ did (SawOpen result) seat.old.seat.me }
    {
        let table = &self.table;
        let shared = &table.shared;
        shared.load::<SeeingOpen>(&mut seat.seat, 0)
    }

    // A word of the map.
    pub(crate) fn load_word(&self, seat: &mut SlotSeat<T>, number: usize) -> u64
        requires own { BelongsTo seat.old self.now }
        requires number { number < 10 * self.now.segments }
        ensures own { BelongsTo seat.new self.now }
        ensures view { seat.new.seat.me ≡ did (SawWord number result) seat.old.seat.me }
    {
        let table = &self.table;
        let shared = &table.shared;
        shared.load::<SeeingWord>(&mut seat.seat, 16 * (number / 10 + 1) + number % 10)
    }

    // Clears a bit. The chunk is the seat's, with its slot, where the bit was set.
    pub(crate) fn take_bit(&self, seat: &mut SlotSeat<T>, number: usize, bit: usize) -> bool
        requires own { BelongsTo seat.old self.now }
        requires number { number < 10 * self.now.segments }
        requires bit { bit < 64 }
        ensures own { BelongsTo seat.new self.now }
        ensures gained { IsTrue result
            → seat.new.seat.me ≡ did (Gained (64 * number + bit)) seat.old.seat.me }
        ensures missed { IsFalse result
            → seat.new.seat.me ≡ did (Missed (64 * number + bit)) seat.old.seat.me }
    {
        let table = &self.table;
        let shared = &table.shared;
        let index = 16 * (number / 10 + 1) + number % 10;
        let mask = !(1u64 << bit);
        let found = shared.fetch_and::<Taking>(&mut seat.seat, index, mask);
        (found >> bit) & 1 == 1
    }

    // Sets the bit of a chunk whose slot the seat carries, and it is empty.
    pub(crate) fn free_bit(&self, seat: &mut SlotSeat<T>, number: usize, bit: usize)
        requires own { BelongsTo seat.old self.now }
        requires number { number < 10 * self.now.segments }
        requires bit { bit < 64 }
        requires empty { content (slots_of seat.old) (64 * number + bit) ≡ Some None }
        ensures own { BelongsTo seat.new self.now }
        ensures view { seat.new.seat.me ≡ did (Released (64 * number + bit)) seat.old.seat.me }
    {
        let table = &self.table;
        let shared = &table.shared;
        shared.fetch_or::<Freeing>(
            &mut seat.seat,
            16 * (number / 10 + 1) + number % 10,
            1u64 << bit,
        );
    }

    // The slot of the chunk comes to the front, by a load whose result is of no concern. The chunk is for the pick.
    fn bring<J: Aim>(&self, seat: &mut SlotSeat<T>, _chunk: usize)
        requires own { BelongsTo seat.old self.now }
        requires aim { J.chunk ≡ _chunk }
        ensures own { BelongsTo seat.new self.now }
        ensures view { knows seat.new ≡ knows seat.old }
        ensures slots { slots_of seat.new ≡ front _chunk (slots_of seat.old) }
    {
        let table = &self.table;
        let shared = &table.shared;
        shared.load::<Bringing<J>>(&mut seat.seat, 0);
    }

    // Puts a content into the slot of a chunk that the seat holds, and takes out what it had.
    pub(crate) fn swap(&self, seat: &mut SlotSeat<T>, chunk: usize, new: Option<T>) -> Option<T>
        requires own { BelongsTo seat.old self.now }
        requires held { 0 < times chunk (numbers (slots_of seat.old)) }
        ensures own { BelongsTo seat.new self.now }
        ensures view { knows seat.new ≡ knows seat.old }
        ensures was { content (slots_of seat.old) chunk ≡ Some result }
        ensures slots { slots_of seat.new ≡ (chunk, new) ∷ but chunk (slots_of seat.old) }
    {
        self.bring::<Brand>(seat, chunk);
        let table = &self.table;
        let shared = &table.shared;
        shared.exchange(&mut seat.seat, chunk, new)
    }
}
