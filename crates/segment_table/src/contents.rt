//! Filling the chunks of a run, and reading them.
ghost use Rattle.std.specs.Prelude.{ℕ, ◌≡◌, ◌≢◌, ◌+◌, ◌≤◌, [], length, Option, Some, None};
ghost use Rattle.unit_model.specs.Runs.{chunks_for};

use crate::seat::SlotSeat;
use crate::table::SlotTable;
use request_context::{Parcel, Pieces};
use unit_model::Run;
use unit_types::Handlers;

impl<T> SlotTable<T> {
    ghost use Rattle.carried_slots.specs.Carried.{content};
    ghost use Rattle.segment_table.specs.Owning.{BelongsTo, knows, slots_of};

    // Puts a value into an empty slot.
    fn put(&self, seat: &mut SlotSeat<T>, chunk: usize, value: T)
        requires own { BelongsTo seat.old self.now }
        requires empty { content (slots_of seat.old) chunk ≡ Some None }
        ensures own { BelongsTo seat.new self.now }
        ensures view { knows seat.new ≡ knows seat.old }
        ensures here { content (slots_of seat.new) chunk ≡ Some (Some value) }
        ensures others { (k : ℕ) → k ≢ chunk
            → content (slots_of seat.new) k ≡ content (slots_of seat.old) k }
    {
        let old = self.swap(seat, chunk, Some(value));
        let None = old else { unreachable!() };
    }

    // Takes the value out of a slot that has one.
    fn take_out(&self, seat: &mut SlotSeat<T>, chunk: usize) -> T
        requires own { BelongsTo seat.old self.now }
        requires full { (value : T) × (content (slots_of seat.old) chunk ≡ Some (Some value)) }
        ensures own { BelongsTo seat.new self.now }
        ensures view { knows seat.new ≡ knows seat.old }
        ensures was { content (slots_of seat.old) chunk ≡ Some (Some result) }
        ensures here { content (slots_of seat.new) chunk ≡ Some None }
        ensures others { (k : ℕ) → k ≢ chunk
            → content (slots_of seat.new) k ≡ content (slots_of seat.old) k }
    {
        let old = self.swap(seat, chunk, None);
        let Some(value) = old else { unreachable!() };
        value
    }
}

impl<H: Handlers> SlotTable<Parcel<H>> {
    ghost use Rattle.carried_slots.specs.RunSlots.{HasEmpty, HasFull, HasValues, SameElsewhere};
    ghost use Rattle.segment_table.specs.Owning.{BelongsTo, first_of, knows, slots_of};

    /// Puts the parcels into the chunks of a run in order, one into each, and leaves the list empty. It takes no memory.
    ///
    /// The chunks are empty, and there are as many parcels.
    pub fn fill(&self, seat: &mut SlotSeat<Parcel<H>>, run: Run, pieces: &mut Pieces<H>)
        requires own { BelongsTo seat.old self.now }
        requires empty { HasEmpty (first_of run) (chunks_for run.size) (slots_of seat.old) }
        requires many { length pieces.old.parcels ≡ chunks_for run.size }
        ensures own { BelongsTo seat.new self.now }
        ensures view { knows seat.new ≡ knows seat.old }
        ensures filled { HasValues (first_of run) pieces.old.parcels (slots_of seat.new) }
        ensures elsewhere { SameElsewhere (first_of run) (chunks_for run.size) (slots_of seat.old)
            (slots_of seat.new) }
        ensures emptied { pieces.new.parcels ≡ [] }
        ensures spare { pieces.new.spare ≡ pieces.old.spare + length pieces.old.parcels }
    {
        let first = 640 * run.segment as usize + run.chunk as usize;
        let mut chunk = first;
        while let Some(parcel) = pieces.pop() {
            self.put(seat, chunk, parcel);
            chunk += 1;
        }
    }

    /// Takes the parcels out of the chunks of a run, in order. It takes no memory.
    ///
    /// The chunks are filled, and the list is empty with a spare for them.
    pub fn read(&self, seat: &mut SlotSeat<Parcel<H>>, run: Run, into: &mut Pieces<H>)
        requires own { BelongsTo seat.old self.now }
        requires full { HasFull (first_of run) (chunks_for run.size) (slots_of seat.old) }
        requires room { (into.old.parcels ≡ []) × (chunks_for run.size ≤ into.old.spare) }
        ensures own { BelongsTo seat.new self.now }
        ensures view { knows seat.new ≡ knows seat.old }
        ensures count { length into.new.parcels ≡ chunks_for run.size }
        ensures read { HasValues (first_of run) into.new.parcels (slots_of seat.old) }
        ensures emptied { HasEmpty (first_of run) (chunks_for run.size) (slots_of seat.new) }
        ensures elsewhere { SameElsewhere (first_of run) (chunks_for run.size) (slots_of seat.old)
            (slots_of seat.new) }
        ensures spare { into.new.spare + chunks_for run.size ≡ into.old.spare }
    {
        let first = 640 * run.segment as usize + run.chunk as usize;
        let count = run.chunk_count() as usize;
        for i in 0..count {
            into.push(self.take_out(seat, first + i));
        }
    }
}
