//! Claiming runs of chunks with their slots, and giving them back.
ghost use Rattle.std.specs.Prelude.{ℕ, ◌≡◌, ◌*◌, ◌<◌, ◌≤◌, slice_index, true};
ghost use Rattle.unit_model.specs.Runs.{chunks_for};

use crate::seat::SlotSeat;
use crate::table::SlotTable;
use chunk_map::{Claim, claim_among, give_back};
use unit_model::Run;

impl<T> SlotTable<T> {
    ghost use Rattle.unit_model.specs.Runs.{HasNoRun};
    ghost use Rattle.carried_slots.specs.Carried.{content};
    ghost use Rattle.carried_slots.specs.RunSlots.{HasEmpty, HasNone, SameElsewhere};
    ghost use Rattle.chunk_map.specs.Claims.{IfRun, IfFull};
    ghost use Rattle.chunk_map.specs.Looks.{was_looked, seen_free, may_be_free, Searched};
    ghost use Rattle.chunk_map.specs.Runs.{AreFree, IsLowest};
    ghost use Rattle.chunk_map.specs.Showing.{Shows};
    ghost use Rattle.segment_table.specs.Owning.{BelongsTo, first_of, log_of, slots_of};

    /// Claims a run of as many neighbouring chunks as so many bytes need, with their slots, which are empty and weren't the
    /// seat's. The search takes the lowest segment, and in it the lowest chunks, that its looks allow. It is full exactly
    /// where the looks at all chunks have no such run; chunks gained on the way are given back then, and the seat's slots are
    /// what they were.
    ///
    /// A look at a chunk is a load of its word, or a try to take its bit. A chunk that the call gained counts as found free
    /// from then on, also after it was given back.
    pub fn claim(&self, seat: &mut SlotSeat<T>, size: u32) -> Claim
        requires own { BelongsTo seat.old self.now }
        requires size { (1 ≤ size) × (size ≤ 10485760) }
        ensures own { BelongsTo seat.new self.now }
        ensures search { Searched self.now.segments (log_of seat.old) (log_of seat.new)
            × IfRun result (λ run. run.segment < self.now.segments)
            × IfFull result (λ seen. seen.segments ≡ self.now.segments) }
        ensures run { IfRun result (λ run. (run.size ≡ size)
            × AreFree (seen_free (log_of seat.new)) (chunks_for size) run.segment run.chunk
            × IsLowest (may_be_free (log_of seat.new)) (chunks_for size) run.segment run.chunk) }
        ensures slots { IfRun result (λ run.
            HasNone (first_of run) (chunks_for run.size) (slots_of seat.old)
            × HasEmpty (first_of run) (chunks_for run.size) (slots_of seat.new)
            × SameElsewhere (first_of run) (chunks_for run.size) (slots_of seat.old)
            (slots_of seat.new)) }
        ensures full { IfFull result (λ seen. Shows seen.words (log_of seat.new)
            × HasNoRun seen (chunks_for size)) }
        ensures looked { IfFull result (λ seen. (chunk : ℕ) → chunk < 640 * seen.segments
            → was_looked (log_of seat.new) chunk ≡ true) }
        ensures past { IfFull result (λ seen. (number : ℕ) → 10 * seen.segments ≤ number
            → slice_index seen.words number ≡ 0) }
        ensures kept { IfFull result (λ seen. (chunk : ℕ)
            → content (slots_of seat.new) chunk ≡ content (slots_of seat.old) chunk) }
    {
        self.load_open(seat);
        claim_among(self, seat, self.segments as usize, size)
    }

    /// Gives the chunks of a run back with their slots.
    ///
    /// The slots are empty.
    pub fn release(&self, seat: &mut SlotSeat<T>, run: Run)
        requires own { BelongsTo seat.old self.now }
        requires empty { HasEmpty (first_of run) (chunks_for run.size) (slots_of seat.old) }
        ensures own { BelongsTo seat.new self.now }
        ensures gone { HasNone (first_of run) (chunks_for run.size) (slots_of seat.new) }
        ensures elsewhere { SameElsewhere (first_of run) (chunks_for run.size) (slots_of seat.old)
            (slots_of seat.new) }
    {
        let first = 640 * run.segment as usize + run.chunk as usize;
        give_back(self, seat, first, run.chunk_count() as usize);
    }
}
