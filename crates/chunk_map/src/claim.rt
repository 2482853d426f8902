//! Claiming runs of chunks of a map with a table of its own, giving them back, and opening segments.
ghost use Rattle.std.specs.Prelude.{◌≡◌, ◌+◌, ◌*◌, ◌<◌, ◌≤◌, ℕ, ◌-◌, slice_index, true};
ghost use Rattle.unit_model.specs.Limits.{chunk_bytes, segment_chunks};
ghost use Rattle.unit_model.specs.Runs.{chunks_for};

use crate::map::ChunkMap;
use crate::search::{Claim, claim_run, give_back};
use crate::seat::MapSeat;
use unit_model::Run;

/// What an attempt to open a segment did.
#[derive(Clone, Copy, Debug, PartialEq, Eq, Drop)]
pub enum Opened {
    /// This call's exchange took the number of open segments from the one before to this one.
    Yes(u32),
    /// So many segments, which is all of them, were open.
    AllOpen(u32),
    /// This call's exchange found this number, another one than its load.
    Other(u32),
}

impl ChunkMap {
    ghost use Rattle.unit_model.specs.Runs.{HasNoRun};
    ghost use Rattle.unit_model.specs.Weights.{weigh};
    ghost use Rattle.chunk_map.specs.Claims.{IfRun, IfFull};
    ghost use Rattle.chunk_map.specs.Gains.{given_back, Steps};
    ghost use Rattle.chunk_map.specs.Looks.{open_seen, was_looked, seen_free, may_be_free, Searched};
    ghost use Rattle.chunk_map.specs.Runs.{run_chunks, AreFree, IsLowest};
    ghost use Rattle.chunk_map.specs.Seats.{BelongsTo, HoldsChunk, knows};
    ghost use Rattle.chunk_map.specs.Showing.{Shows};
    ghost use Rattle.chunk_map.specs.Views.{does};
    ghost use Rattle.chunk_map.specs.declared.view.MapEvent.TheVariants.{SawOpen, FoundOpen, OpenedTo};

    /// Claims a run of as many neighbouring chunks as so many bytes need. The search takes the lowest open segment, and in it
    /// the lowest chunks, that its looks allow; chunks gained on the way to a full map are given back.
    ///
    /// A look at a chunk is a load of its word, or a try to take its bit. A chunk that the call gained counts as found free
    /// from then on, also after it was given back.
    pub fn claim_run(&self, seat: &mut MapSeat, size: u32) -> Claim
        requires own { BelongsTo seat.old self.now }
        requires size { (1 ≤ size) × (size ≤ segment_chunks * chunk_bytes) }
        ensures own { BelongsTo seat.new self.now }
        ensures told { Steps does (knows seat.old) (knows seat.new) }
        ensures search { (opened : ℕ) × (1 ≤ opened) × (open_seen (knows seat.old).log ≤ opened)
            × (opened ≤ self.now.segments)
            × Searched opened (knows seat.old).log (knows seat.new).log
            × IfRun result (λ run. run.segment < opened)
            × IfFull result (λ seen. seen.segments ≡ opened) }
        ensures run { IfRun result (λ run. (run.size ≡ size)
            × AreFree (seen_free (knows seat.new).log) (chunks_for size) run.segment run.chunk
            × IsLowest (may_be_free (knows seat.new).log) (chunks_for size) run.segment run.chunk) }
        ensures gained { IfRun result (λ run. (f : ℕ → ℕ)
            → weigh f (knows seat.new).held ≡ weigh f (run_chunks run)
            + weigh f (knows seat.old).held) }
        ensures full { IfFull result (λ seen. Shows seen.words (knows seat.new).log
            × HasNoRun seen (chunks_for size)) }
        ensures looked { IfFull result (λ seen. (chunk : ℕ)
            → chunk < segment_chunks * seen.segments → was_looked (knows seat.new).log chunk ≡ true) }
        ensures past { IfFull result (λ seen. (number : ℕ) → 10 * seen.segments ≤ number
            → slice_index seen.words number ≡ 0) }
        ensures held { IfFull result (λ seen. (f : ℕ → ℕ)
            → weigh f (knows seat.new).held ≡ weigh f (knows seat.old).held) }
    {
        claim_run(self, seat, size)
    }

    /// Gives the chunks of a run back.
    pub fn release_run(&self, seat: &mut MapSeat, run: Run)
        requires own { BelongsTo seat.old self.now }
        requires held { (i : ℕ) → i < chunks_for run.size
            → HoldsChunk seat.old (segment_chunks * run.segment + run.chunk + i) }
        ensures own { BelongsTo seat.new self.now }
        ensures view { knows seat.new
            ≡ given_back does (segment_chunks * run.segment + run.chunk) (chunks_for run.size)
            (knows seat.old) }
        ensures released { (f : ℕ → ℕ)
            → weigh f (run_chunks run) + weigh f (knows seat.new).held
            ≡ weigh f (knows seat.old).held }
    {
        let first = 640 * run.segment as usize + run.chunk as usize;
        give_back(self, seat, first, run.chunk_count() as usize);
    }

    /// Opens one more segment, where not all are open.
    pub fn open_more(&self, seat: &mut MapSeat) -> Opened
        requires own { BelongsTo seat.old self.now }
        ensures own { BelongsTo seat.new self.now }
        ensures yes { (n : ℕ) → result ≡ Opened.Yes n → (2 ≤ n) × (n ≤ self.now.segments)
            × (open_seen (knows seat.old).log ≤ n - 1)
            × (knows seat.new ≡ does (OpenedTo n) (does (SawOpen (n - 1)) (knows seat.old))) }
        ensures all { (n : ℕ) → result ≡ Opened.AllOpen n → (n ≡ self.now.segments)
            × (open_seen (knows seat.old).log ≤ n)
            × (knows seat.new ≡ does (SawOpen n) (knows seat.old)) }
        ensures other { (found : ℕ) → result ≡ Opened.Other found → (loaded : ℕ) × (1 ≤ loaded)
            × (open_seen (knows seat.old).log ≤ loaded) × (loaded < found)
            × (found ≤ self.now.segments)
            × (knows seat.new ≡ does (FoundOpen found) (does (SawOpen loaded) (knows seat.old))) }
    {
        let count = self.load_open(seat);
        if count == self.segments as u64 {
            return Opened::AllOpen(self.segments);
        }
        let found = self.exchange_open(seat, count);
        if found == count {
            Opened::Yes(count as u32 + 1)
        } else {
            Opened::Other(found as u32)
        }
    }
}
