//! The segments of one side of a fabric are a chunk map: runs of chunks are claimed there, with their slots, and given back.
ghost use Rattle.std.specs.Prelude.{◌≡◌, ◌+◌, ◌*◌, ◌/◌, ◌%◌, ◌<◌, ◌≤◌, ◌^◌};
ghost use Rattle.carried_slots.specs.Carried.{IsDistinct};
ghost use Rattle.carried_slots.specs.RunSlots.{HasEmpty, HasNone, SameElsewhere};
ghost use Rattle.fabric_words.specs.Offsets.{map_start, offset_of};
ghost use Rattle.unit_model.specs.Limits.{chunk_bytes, segment_chunks};
ghost use Rattle.unit_model.specs.Runs.{chunks_for};
ghost use Rattle.unit_model.specs.declared.shape.Shape.{Shape};
ghost use Rattle.fabric_rule.specs.Claiming.{side_segments};
ghost use Rattle.fabric_rule.specs.Looks.{map_word, opened_word};
ghost use Rattle.fabric_rule.specs.SegmentMaps.{ClaimTold, MayTakeChunks, OnlyChunks, first_in_side, side_chunks};

use crate::event::Segments;
use crate::look::Look;
use crate::table::{FabricSeat, FabricTable};
use chunk_map::{Claim, MapSteps, claim_run, give_back};
use fabric_words::Layout;
use std::marker::Brand;
use unit_model::Run;
use unit_types::Handlers;

// Where the map words of all segments begin, and how far those of two segments stand apart.
const MAP: usize = 64;

const GROUP: usize = 16;

/// The segments of one side, whose map words begin at `words`. The word at `opened` says how many of them are open.
#[derive(Drop)]
pub struct SegmentMap<'a, H: Handlers> {
    table: &'a FabricTable<H>,
    segments: Segments,
    opened: usize,
    words: usize,
    ghost some: { (1 ≤ side_segments table.now.table.shared.key segments)
        × (side_segments table.now.table.shared.key segments ≤ 8) },
    ghost opened_is: { opened ≡ offset_of table.now.table.shared.key (opened_word segments) },
    ghost words_is: { (words ≡ map_start + 16 * (map_word table.now.table.shared.key segments 0 / 10))
        × (words < 2 ^ 16) },
}

// Where the word stands that says how many are open.
fn opened_at(segments: Segments) -> usize
    ensures { (shape : Shape) → result ≡ offset_of shape (opened_word segments) }
{
    match segments {
        Segments::Out => 2 * GROUP,
        Segments::Back => 3 * GROUP,
    }
}

// Where the map words of a side begin.
fn map_at(layout: &Layout, segments: Segments) -> usize
    ensures value { result
        ≡ map_start + 16 * (map_word layout.now.shape segments 0 / 10) }
    ensures small { result < 2 ^ 16 }
{
    match segments {
        Segments::Out => MAP,
        Segments::Back => MAP + GROUP * layout.shape().out_segments as usize,
    }
}

impl<'a, H: Handlers> SegmentMap<'a, H> {
    // Where a word of the map stands.
    fn word(&self, number: usize) -> usize
        requires { number < 80 }
        ensures { result ≡ self.now.words + 16 * (number / 10) + number % 10 }
    {
        self.words + GROUP * (number / 10) + number % 10
    }
}

impl<H: Handlers> FabricTable<H> {
    // Tells that the seat carries no slot twice, by a load of word 0, which never changes.
    fn once(&self, seat: &mut FabricSeat<H>)
        requires own { seat.old.seat.table_id ≡ self.now.table.shared.table_id }
        ensures own { (seat.new.seat.table_id ≡ seat.old.seat.table_id)
            × (seat.new.seat.id ≡ seat.old.seat.id) }
        ensures same { seat.new.seat.me ≡ seat.old.seat.me }
        ensures once { IsDistinct seat.old.seat.me.1 }
    {
        self.load_word::<Brand, ()>(&mut seat.seat, 0, ());
    }
}

impl<'a, H: Handlers> MapSteps for SegmentMap<'a, H> {
    ghost use Rattle.std.specs.Prelude.{Option, refl};
    ghost use Rattle.atomic_table.specs.Table.{Me};
    ghost use Rattle.request_context.specs.declared.piece.Parcel.{Parcel};
    ghost use Rattle.fabric_rule.specs.SegmentMaps.{did, event_logs, frees_one, gains_one, side_weight, still_takes};
    ghost use Rattle.fabric_rule.specs.Views.{map_log};
    ghost use Rattle.fabric_rule.specs.declared.view.FabricView.{FabricView};

    type Seat = FabricSeat<H>;

    ghost View = { Me (Option (Parcel H)) FabricView };

    ghost knows = { λ s. s.seat.me };

    ghost belongs = { λ s m. s.seat.table_id ≡ m.table.now.table.shared.table_id };

    ghost segments = { λ m. side_segments m.table.now.table.shared.key m.segments };

    ghost events = { λ m k. map_log m.segments k.0.log };

    ghost after = { λ m e k. did m.table.now.table.shared.key m.segments e k };

    ghost weighs = { λ m f k. side_weight m.table.now.table.shared.key m.segments f k.1 };

    ghost may_take = { λ m k. MayTakeChunks m.table.now.table.shared.key m.segments k.0 };

    fn see_open(&self, seat: &mut FabricSeat<H>) -> u64 {
        self.table
            .load(seat, self.opened, Look::Open(self.segments))
    }

    fn see_word(&self, seat: &mut FabricSeat<H>, number: usize) -> u64 {
        let look = Look::Map {
            segments: self.segments,
            number: number as u32,
        };
        self.table.load(seat, self.word(number), look)
    }

    fn take(&self, seat: &mut FabricSeat<H>, chunk: usize) -> bool {
        let word = self.word(chunk / 64);
        self.table
            .claim_bit(seat, word, self.segments, chunk as u32)
    }

    fn free(&self, seat: &mut FabricSeat<H>, chunk: usize) {
        self.table.once(seat);
        let word = self.word(chunk / 64);
        self.table
            .release_bit(seat, word, self.segments, chunk as u32);
    }

    ghost logs = { λ m e k. event_logs m.table.now.table.shared.key m.segments e k };

    ghost looks = { λ m f count k. refl };

    ghost reads = { λ m f number found k. refl };

    ghost misses = { λ m f chunk k. refl };

    ghost gains = { λ m f chunk k inside. gains_one m.table.now.table.shared.key m.segments f chunk k.1 inside };

    ghost frees = { λ m f chunk k mine. frees_one m.table.now.table.shared.key m.segments f chunk k.1 mine };

    ghost keeps_may_take = { λ m e k may. still_takes m.table.now.table.shared.key m.segments e k may };
}

impl<H: Handlers> FabricTable<H> {
    /// Claims a run of as many neighbouring chunks of the seat's side as so many bytes need, with their slots, which are empty and
    /// weren't the seat's. Segments and chunks are numbered in the side. The search takes the lowest open segment, and in it the
    /// lowest chunks, that its looks allow. It is full exactly where the looks at all chunks of the open segments have no such
    /// run; chunks gained on the way are given back then, and the seat's slots are what they were.
    ///
    /// A look at a chunk is a load of its word, or a try to take its bit. A chunk that the call gained counts as found free
    /// from then on, also after it was given back.
    pub fn claim(
        &self,
        layout: &Layout,
        seat: &mut FabricSeat<H>,
        segments: Segments,
        size: u32,
    ) -> Claim
        requires own { seat.old.seat.table_id ≡ self.now.table.shared.table_id }
        requires laid { layout.now.shape ≡ self.now.table.shared.key }
        requires may { MayTakeChunks self.now.table.shared.key segments seat.old.seat.me.0 }
        requires size { (1 ≤ size) × (size ≤ segment_chunks * chunk_bytes) }
        ensures own { seat.new.seat.table_id ≡ seat.old.seat.table_id }
        ensures told { ClaimTold self.now.table.shared.key segments size seat.old.seat.me result
            seat.new.seat.me }
    {
        let map = SegmentMap {
            table: self,
            segments,
            opened: opened_at(segments),
            words: map_at(layout, segments),
        };
        let claim = claim_run(&map, seat, size);
        self.once(seat);
        claim
    }

    /// Gives the chunks of a run of a side back with their slots.
    ///
    /// The slots are empty.
    pub fn release(&self, layout: &Layout, seat: &mut FabricSeat<H>, segments: Segments, run: Run)
        requires own { seat.old.seat.table_id ≡ self.now.table.shared.table_id }
        requires laid { layout.now.shape ≡ self.now.table.shared.key }
        requires within { segment_chunks * run.segment + run.chunk + chunks_for run.size
            ≤ side_chunks self.now.table.shared.key segments }
        requires empty { HasEmpty (first_in_side self.now.table.shared.key segments run)
            (chunks_for run.size) seat.old.seat.me.1 }
        ensures own { seat.new.seat.table_id ≡ seat.old.seat.table_id }
        ensures view { OnlyChunks seat.old.seat.me.0 seat.new.seat.me.0 }
        ensures gone { HasNone (first_in_side self.now.table.shared.key segments run)
            (chunks_for run.size) seat.new.seat.me.1 }
        ensures elsewhere { SameElsewhere (first_in_side self.now.table.shared.key segments run)
            (chunks_for run.size) seat.old.seat.me.1 seat.new.seat.me.1 }
    {
        self.once(seat);
        let map = SegmentMap {
            table: self,
            segments,
            opened: opened_at(segments),
            words: map_at(layout, segments),
        };
        let first = 640 * run.segment as usize + run.chunk as usize;
        give_back(&map, seat, first, run.chunk_count() as usize);
    }
}
