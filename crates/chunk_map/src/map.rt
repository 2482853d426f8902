//! The map, and the single steps on it.
ghost use Rattle.std.specs.Prelude.{◌≡◌, ◌≢◌, ◌⊎◌, ◌+◌, ◌*◌, ◌/◌, ◌%◌, ◌<◌, ◌≤◌, ◌==◌, [], length, ℕ, IfOk, IsTrue, IsFalse, cond};

use crate::seat::MapSeat;
use crate::view::MapView;
use atomic_table::{Join, Play, Split, Table, TableRule};
use std::alloc::{AllocError, Global};

/// The rule of the table.
pub struct MapRule;

impl<S> TableRule<S, MapView, u32> for MapRule {
    ghost use Rattle.chunk_map.specs.Rule.{MapHolds};
    ghost use Rattle.chunk_map.specs.Views.{empty};

    ghost holds = { MapHolds };

    ghost first = { empty };
}

struct SeeingOpen;

impl<S> Play<S, MapView> for SeeingOpen {
    ghost use Rattle.chunk_map.specs.Rule.{SeesOpen};

    ghost then = { SeesOpen };
}

struct SeeingWord;

impl<S> Play<S, MapView> for SeeingWord {
    ghost use Rattle.chunk_map.specs.Rule.{SeesWord};

    ghost then = { SeesWord };
}

struct Taking;

impl<S> Play<S, MapView> for Taking {
    ghost use Rattle.chunk_map.specs.Rule.{TakesBit};

    ghost then = { TakesBit };
}

struct Freeing;

impl<S> Play<S, MapView> for Freeing {
    ghost use Rattle.chunk_map.specs.Rule.{FreesBit};

    ghost then = { FreesBit };
}

struct Opening;

impl<S> Play<S, MapView> for Opening {
    ghost use Rattle.chunk_map.specs.Rule.{OpensOne};

    ghost then = { OpensOne };
}

// A new seat holds nothing.
struct Apart;

impl Split<MapView> for Apart {
    ghost use Rattle.chunk_map.specs.Views.{empty};

    ghost left = { λ v. v };

    ghost right = { λ v. empty v.segments };
}

struct Together;

impl Join<MapView> for Together {
    ghost use Rattle.chunk_map.specs.Views.{empty, together};

    ghost both = { together };

    ghost spent = { empty 0 };
}

/// A map of up to 8 segments with 640 chunks of 16,384 bytes each. One segment is open at first.
#[derive(Drop)]
pub struct ChunkMap {
    pub(crate) table: Table<u8, MapView, u32, MapRule, Global>,
    pub(crate) segments: u32,
    ghost sized: { (table.shared.key ≡ segments)
        × (table.shared.table_id.words ≡ 16 * (segments + 1)) × (1 ≤ segments) × (segments ≤ 8)
        × (table.shared.table_id.slots ≡ 0) },
}

impl ChunkMap {
    ghost use Rattle.std.specs.Int.{bit_at};
    ghost use Rattle.chunk_map.specs.Looks.{open_seen};
    ghost use Rattle.chunk_map.specs.Views.{empty, together, after, does, opening};
    ghost use Rattle.chunk_map.specs.Seats.{BelongsTo, HoldsChunk, knows};
    ghost use Rattle.chunk_map.specs.declared.view.MapEvent.TheVariants.{SawOpen, SawWord, Gained, Missed, Released};

    /// A map whose chunks are all free, with one segment open, and a seat that holds none.
    ///
    /// Fails for want of memory alone.
    pub fn open(alloc: Global, segments: u32) -> Result<(ChunkMap, MapSeat), AllocError>
        requires { (1 ≤ segments) × (segments ≤ 8) }
        ensures { IfOk result (λ r. (r.0.segments ≡ segments) × BelongsTo r.1 r.0
            × (knows r.1 ≡ empty segments)) }
    {
        let mut words = vec![in alloc; u64::MAX; 16 * (segments as usize + 1)]?;
        words[0] = 1;
        let (table, seat) = Table::of_words(alloc, words.as_slice(), &segments)?;
        Ok((ChunkMap { table, segments }, MapSeat { seat }))
    }

    /// Makes a seat that holds nothing.
    pub fn split(&self, seat: &mut MapSeat) -> MapSeat
        requires own { BelongsTo seat.old self.now }
        ensures own { BelongsTo seat.new self.now × BelongsTo result self.now }
        ensures kept { knows seat.new ≡ knows seat.old }
        ensures made { knows result ≡ empty self.now.segments }
    {
        let table = &self.table;
        let shared = &table.shared;
        MapSeat {
            seat: shared.split_seat::<Apart>(&mut seat.seat),
        }
    }

    /// Ends a seat that holds nothing. What it did stays counted with the first one.
    pub fn join(&self, seat: &mut MapSeat, other: MapSeat)
        requires own { BelongsTo seat.old self.now × BelongsTo other self.now }
        requires none { (knows other).held ≡ [] }
        ensures own { BelongsTo seat.new self.now }
        ensures view { knows seat.new ≡ together (knows seat.old) (knows other) }
    {
        let table = &self.table;
        let shared = &table.shared;
        let MapSeat { seat: ended } = other;
        shared.join_seat::<Together>(&mut seat.seat, ended);
    }

    // How many segments are open.
    pub(crate) fn load_open(&self, seat: &mut MapSeat) -> u64
        requires own { BelongsTo seat.old self.now }
        ensures own { BelongsTo seat.new self.now }
        ensures count { (1 ≤ result) × (open_seen (knows seat.old).log ≤ result)
            × (result ≤ self.now.segments) }
        ensures view { knows seat.new ≡ does (SawOpen result) (knows seat.old) }
    {
        let table = &self.table;
        let shared = &table.shared;
        shared.load::<SeeingOpen>(&mut seat.seat, 0)
    }

    // A word of the map.
    pub(crate) fn load_word(&self, seat: &mut MapSeat, number: usize) -> u64
        requires own { BelongsTo seat.old self.now }
        requires number { number < 10 * self.now.segments }
        ensures own { BelongsTo seat.new self.now }
        ensures view { knows seat.new ≡ does (SawWord number result) (knows seat.old) }
    {
        let table = &self.table;
        let shared = &table.shared;
        shared.load::<SeeingWord>(&mut seat.seat, 16 * (number / 10 + 1) + number % 10)
    }

    // Clears a bit. The chunk is the seat's where the bit was set.
    pub(crate) fn take_bit(&self, seat: &mut MapSeat, number: usize, bit: usize) -> bool
        requires own { BelongsTo seat.old self.now }
        requires number { number < 10 * self.now.segments }
        requires bit { bit < 64 }
        requires open { number / 10 < open_seen (knows seat.old).log }
        ensures own { BelongsTo seat.new self.now }
        ensures gained { IsTrue result
            → knows seat.new ≡ does (Gained (64 * number + bit)) (knows seat.old) }
        ensures missed { IsFalse result
            → knows seat.new ≡ does (Missed (64 * number + bit)) (knows seat.old) }
    {
        let table = &self.table;
        let shared = &table.shared;
        let index = 16 * (number / 10 + 1) + number % 10;
        let mask = !(1u64 << bit);
        let found = shared.fetch_and::<Taking>(&mut seat.seat, index, mask);
        (found >> bit) & 1 == 1
    }

    // Sets the bit of a chunk that the seat holds.
    pub(crate) fn free_bit(&self, seat: &mut MapSeat, number: usize, bit: usize)
        requires own { BelongsTo seat.old self.now }
        requires bit { bit < 64 }
        requires held { HoldsChunk seat.old (64 * number + bit) }
        ensures own { BelongsTo seat.new self.now }
        ensures view { knows seat.new ≡ does (Released (64 * number + bit)) (knows seat.old) }
    {
        let table = &self.table;
        let shared = &table.shared;
        shared.fetch_or::<Freeing>(
            &mut seat.seat,
            16 * (number / 10 + 1) + number % 10,
            1u64 << bit,
        );
    }

    // Takes the number of open segments from one to the next, where it is still that one.
    pub(crate) fn exchange_open(&self, seat: &mut MapSeat, count: u64) -> u64
        requires own { BelongsTo seat.old self.now }
        requires count { (1 ≤ count) × (count < self.now.segments) }
        ensures own { BelongsTo seat.new self.now }
        ensures count { (1 ≤ result) × (open_seen (knows seat.old).log ≤ result)
            × (result ≤ self.now.segments) }
        ensures view { knows seat.new ≡ after (opening count (count + 1) result) (knows seat.old) }
    {
        let table = &self.table;
        let shared = &table.shared;
        shared.compare_exchange::<Opening>(&mut seat.seat, 0, count, count + 1)
    }
}
