//! The table, and how it and its seats are made and ended.
ghost use Rattle.std.specs.Prelude.{ℕ, ◌≡◌, ◌+◌, ◌*◌, ◌≤◌, [], IfOk, None};

use crate::seat::SlotSeat;
use atomic_table::{Join, Play, Split, Table, TableRule};
use chunk_map::MapView;
use std::alloc::{AllocError, Global};
use std::marker::{Brand, PhantomData};

/// The rule of the table.
pub struct SlotRule;

impl<T> TableRule<Option<T>, MapView, u32> for SlotRule {
    ghost use Rattle.chunk_map.specs.Views.{empty};
    ghost use Rattle.segment_table.specs.Rule.{SegHolds};

    ghost holds = { SegHolds };

    ghost first = { empty };
}

/// The chunk that a step is about, where neither its word nor its operands say it. A call picks it.
pub trait Aim {
    ghost chunk: { ℕ };
}

impl Aim for Brand {
    ghost chunk = { 0 };
}

pub struct SeeingOpen;

impl<T> Play<Option<T>, MapView> for SeeingOpen {
    ghost use Rattle.segment_table.specs.Rule.{SeesOpen};

    ghost then = { SeesOpen };
}

pub struct SeeingWord;

impl<T> Play<Option<T>, MapView> for SeeingWord {
    ghost use Rattle.segment_table.specs.Rule.{SeesWord};

    ghost then = { SeesWord };
}

pub struct Bringing<J> {
    aim: PhantomData<J>,
}

impl<T, J: Aim> Play<Option<T>, MapView> for Bringing<J> {
    ghost use Rattle.segment_table.specs.Rule.{Brings};

    ghost then = { Brings J.chunk };
}

pub struct Taking;

impl<T> Play<Option<T>, MapView> for Taking {
    ghost use Rattle.segment_table.specs.Rule.{TakesBit};

    ghost then = { TakesBit };
}

pub struct Freeing;

impl<T> Play<Option<T>, MapView> for Freeing {
    ghost use Rattle.segment_table.specs.Rule.{FreesBit};

    ghost then = { FreesBit };
}

// A new seat holds nothing.
struct Apart;

impl Split<MapView> for Apart {
    ghost use Rattle.chunk_map.specs.Views.{empty};

    ghost left = { λ v. v };

    ghost right = { λ v. empty v.segments };
}

struct Together;

impl Join<MapView> for Together {
    ghost use Rattle.chunk_map.specs.Views.{empty, together};

    ghost both = { together };

    ghost spent = { empty 0 };
}

/// Up to 8 segments with 640 chunks each, all open, and a slot for each chunk, which holds a value of `T` or is empty.
#[derive(Drop)]
pub struct SlotTable<T> {
    pub(crate) table: Table<Option<T>, MapView, u32, SlotRule, Global>,
    pub(crate) segments: u32,
    ghost sized: { (table.shared.key ≡ segments)
        × (table.shared.table_id.words ≡ 16 * (segments + 1)) × (1 ≤ segments) × (segments ≤ 8)
        × (table.shared.table_id.slots ≡ 640 * segments) },
}

impl<T> SlotTable<T> {
    ghost use Rattle.carried_slots.specs.Carried.{content};
    ghost use Rattle.chunk_map.specs.Views.{empty, together};
    ghost use Rattle.segment_table.specs.Owning.{BelongsTo, knows, slots_of};

    /// Segments whose chunks are all free and empty, and a seat that holds none. All segments are open.
    ///
    /// Fails for want of memory alone.
    pub fn open(alloc: Global, segments: u32) -> Result<(SlotTable<T>, SlotSeat<T>), AllocError>
        requires { (1 ≤ segments) × (segments ≤ 8) }
        ensures { IfOk result (λ r. (r.0.segments ≡ segments) × BelongsTo r.1 r.0
            × (knows r.1 ≡ empty segments) × (slots_of r.1 ≡ [])) }
    {
        let mut words = vec![in alloc; u64::MAX; 16 * (segments as usize + 1)]?;
        words[0] = segments as u64;
        let (table, seat) = Table::vacant(
            alloc,
            words.as_slice(),
            640 * segments as usize,
            &segments,
        )?;
        Ok((SlotTable { table, segments }, SlotSeat { seat }))
    }

    /// Makes a seat that holds nothing. The slots of the chunks that the first one holds stay with it.
    pub fn split(&self, seat: &mut SlotSeat<T>) -> SlotSeat<T>
        requires own { BelongsTo seat.old self.now }
        ensures own { BelongsTo seat.new self.now × BelongsTo result self.now }
        ensures kept { (knows seat.new ≡ knows seat.old) × (slots_of seat.new ≡ slots_of seat.old) }
        ensures made { (knows result ≡ empty self.now.segments) × (slots_of result ≡ []) }
    {
        let table = &self.table;
        let shared = &table.shared;
        SlotSeat {
            seat: shared.split_seat::<Apart>(&mut seat.seat),
        }
    }

    /// Ends a seat that holds nothing. What it did stays counted with the first one.
    pub fn join(&self, seat: &mut SlotSeat<T>, other: SlotSeat<T>)
        requires own { BelongsTo seat.old self.now × BelongsTo other self.now }
        requires none { (chunk : ℕ) → content (slots_of other) chunk ≡ None }
        ensures own { BelongsTo seat.new self.now }
        ensures view { knows seat.new ≡ together (knows seat.old) (knows other) }
        ensures kept { slots_of seat.new ≡ slots_of seat.old }
    {
        let table = &self.table;
        let shared = &table.shared;
        let SlotSeat { seat: ended } = other;
        shared.join_seat::<Together>(&mut seat.seat, ended);
    }
}
