//! A ring, and how it and its seats are made and ended.
ghost use Rattle.std.specs.Prelude.{◌≡◌, ◌≤◌, ◌+◌, ◌<◌, ◌^◌, [], ℕ, IfOk};
ghost use Rattle.unit_model.specs.Limits.{most_items};

use crate::opening::first_words;
use crate::plays::{Aim, Apart, Handing, RingRule, Together};
use crate::seat::RingSeat;
use crate::view::RingView;
use atomic_table::Table;
use std::alloc::{AllocError, Global};
use std::marker::Brand;

/// A circular queue of the numbers below its size. Each number is in the line or with exactly one seat.
#[derive(Drop)]
pub struct Ring {
    pub(crate) table: Table<u8, RingView, (u32, u64), RingRule, Global>,
    pub(crate) size: u32,
    ghost sized: { (table.shared.key.0 ≡ size) × (table.shared.table_id.words ≡ size + 48)
        × (1 ≤ size) × (table.shared.table_id.slots ≡ 0) },
}

impl Ring {
    ghost use Rattle.unit_model.specs.Sharing.{Holds};
    ghost use Rattle.nncq_ring.specs.Seats.{BelongsTo, knows, start_of};
    ghost use Rattle.nncq_ring.specs.Views.{empty, held_by, holding, just, together, whole, without};

    /// An empty ring whose head and tail are the start, and a seat that holds every number below the size.
    ///
    /// Fails for want of memory alone.
    pub fn open(alloc: Global, size: u32, start: u64) -> Result<(Ring, RingSeat), AllocError>
        requires { (1 ≤ size) × (size ≤ most_items) × (size ≤ start) × (start < 2 ^ 62) }
        ensures { IfOk result (λ r. (r.0.size ≡ size) × (start_of r.0 ≡ start) × BelongsTo r.1 r.0
            × (knows r.1 ≡ whole size)) }
    {
        let words = first_words(alloc, size, start)?;
        let (table, seat) = Table::of_words(alloc, words.as_slice(), &(size, start))?;
        Ok((Ring { table, size }, RingSeat { seat }))
    }

    /// Makes a seat that holds nothing.
    pub fn split(&self, seat: &mut RingSeat) -> RingSeat
        requires own { BelongsTo seat.old self.now }
        ensures own { BelongsTo seat.new self.now × BelongsTo result self.now }
        ensures kept { knows seat.new ≡ knows seat.old }
        ensures made { knows result ≡ empty }
    {
        let table = &self.table;
        let shared = &table.shared;
        RingSeat {
            seat: shared.split_seat::<Apart>(&mut seat.seat),
        }
    }

    /// Ends a seat that holds nothing. What it did stays counted with the first one.
    pub fn join(&self, seat: &mut RingSeat, other: RingSeat)
        requires own { BelongsTo seat.old self.now × BelongsTo other self.now }
        requires none { (knows other).held ≡ [] }
        ensures own { BelongsTo seat.new self.now }
        ensures view { knows seat.new ≡ together (knows seat.old) (knows other) }
    {
        self.merge(seat, other);
    }

    /// Moves a number that the first seat holds to the other one.
    pub fn pass(&self, seat: &mut RingSeat, other: &mut RingSeat, v: u32)
        requires own { BelongsTo seat.old self.now × BelongsTo other.old self.now }
        requires held { Holds held_by v (knows seat.old) }
        ensures own { BelongsTo seat.new self.now × BelongsTo other.new self.now }
        ensures left { knows seat.new ≡ without v (knows seat.old) }
        ensures come { knows other.new ≡ holding v (knows other.old) }
    {
        let handed = self.cut::<Brand>(seat, v);
        self.merge(other, handed);
    }

    // Makes a seat that holds this number alone.
    fn cut<J: Aim>(&self, seat: &mut RingSeat, v: u32) -> RingSeat
        requires own { BelongsTo seat.old self.now }
        requires aim { J.value ≡ v }
        requires held { Holds held_by v (knows seat.old) }
        ensures own { BelongsTo seat.new self.now × BelongsTo result self.now }
        ensures kept { knows seat.new ≡ without v (knows seat.old) }
        ensures made { knows result ≡ just v }
    {
        let table = &self.table;
        let shared = &table.shared;
        RingSeat {
            seat: shared.split_seat::<Handing<J>>(&mut seat.seat),
        }
    }

    // Ends a seat. The first one holds what it held.
    fn merge(&self, seat: &mut RingSeat, other: RingSeat)
        requires own { BelongsTo seat.old self.now × BelongsTo other self.now }
        ensures own { BelongsTo seat.new self.now }
        ensures view { knows seat.new ≡ together (knows seat.old) (knows other) }
    {
        let table = &self.table;
        let shared = &table.shared;
        let RingSeat { seat: ended } = other;
        shared.join_seat::<Together>(&mut seat.seat, ended);
    }
}
