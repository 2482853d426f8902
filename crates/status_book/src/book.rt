//! The table of counts, and the steps on it.
ghost use Rattle.std.specs.Prelude.{◌≡◌, ◌+◌, ◌*◌, ◌^◌, ◌<◌, ◌≤◌, ◌++◌, ◌∷◌, ℕ, slice_index, slice_set};
ghost use Rattle.status_book.specs.Words.{kinds, word_at};

use crate::looks::Looks;
use crate::seat::{CountSeat, LookSeat};
use crate::view::StatusView;
use atomic_table::{Join, Play, Split, Table, TableRule};
use std::alloc::Global;

/// The kinds of counts that each engine has.
pub(crate) const KINDS: usize = 8;

/// Words from the first count of an engine to the first one of the next: 128 bytes, so that engines don't share a line of a cache.
pub(crate) const ENGINE_WORDS: usize = 16;

/// The rule of the table.
pub struct StatusRule;

impl<S> TableRule<S, StatusView, u32> for StatusRule {
    ghost use Rattle.status_book.specs.Rule.{StatusHolds};
    ghost use Rattle.status_book.specs.Views.{new_engines};

    ghost holds = { StatusHolds };

    ghost first = { new_engines 0 };
}

struct Counting;

impl<S> Play<S, StatusView> for Counting {
    ghost use Rattle.status_book.specs.Rule.{Counts};

    ghost then = { Counts };
}

struct Looking;

impl<S> Play<S, StatusView> for Looking {
    ghost use Rattle.status_book.specs.Rule.{Reads};

    ghost then = { Reads };
}

// The first engine gets a seat of its own.
pub(crate) struct Apart;

impl Split<StatusView> for Apart {
    ghost use Rattle.status_book.specs.Views.{first_of, others_of};

    ghost left = { others_of };

    ghost right = { first_of };
}

pub(crate) struct Together;

impl Join<StatusView> for Together {
    ghost use Rattle.status_book.specs.Views.{empty, together};

    ghost both = { together };

    ghost spent = { empty };
}

/// The counts of one to four engines.
#[derive(Drop)]
pub struct StatusBook {
    pub(crate) table: Table<u8, StatusView, u32, StatusRule, Global>,
    pub(crate) engines: u32,
    ghost sized: { (table.shared.key ≡ engines) × (table.shared.table_id.words ≡ 16 * engines)
        × (1 ≤ engines) × (engines ≤ 4) × (table.shared.table_id.slots ≡ 0) },
}

/// The word of the count at a place of the list of looks.
pub(crate) fn word_at(place: usize) -> usize
    requires { place < 32 }
    ensures { result ≡ word_at place }
{
    ENGINE_WORDS * (place / KINDS) + place % KINDS
}

impl StatusBook {
    ghost use Rattle.status_book.specs.Seats.{CountsIn, LooksAt, sums_of, readings_of, noted};
    ghost use Rattle.status_book.specs.Views.{last_reading, readings_told};
    ghost use Rattle.status_book.specs.Words.{place_of};

    /// Adds to the count of a kind of the seat's engine.
    pub fn add(&self, seat: &mut CountSeat, kind: u8, n: u64)
        requires own { CountsIn self.now seat.old }
        requires kind { kind < kinds }
        requires room { slice_index (sums_of seat.old) kind + n < 2 ^ 60 }
        ensures own { CountsIn self.now seat.new }
        ensures engine { seat.new.engine ≡ seat.old.engine }
        ensures sums { sums_of seat.new
            ≡ slice_set (sums_of seat.old) kind (slice_index (sums_of seat.old) kind + n) }
    {
        let table = &self.table;
        let shared = &table.shared;
        let word = ENGINE_WORDS * seat.engine as usize + kind as usize;
        shared.fetch_add::<Counting>(&mut seat.seat, word, n);
    }

    // The count at a place now.
    fn count(&self, seat: &mut LookSeat, place: usize) -> u64
        requires own { LooksAt self.now seat.old }
        requires place { place < 8 * self.now.engines }
        ensures own { LooksAt self.now seat.new }
        ensures found { readings_of seat.new
            ≡ record { word = word_at place; number = result } ∷ readings_of seat.old }
        ensures risen { last_reading (word_at place) (readings_of seat.old) ≤ result }
    {
        let table = &self.table;
        let shared = &table.shared;
        shared.load::<Looking>(&mut seat.seat, word_at(place))
    }

    /// Looks at each count once, by one load. Each number was its word at that load, and isn't below what this seat noted
    /// before.
    pub fn look(&self, seat: &mut LookSeat) -> Looks
        requires own { LooksAt self.now seat.old }
        ensures own { LooksAt self.now seat.new }
        ensures found { readings_of seat.new
            ≡ readings_told result.counts (8 * self.now.engines) ++ readings_of seat.old }
        ensures risen { (engine : ℕ) (kind : ℕ) → engine < self.now.engines → kind < kinds
            → noted seat.old engine kind ≤ slice_index result.counts (place_of engine kind) }
        ensures noted { (engine : ℕ) (kind : ℕ) → engine < self.now.engines → kind < kinds
            → noted seat.new engine kind ≡ slice_index result.counts (place_of engine kind) }
        ensures past { (place : ℕ) → 8 * self.now.engines ≤ place
            → slice_index result.counts place ≡ 0 }
    {
        let mut counts = [0; 32];
        for place in 0..KINDS * self.engines as usize {
            counts[place] = self.count(seat, place);
        }
        Looks { counts }
    }
}
