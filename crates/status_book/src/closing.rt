//! Closing a status book.
ghost use Rattle.std.specs.Prelude.{◌≡◌, ◌*◌, ◌<◌, ◌≤◌, ◌++◌, ◌∷◌, [], ℕ, map, slice_index, slice_index_or};
ghost use Rattle.std.specs.List.{All, range_with_len};
ghost use Rattle.std.specs.Slots.{slots_items, slots_len, IsFull};
ghost use Rattle.status_book.specs.Words.{kinds, place_of, word_at};

use crate::book::{KINDS, StatusBook, Together, word_at};
use crate::looks::Looks;
use crate::seat::{CountSeat, LookSeat};
use crate::view::StatusView;
use atomic_table::{Closed, Seat};
use std::alloc::Global;

impl StatusBook {
    ghost use Rattle.status_book.specs.Seats.{CountsIn, LooksAt, counts_of, sums_of, noted};

    /// Ends the book with all of its seats, those of the engines in the order of their numbers. Each number is the sum of what
    /// its seat added, and isn't below what the other seat noted.
    pub fn close(self, counts: Vec<CountSeat>, look: LookSeat) -> Looks
        requires own { LooksAt self look × All (CountsIn self) counts.items }
        requires all { map (λ seat. seat.engine) counts.items ≡ range_with_len 0 self.engines }
        ensures sums { (engine : ℕ) (kind : ℕ) → engine < self.engines → kind < kinds
            → slice_index result.counts (place_of engine kind)
            ≡ slice_index (slice_index_or (map sums_of counts.items) engine []) kind }
        ensures noted { (engine : ℕ) (kind : ℕ) → engine < self.engines → kind < kinds
            → noted look engine kind ≤ slice_index result.counts (place_of engine kind) }
        ensures past { (place : ℕ) → 8 * self.engines ≤ place
            → slice_index result.counts place ≡ 0 }
    {
        let LookSeat { seat: mut last } = look;
        self.gather(&mut last, counts);
        let StatusBook { table, engines } = self;
        let closed = table.close_with(last);
        let looks = last_looks(&closed, engines);
        closed.free();
        looks
    }

    // Joins the seats to the last one.
    fn gather(&self, last: &mut Seat<u8, StatusView>, mut counts: Vec<CountSeat>)
        requires own { (last.old.table_id ≡ self.now.table.shared.table_id)
            × All (CountsIn self.now) counts.items }
        ensures own { last.new.table_id ≡ last.old.table_id }
        ensures view { last.new.me ≡ (
          record {
            engines = map counts_of counts.items
                ++ last.old.me.0.engines;
            readings = last.old.me.0.readings;
          },
          last.old.me.1,
        ) }
    {
        while let Some(count) = counts.pop() {
            self.join(last, count);
        }
    }

    fn join(&self, last: &mut Seat<u8, StatusView>, count: CountSeat)
        requires own { (last.old.table_id ≡ self.now.table.shared.table_id)
            × CountsIn self.now count }
        ensures own { last.new.table_id ≡ last.old.table_id }
        ensures view { last.new.me ≡ (
          record {
            engines = counts_of count
                ∷ last.old.me.0.engines;
            readings = last.old.me.0.readings;
          },
          last.old.me.1,
        ) }
    {
        let table = &self.table;
        let shared = &table.shared;
        let CountSeat { seat, engine: _ } = count;
        shared.join_seat::<Together>(last, seat);
    }
}

// The last words in the order of a list of looks.
fn last_looks(closed: &Closed<u8, Global>, engines: u32) -> Looks
    requires full { IsFull closed.now.words × (slots_len closed.now.words ≡ 16 * engines) }
    requires engines { engines ≤ 4 }
    ensures words { (place : ℕ) → place < 8 * engines
        → slice_index result.counts place
        ≡ slice_index (slots_items closed.now.words) (word_at place) }
    ensures past { (place : ℕ) → 8 * engines ≤ place → slice_index result.counts place ≡ 0 }
{
    let mut counts = [0; 32];
    for place in 0..KINDS * engines as usize {
        counts[place] = closed.word(word_at(place));
    }
    Looks { counts }
}
