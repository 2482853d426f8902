//! Opening a status book.
ghost use Rattle.std.specs.Prelude.{◌≡◌, ◌+◌, ◌-◌, ◌<◌, ◌≤◌, [], IfOk, map, replicate};
ghost use Rattle.std.specs.List.{All, range_with_len};
ghost use Rattle.status_book.specs.Views.{new_engines};
ghost use Rattle.status_book.specs.Words.{kinds};

use crate::book::{Apart, ENGINE_WORDS, StatusBook};
use crate::seat::{CountSeat, LookSeat};
use crate::view::StatusView;
use atomic_table::{Seat, Table};
use std::alloc::{AllocError, Global};

impl StatusBook {
    ghost use Rattle.status_book.specs.Seats.{CountsIn, LooksAt, sums_of, readings_of};

    /// A book for so many engines whose counts are all 0, a seat for each engine, in the order of their numbers, and one to
    /// look with.
    ///
    /// Fails for want of memory alone.
    pub fn open(
        alloc: Global,
        engines: u32,
    ) -> Result<(StatusBook, Vec<CountSeat>, LookSeat), AllocError>
        requires { (1 ≤ engines) × (engines ≤ 4) }
        ensures book { IfOk result (λ r. (r.0.engines ≡ engines) × LooksAt r.0 r.2
            × All (CountsIn r.0) r.1.items) }
        ensures engines { IfOk result (λ r. map (λ seat. seat.engine) r.1.items
            ≡ range_with_len 0 engines) }
        ensures new { IfOk result (λ r. (readings_of r.2 ≡ [])
            × All (λ seat. sums_of seat ≡ replicate kinds 0) r.1.items) }
    {
        let words = vec![in alloc; 0u64; ENGINE_WORDS * engines as usize]?;
        let (table, seat) = Table::of_words(alloc, words.as_slice(), &engines)?;
        let book = StatusBook { table, engines };
        let (counts, look) = book.seats(alloc, seat)?;
        Ok((book, counts, look))
    }

    // The seats of all engines, and one that has none of them.
    #[tactic(auto, using(crate::proofs::NewSeats::none_left, crate::proofs::NewSeats::all_made))]
    fn seats(
        &self,
        alloc: Global,
        mut seat: Seat<u8, StatusView>,
    ) -> Result<(Vec<CountSeat>, LookSeat), AllocError>
        requires own { seat.table_id ≡ self.now.table.shared.table_id }
        requires view { seat.me ≡ (new_engines 0 self.now.engines, []) }
        ensures own { IfOk result (λ r. LooksAt self.now r.1
            × All (CountsIn self.now) r.0.items) }
        ensures engines { IfOk result (λ r. map (λ seat. seat.engine) r.0.items
            ≡ range_with_len 0 self.now.engines) }
        ensures new { IfOk result (λ r. (readings_of r.1 ≡ [])
            × All (λ seat. sums_of seat ≡ replicate kinds 0) r.0.items) }
    {
        let mut counts = Vec::with_capacity(alloc, self.engines as usize)?;
        for engine in 0..self.engines {
            counts.push(self.count_seat(&mut seat, engine))?;
        }
        Ok((counts, LookSeat { seat }))
    }

    // The seat of the next engine, whose sums go there.
    fn count_seat(&self, seat: &mut Seat<u8, StatusView>, engine: u32) -> CountSeat
        requires own { seat.old.table_id ≡ self.now.table.shared.table_id }
        requires next { engine < self.now.engines }
        requires view { seat.old.me ≡ (new_engines engine (self.now.engines - engine), []) }
        ensures own { (seat.new.table_id ≡ seat.old.table_id) × CountsIn self.now result }
        ensures view { seat.new.me
            ≡ (new_engines (engine + 1) (self.now.engines - (engine + 1)), []) }
        ensures new { (result.engine ≡ engine) × (sums_of result ≡ replicate kinds 0) }
    {
        let table = &self.table;
        let shared = &table.shared;
        CountSeat {
            seat: shared.split_seat::<Apart>(seat),
            engine,
        }
    }
}
