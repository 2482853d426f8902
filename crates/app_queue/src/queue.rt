//! A queue, and how it and its seats are made and ended.
ghost use Rattle.std.specs.Prelude.{◌≡◌, ◌≤◌, ◌+◌, ◌*◌, [], ℕ, IfOk};
ghost use Rattle.unit_model.specs.Limits.{last_start, most_items};

use crate::opening::first_words;
use crate::plays::{Apart, QueueRule, Together};
use crate::seat::QueueSeat;
use crate::view::QueueView;
use atomic_table::Table;
use std::alloc::{AllocError, Global};

/// A queue of items, which are numbered from 0. Each item is in the free ring, in the line, or with exactly one seat.
#[derive(Drop)]
pub struct AppQueue {
    pub(crate) table: Table<u8, QueueView, (u32, u64), QueueRule, Global>,
    pub(crate) size: u32,
    ghost sized: { (table.shared.key.0 ≡ size) × (table.shared.table_id.words ≡ 112 + 5 * size)
        × (1 ≤ size) × (table.shared.table_id.slots ≡ 0) × (size ≤ most_items) },
}

impl AppQueue {
    ghost use Rattle.app_queue.specs.Ends.{StartsAtZero};
    ghost use Rattle.app_queue.specs.Seats.{BelongsTo, items_of, knows, start_of};
    ghost use Rattle.app_queue.specs.Views.{empty, together};

    /// A queue whose items are all in the free ring, in ascending order from the start on, with tags, runs and parts 0, whose line
    /// is empty at the start; and a seat that holds nothing.
    ///
    /// Fails for want of memory alone.
    pub fn open(alloc: Global, items: u32, start: u64) -> Result<(AppQueue, QueueSeat), AllocError>
        requires { (1 ≤ items) × (items ≤ most_items) × (items ≤ start)
            × (start ≤ last_start) }
        ensures opened { IfOk result (λ r. (items_of r.0 ≡ items) × (start_of r.0 ≡ start)
            × BelongsTo r.1 r.0 × (knows r.1 ≡ empty)) }
        ensures zero { IfOk result (λ r. StartsAtZero r.0 r.1) }
    {
        let words = first_words(alloc, items, start)?;
        let (table, seat) = Table::of_words(alloc, words.as_slice(), &(items, start))?;
        Ok((AppQueue { table, size: items }, QueueSeat { seat }))
    }

    /// Makes a seat that holds nothing.
    pub fn split(&self, seat: &mut QueueSeat) -> QueueSeat
        requires own { BelongsTo seat.old self.now }
        ensures own { BelongsTo seat.new self.now × BelongsTo result self.now }
        ensures kept { knows seat.new ≡ knows seat.old }
        ensures made { knows result ≡ empty }
    {
        let table = &self.table;
        let shared = &table.shared;
        QueueSeat {
            seat: shared.split_seat::<Apart>(&mut seat.seat),
        }
    }

    /// Ends a seat that holds nothing. What it did stays counted with the first one.
    pub fn join(&self, seat: &mut QueueSeat, other: QueueSeat)
        requires own { BelongsTo seat.old self.now × BelongsTo other self.now }
        requires none { (knows other).held ≡ [] }
        ensures own { BelongsTo seat.new self.now }
        ensures view { knows seat.new ≡ together (knows seat.old) (knows other) }
    {
        let table = &self.table;
        let shared = &table.shared;
        let QueueSeat { seat: ended } = other;
        shared.join_seat::<Together>(&mut seat.seat, ended);
    }
}
