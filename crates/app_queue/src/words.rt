//! The atomic steps of a queue's table, each at one word. The call picks what the step tells; `_at` and `_value` are for the pick.
ghost use Rattle.std.specs.Prelude.{ℕ, ◌≡◌, ◌==◌};

use crate::layout::{Place, word_at};
use crate::plays::{Telling, Told};
use crate::queue::AppQueue;
use crate::view::QueueView;
use atomic_table::Seat;

impl AppQueue {
    ghost use prog.Atomic.{either};
    ghost use Rattle.atomic_table.specs.Table.{Allows};
    ghost use Rattle.app_queue.specs.Layout.{word_at, IsReal};
    ghost use Rattle.app_queue.specs.Rule.{QueueHolds};
    ghost use Rattle.app_queue.specs.Seats.{items_of};

    pub(crate) fn load_word<J: Telling>(
        &self,
        seat: &mut Seat<u8, QueueView>,
        place: Place,
        _at: u64,
    ) -> u64
        requires own { seat.old.table_id ≡ self.now.table.shared.table_id }
        requires real { IsReal (items_of self.now) place }
        requires allowed { Allows (QueueHolds self.now.table.shared.key)
            self.now.table.shared.table_id.slots seat.old.id seat.old.me
            (word_at (items_of self.now) place) (λ n. n)
            (λ n m. (m.1 ≡ seat.old.me.1) × J.tells n m.0) }
        ensures own { (seat.new.table_id ≡ seat.old.table_id) × (seat.new.me.1 ≡ seat.old.me.1) }
        ensures told { J.tells result seat.new.me.0 }
    {
        let word = word_at(self.size, place);
        let table = &self.table;
        let shared = &table.shared;
        shared.load::<Told<J>>(seat, word)
    }

    pub(crate) fn store_word<J: Telling>(
        &self,
        seat: &mut Seat<u8, QueueView>,
        place: Place,
        new: u64,
    )
        requires own { seat.old.table_id ≡ self.now.table.shared.table_id }
        requires real { IsReal (items_of self.now) place }
        requires allowed { Allows (QueueHolds self.now.table.shared.key)
            self.now.table.shared.table_id.slots seat.old.id seat.old.me
            (word_at (items_of self.now) place) (λ n. new)
            (λ n m. (m.1 ≡ seat.old.me.1) × J.tells new m.0) }
        ensures own { (seat.new.table_id ≡ seat.old.table_id) × (seat.new.me.1 ≡ seat.old.me.1) }
        ensures told { J.tells new seat.new.me.0 }
    {
        let word = word_at(self.size, place);
        let table = &self.table;
        let shared = &table.shared;
        shared.store::<Told<J>>(seat, word, new);
    }

    // The word as it was, which has become the new one where it was the old one.
    pub(crate) fn exchange_word<J: Telling>(
        &self,
        seat: &mut Seat<u8, QueueView>,
        place: Place,
        old: u64,
        new: u64,
        _at: u64,
        _value: u64,
    ) -> u64
        requires own { seat.old.table_id ≡ self.now.table.shared.table_id }
        requires real { IsReal (items_of self.now) place }
        requires allowed { Allows (QueueHolds self.now.table.shared.key)
            self.now.table.shared.table_id.slots seat.old.id seat.old.me
            (word_at (items_of self.now) place) (λ n. either (n == old) new n)
            (λ n m. (m.1 ≡ seat.old.me.1) × J.tells n m.0) }
        ensures own { (seat.new.table_id ≡ seat.old.table_id) × (seat.new.me.1 ≡ seat.old.me.1) }
        ensures told { J.tells result seat.new.me.0 }
    {
        let word = word_at(self.size, place);
        let table = &self.table;
        let shared = &table.shared;
        shared.compare_exchange::<Told<J>>(seat, word, old, new)
    }
}
