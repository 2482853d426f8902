//! One attempt at a ring of a queue. A turn takes no memory and doesn't wait.
ghost use Rattle.std.specs.Prelude.{◌≡◌, IsTrue, Some};

use crate::lane::Lane;
use crate::queue::AppQueue;
use crate::seat::QueueSeat;
use crate::side::Side;
use nncq_ring::{PopTurn, PushTurn, pop_turn, push_turn};

impl AppQueue {
    ghost use Rattle.unit_model.specs.Sharing.{Holds};
    ghost use Rattle.app_queue.specs.declared.side.Side.TheVariants.{Free, Line};
    ghost use Rattle.app_queue.specs.Hands.{PopTold, PushTold};
    ghost use Rattle.app_queue.specs.Seats.{BelongsTo, items_of, knows};
    ghost use Rattle.app_queue.specs.Views.{held_by, is_armed, last_tag, MayPut};

    fn pop_at(&self, seat: &mut QueueSeat, side: Side) -> PopTurn
        requires own { BelongsTo seat.old self.now }
        ensures own { BelongsTo seat.new self.now }
        ensures told { PopTold (items_of self.now) side (knows seat.old) result (knows seat.new) }
    {
        let lane = Lane { queue: self, side };
        pop_turn(&lane, seat)
    }

    fn push_at(&self, seat: &mut QueueSeat, side: Side, item: u32) -> PushTurn
        requires own { BelongsTo seat.old self.now }
        requires may { MayPut side item (knows seat.old) }
        ensures own { BelongsTo seat.new self.now }
        ensures told { PushTold (items_of self.now) side item (knows seat.old) result
            (knows seat.new) }
    {
        let lane = Lane { queue: self, side };
        push_turn(&lane, seat, item)
    }

    /// Tries once to take the first item of the free ring. Its tag is 0.
    pub fn take_item_turn(&self, seat: &mut QueueSeat) -> PopTurn
        requires own { BelongsTo seat.old self.now }
        ensures own { BelongsTo seat.new self.now }
        ensures told { PopTold (items_of self.now) Free (knows seat.old) result (knows seat.new) }
    {
        self.pop_at(seat, Side::Free)
    }

    /// Tries once to take the first item of the line.
    pub fn pop_item_turn(&self, seat: &mut QueueSeat) -> PopTurn
        requires own { BelongsTo seat.old self.now }
        ensures own { BelongsTo seat.new self.now }
        ensures told { PopTold (items_of self.now) Line (knows seat.old) result (knows seat.new) }
    {
        self.pop_at(seat, Side::Line)
    }

    /// Tries once to put an item that the seat holds, and that it armed since it got it, last in the line.
    pub fn push_item_turn(&self, seat: &mut QueueSeat, item: u32) -> PushTurn
        requires own { BelongsTo seat.old self.now }
        requires held { Holds held_by item (knows seat.old) }
        requires armed { IsTrue (is_armed item (knows seat.old).items) }
        ensures own { BelongsTo seat.new self.now }
        ensures told { PushTold (items_of self.now) Line item (knows seat.old) result
            (knows seat.new) }
    {
        self.push_at(seat, Side::Line, item)
    }

    /// Tries once to put an item that the seat holds, and whose tag is 0 by what it knows, last in the free ring.
    pub fn free_item_turn(&self, seat: &mut QueueSeat, item: u32) -> PushTurn
        requires own { BelongsTo seat.old self.now }
        requires held { Holds held_by item (knows seat.old) }
        requires zero { last_tag item (knows seat.old).items ≡ Some 0 }
        ensures own { BelongsTo seat.new self.now }
        ensures told { PushTold (items_of self.now) Free item (knows seat.old) result
            (knows seat.new) }
    {
        self.push_at(seat, Side::Free, item)
    }
}
