//! A ring of a queue has the steps of a ring.
use crate::queue::AppQueue;
use crate::seat::QueueSeat;
use crate::side::Side;
use nncq_ring::RingSteps;

/// One ring of a queue.
#[derive(Clone, Copy, Drop)]
pub struct Lane<'a> {
    pub(crate) queue: &'a AppQueue,
    pub(crate) side: Side,
}

impl<'a> RingSteps for Lane<'a> {
    ghost use Rattle.app_queue.specs.Seats.{BelongsTo, items_of};
    ghost use Rattle.app_queue.specs.Views.{log_at, look_keeps, makes, makes_logs, MayPut};
    ghost use Rattle.app_queue.specs.declared.view.QueueView.{QueueView};

    type Seat = QueueSeat;

    ghost View = { QueueView };

    ghost knows = { λ s. s.seat.me.0 };

    ghost belongs = { λ s r. BelongsTo s r.queue.now };

    ghost slots = { λ r. items_of r.queue.now };

    ghost events = { λ r v. log_at r.side v };

    ghost steps = { λ r e v u. makes r.side e v u };

    ghost may_put = { λ r x v. MayPut r.side x v };

    ghost may_take = { λ r v. Unit {0} };

    fn slot_count(&self) -> u32 {
        self.queue.size
    }

    fn see_tail(&self, seat: &mut QueueSeat) -> u64 {
        self.queue.load_tail(seat, self.side)
    }

    fn see_head(&self, seat: &mut QueueSeat) -> u64 {
        self.queue.load_head(seat, self.side)
    }

    fn see_entry(&self, seat: &mut QueueSeat, place: u64) -> u64 {
        self.queue.load_entry(seat, self.side, place)
    }

    fn put(&self, seat: &mut QueueSeat, place: u64, entry: u64, v: u32) -> u64 {
        self.queue.exchange_entry(seat, self.side, place, entry, v)
    }

    fn take(&self, seat: &mut QueueSeat, place: u64, entry: u64) -> u64 {
        self.queue.exchange_head(seat, self.side, place, entry)
    }

    fn move_tail(&self, seat: &mut QueueSeat, place: u64) {
        self.queue.exchange_tail(seat, self.side, place);
    }

    ghost logs = { λ r e v u is. makes_logs r.side e v u is };

    ghost looks_keep = { λ r e x v u look is may. look_keeps r.side e x v u look is may };

    ghost looks_keep_take = { λ r e v u look is may. may };
}
