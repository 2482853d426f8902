//! A ring with a table of its own has the steps of a ring.
use crate::any_ring::RingSteps;
use crate::ring::Ring;
use crate::seat::RingSeat;
use std::marker::Brand;

impl RingSteps for Ring {
    ghost use Rattle.unit_model.specs.Sharing.{Holds};
    ghost use Rattle.nncq_ring.specs.Seats.{BelongsTo};
    ghost use Rattle.nncq_ring.specs.Views.{does_logs, events_of, held_by, look_keeps, makes};
    ghost use Rattle.nncq_ring.specs.declared.view.RingView.{RingView};

    type Seat = RingSeat;

    ghost View = { RingView };

    ghost knows = { λ s. s.seat.me.0 };

    ghost belongs = { λ s r. BelongsTo s r };

    ghost slots = { λ r. r.size };

    ghost events = { λ r v. events_of v };

    ghost steps = { λ r e v u. makes e v u };

    ghost may_put = { λ r x v. Holds held_by x v };

    ghost may_take = { λ r v. Unit {0} };

    fn slot_count(&self) -> u32 {
        self.size
    }

    fn see_tail(&self, seat: &mut RingSeat) -> u64 {
        self.load_tail::<Brand>(seat)
    }

    fn see_head(&self, seat: &mut RingSeat) -> u64 {
        self.load_head::<Brand>(seat)
    }

    fn see_entry(&self, seat: &mut RingSeat, place: u64) -> u64 {
        self.load_entry::<Brand>(seat, place)
    }

    fn put(&self, seat: &mut RingSeat, place: u64, entry: u64, v: u32) -> u64 {
        self.exchange_entry::<Brand>(seat, place, entry, v)
    }

    fn take(&self, seat: &mut RingSeat, place: u64, entry: u64) -> u64 {
        self.exchange_head::<Brand>(seat, place, entry)
    }

    fn move_tail(&self, seat: &mut RingSeat, place: u64) {
        self.exchange_tail(seat, place);
    }

    ghost logs = { λ r e v u is. does_logs e v u is };

    ghost looks_keep = { λ r e x v u look is held. look_keeps e x v u look is held };

    ghost looks_keep_take = { λ r e v u look is may. may };
}
