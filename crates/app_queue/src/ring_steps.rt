//! The single steps at a ring of a queue.
ghost use Rattle.std.specs.Prelude.{◌≡◌, ◌≤◌, ◌<◌, ◌+◌, ◌^◌, ◌/◌, ◌%◌, ℕ};

use crate::layout::Place;
use crate::queue::AppQueue;
use crate::seat::QueueSeat;
use crate::side::Side;
use std::marker::Brand;

impl AppQueue {
    ghost use mathlib.Core.Option.{some};
    ghost use lib.ListN.{get_elem?};
    ghost use Rattle.nncq_ring.specs.Shown.{ShowsFilled};
    ghost use Rattle.nncq_ring.specs.declared.view.RingEvent.TheVariants.{SawEntry, SawHead, SawTail};
    ghost use Rattle.app_queue.specs.Seats.{BelongsTo, items_of, knows};
    ghost use Rattle.app_queue.specs.Told.{Helps, Puts, SeesEntry, SeesHead, SeesTail, Takes};
    ghost use Rattle.app_queue.specs.Views.{log_at, MayPut};

    pub(crate) fn load_tail(&self, seat: &mut QueueSeat, side: Side) -> u64
        requires own { BelongsTo seat.old self.now }
        ensures own { BelongsTo seat.new self.now }
        ensures told { SeesTail (items_of self.now) side (knows seat.old) result (knows seat.new) }
    {
        self.load_word::<Brand>(&mut seat.seat, Place::InRing(side, 16), 0)
    }

    pub(crate) fn load_head(&self, seat: &mut QueueSeat, side: Side) -> u64
        requires own { BelongsTo seat.old self.now }
        ensures own { BelongsTo seat.new self.now }
        ensures told { SeesHead (items_of self.now) side (knows seat.old) result (knows seat.new) }
    {
        self.load_word::<Brand>(&mut seat.seat, Place::InRing(side, 0), 0)
    }

    // The number of the entry's word in its ring.
    fn entry_number(&self, place: u64) -> u32
        ensures { (result ≡ 32 + place % items_of self.now) × (result < 32 + items_of self.now) }
    {
        32 + (place % self.size as u64) as u32
    }

    pub(crate) fn load_entry(&self, seat: &mut QueueSeat, side: Side, place: u64) -> u64
        requires own { BelongsTo seat.old self.now }
        ensures own { BelongsTo seat.new self.now }
        ensures told { SeesEntry (items_of self.now) side place (knows seat.old) result
            (knows seat.new) }
    {
        let number = self.entry_number(place);
        self.load_word::<Brand>(&mut seat.seat, Place::InRing(side, number), place)
    }

    // Exchanges the entry for that of the place and the item. The result is what was found.
    pub(crate) fn exchange_entry(
        &self,
        seat: &mut QueueSeat,
        side: Side,
        place: u64,
        entry: u64,
        item: u32,
    ) -> u64
        requires own { BelongsTo seat.old self.now }
        requires fresh { place < 2 ^ 62 }
        requires may { MayPut side item (knows seat.old) }
        requires before { entry / items_of self.now + 1 ≡ place / items_of self.now }
        requires looked { get_elem? (log_at side (knows seat.old)) 0 ≡ some (SawEntry place entry) }
        requires seen { get_elem? (log_at side (knows seat.old)) 1 ≡ some (SawTail place) }
        ensures own { BelongsTo seat.new self.now }
        ensures told { Puts (items_of self.now) side place entry item (knows seat.old) result
            (knows seat.new) }
    {
        let number = self.entry_number(place);
        let turn = place - place % self.size as u64;
        self.exchange_word::<Brand>(
            &mut seat.seat,
            Place::InRing(side, number),
            entry,
            turn + item as u64,
            place,
            item as u64,
        )
    }

    // Exchanges the head for the next place. The result is what was found.
    pub(crate) fn exchange_head(
        &self,
        seat: &mut QueueSeat,
        side: Side,
        place: u64,
        entry: u64,
    ) -> u64
        requires own { BelongsTo seat.old self.now }
        requires most { place ≤ 2 ^ 62 }
        requires full { entry / items_of self.now ≡ place / items_of self.now }
        requires looked { get_elem? (log_at side (knows seat.old)) 0 ≡ some (SawEntry place entry) }
        requires seen { get_elem? (log_at side (knows seat.old)) 1 ≡ some (SawHead place) }
        ensures own { BelongsTo seat.new self.now }
        ensures told { Takes (items_of self.now) side place (entry % items_of self.now)
            (knows seat.old) result (knows seat.new) }
    {
        self.exchange_word::<Brand>(
            &mut seat.seat,
            Place::InRing(side, 0),
            place,
            place + 1,
            place,
            entry,
        )
    }

    // Helps the tail on, so that it is past the place.
    pub(crate) fn exchange_tail(&self, seat: &mut QueueSeat, side: Side, place: u64)
        requires own { BelongsTo seat.old self.now }
        requires fresh { place < 2 ^ 62 }
        requires shown { ShowsFilled (items_of self.now) place (log_at side (knows seat.old)) }
        ensures own { BelongsTo seat.new self.now }
        ensures told { Helps side place (knows seat.old) (knows seat.new) }
    {
        self.exchange_word::<Brand>(
            &mut seat.seat,
            Place::InRing(side, 16),
            place,
            place + 1,
            place,
            0,
        );
    }
}
