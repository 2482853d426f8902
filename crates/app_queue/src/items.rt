//! Calls on one item of a queue. None of them takes memory or waits.
ghost use Rattle.std.specs.Prelude.{◌≡◌, ◌≢◌, ◌⊎◌, ◌<◌, ◌≤◌, ℕ, Some};

use crate::layout::Place;
use crate::queue::AppQueue;
use crate::seat::QueueSeat;
use std::marker::Brand;
use tracking_word::Settle;

/// The words of an item.
#[derive(Clone, Copy, Debug, PartialEq, Eq, Drop)]
pub struct Looked {
    /// 0, or the stream that the item was armed with.
    pub tag: u64,
    pub run: u64,
    pub part: u64,
}

impl AppQueue {
    ghost use Rattle.unit_model.specs.Sharing.{Holds};
    ghost use Rattle.app_queue.specs.Seats.{BelongsTo, items_of, knows};
    ghost use Rattle.app_queue.specs.Told.{SeesPart, SeesRun, SeesTag, Settles};
    ghost use Rattle.app_queue.specs.Views.{after, held_by, last_part, last_run, last_tag};
    ghost use Rattle.app_queue.specs.declared.view.ItemEvent.TheVariants.{Armed, Gone, PartNoted, RunNoted, TagNoted, Won};

    fn store_run(&self, seat: &mut QueueSeat, item: u32, run: u64)
        requires own { BelongsTo seat.old self.now }
        requires held { Holds held_by item (knows seat.old) }
        ensures own { BelongsTo seat.new self.now }
        ensures view { knows seat.new ≡ after (RunNoted item run) (knows seat.old) }
    {
        self.store_word::<Brand>(&mut seat.seat, Place::RunOf(item), run);
    }

    fn store_part(&self, seat: &mut QueueSeat, item: u32, part: u64)
        requires own { BelongsTo seat.old self.now }
        requires held { Holds held_by item (knows seat.old) }
        ensures own { BelongsTo seat.new self.now }
        ensures view { knows seat.new ≡ after (PartNoted item part) (knows seat.old) }
    {
        self.store_word::<Brand>(&mut seat.seat, Place::PartOf(item), part);
    }

    /// Sets the run and the part of an item that the seat holds, and whose tag is 0 by what it knows.
    pub fn write_item(&self, seat: &mut QueueSeat, item: u32, run: u64, part: u64)
        requires own { BelongsTo seat.old self.now }
        requires held { Holds held_by item (knows seat.old) }
        requires zero { last_tag item (knows seat.old).items ≡ Some 0 }
        ensures own { BelongsTo seat.new self.now }
        ensures view { knows seat.new
            ≡ after (PartNoted item part) (after (RunNoted item run) (knows seat.old)) }
    {
        self.store_run(seat, item, run);
        self.store_part(seat, item, part);
    }

    fn store_tag(&self, seat: &mut QueueSeat, item: u32, stream: u64)
        requires own { BelongsTo seat.old self.now }
        requires held { Holds held_by item (knows seat.old) }
        requires zero { last_tag item (knows seat.old).items ≡ Some 0 }
        requires stream { 1 ≤ stream }
        ensures own { BelongsTo seat.new self.now }
        ensures view { knows seat.new ≡ after (Armed item stream) (knows seat.old) }
    {
        self.store_word::<Brand>(&mut seat.seat, Place::TagOf(item), stream);
    }

    /// Sets the tag of an item that the seat holds, and whose tag is 0 by what it knows, to the stream.
    pub fn arm_item(&self, seat: &mut QueueSeat, item: u32, stream: u64)
        requires own { BelongsTo seat.old self.now }
        requires held { Holds held_by item (knows seat.old) }
        requires zero { last_tag item (knows seat.old).items ≡ Some 0 }
        requires stream { 1 ≤ stream }
        ensures own { BelongsTo seat.new self.now }
        ensures view { knows seat.new ≡ after (Armed item stream) (knows seat.old) }
    {
        self.store_tag(seat, item, stream);
    }

    // The tag as it was. It has become 0 where it was the stream.
    fn exchange_tag(&self, seat: &mut QueueSeat, item: u32, stream: u64) -> u64
        requires own { BelongsTo seat.old self.now }
        requires item { item < items_of self.now }
        requires stream { 1 ≤ stream }
        ensures own { BelongsTo seat.new self.now }
        ensures told { Settles item stream (knows seat.old) result (knows seat.new) }
    {
        self.exchange_word::<Brand>(&mut seat.seat, Place::TagOf(item), stream, 0, 0, 0)
    }

    /// Takes the tag from the stream to 0 by one exchange, or answers the other tag that the exchange found. A seat that holds
    /// the item finds the tag that it last noted, or 0.
    pub fn settle_item(&self, seat: &mut QueueSeat, item: u32, stream: u64) -> Settle
        requires own { BelongsTo seat.old self.now }
        requires item { item < items_of self.now }
        requires stream { 1 ≤ stream }
        ensures own { BelongsTo seat.new self.now }
        ensures won { result ≡ Settle.Won
            → knows seat.new ≡ after (Won item stream) (knows seat.old) }
        ensures gone { (found : ℕ) → result ≡ Settle.Gone found → (found ≢ stream)
            × (knows seat.new ≡ after (Gone item stream found) (knows seat.old)) }
        ensures holder_won { result ≡ Settle.Won → Holds held_by item (knows seat.old) → (x : ℕ)
            → last_tag item (knows seat.old).items ≡ Some x → x ≡ stream }
        ensures holder_gone { (found : ℕ) → result ≡ Settle.Gone found
            → Holds held_by item (knows seat.old) → (x : ℕ)
            → last_tag item (knows seat.old).items ≡ Some x → (found ≡ x) ⊎ (found ≡ 0) }
    {
        let found = self.exchange_tag(seat, item, stream);
        if found == stream {
            Settle::Won
        } else {
            Settle::Gone(found)
        }
    }

    fn load_tag(&self, seat: &mut QueueSeat, item: u32) -> u64
        requires own { BelongsTo seat.old self.now }
        requires held { Holds held_by item (knows seat.old) }
        ensures own { BelongsTo seat.new self.now }
        ensures told { SeesTag item (knows seat.old) result (knows seat.new) }
    {
        self.load_word::<Brand>(&mut seat.seat, Place::TagOf(item), 0)
    }

    fn load_run(&self, seat: &mut QueueSeat, item: u32) -> u64
        requires own { BelongsTo seat.old self.now }
        requires held { Holds held_by item (knows seat.old) }
        ensures own { BelongsTo seat.new self.now }
        ensures told { SeesRun item (knows seat.old) result (knows seat.new) }
    {
        self.load_word::<Brand>(&mut seat.seat, Place::RunOf(item), 0)
    }

    fn load_part(&self, seat: &mut QueueSeat, item: u32) -> u64
        requires own { BelongsTo seat.old self.now }
        requires held { Holds held_by item (knows seat.old) }
        ensures own { BelongsTo seat.new self.now }
        ensures told { SeesPart item (knows seat.old) result (knows seat.new) }
    {
        self.load_word::<Brand>(&mut seat.seat, Place::PartOf(item), 0)
    }

    /// The words of an item that the seat holds: what it last noted of them since it got the item, or of the tag 0.
    pub fn look(&self, seat: &mut QueueSeat, item: u32) -> Looked
        requires own { BelongsTo seat.old self.now }
        requires held { Holds held_by item (knows seat.old) }
        ensures own { BelongsTo seat.new self.now }
        ensures view { knows seat.new ≡ after (PartNoted item result.part)
            (after (RunNoted item result.run) (after (TagNoted item result.tag) (knows seat.old))) }
        ensures tag { (x : ℕ) → last_tag item (knows seat.old).items ≡ Some x
            → (result.tag ≡ x) ⊎ (result.tag ≡ 0) }
        ensures run { (x : ℕ) → last_run item (knows seat.old).items ≡ Some x → result.run ≡ x }
        ensures part { (x : ℕ) → last_part item (knows seat.old).items ≡ Some x
            → result.part ≡ x }
    {
        let tag = self.load_tag(seat, item);
        let run = self.load_run(seat, item);
        let part = self.load_part(seat, item);
        Looked { tag, run, part }
    }
}
