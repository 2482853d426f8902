//! A ring of a fabric's table has the steps of a ring.
ghost use Rattle.std.specs.Prelude.{◌≡◌, ◌+◌, ◌%◌, ◌<◌, ◌≤◌, ◌^◌};
ghost use Rattle.fabric_words.specs.Offsets.{ring_start};
ghost use Rattle.fabric_words.specs.Places.{queues_of};
ghost use Rattle.unit_model.specs.Holding.{items_of};
ghost use Rattle.fabric_rule.specs.Turns.{IsPartOf};
ghost use Rattle.fabric_rule.specs.Views.{word_side};

use crate::look::Look;
use crate::sending::{EntryPut, PartOut};
use crate::table::{FabricSeat, FabricTable};
use app_queue::Side;
use nncq_ring::RingSteps;
use unit_types::Handlers;

// From where its ring begins, a tail stands so far, and the entries.
const TAIL: usize = 16;

const ENTRIES: usize = 32;

// The ring, as the words name its side.
pub(crate) fn words_side(side: Side) -> fabric_words::Side
    ensures { result ≡ word_side side }
{
    match side {
        Side::Free => fabric_words::Side::FreeSide,
        Side::Line => fabric_words::Side::LineSide,
    }
}

/// One ring of a fabric, whose words begin at `start`. Where there is a part, it is what a seat puts
/// in the line.
#[derive(Drop)]
pub struct Lane<'a, H: Handlers> {
    pub(crate) table: &'a FabricTable<H>,
    pub(crate) queue: u32,
    pub(crate) side: Side,
    pub(crate) part: Option<PartOut>,
    pub(crate) start: usize,
    pub(crate) size: u32,
    ghost there: { queue < queues_of table.now.table.shared.key },
    ghost start_is: { (start ≡ ring_start table.now.table.shared.key queue (word_side side))
        × (start < 2 ^ 33) },
    ghost size_is: { (size ≡ items_of table.now.table.shared.key queue) × (1 ≤ size) },
    ghost part_is: { IsPartOf queue side part },
}

impl<'a, H: Handlers> Lane<'a, H> {
    // Where the slot of a place stands.
    fn slot(&self, place: u64) -> usize
        ensures { result ≡ self.now.start + 32 + place % self.now.size }
    {
        self.start + ENTRIES + (place % self.size as u64) as usize
    }
}

impl<'a, H: Handlers> RingSteps for Lane<'a, H> {
    ghost use Rattle.fabric_rule.specs.Turns.{Known, MayPutAt, MayTakeAt, RingStep, looks_keep_put, looks_keep_take, step_logs};
    ghost use Rattle.fabric_rule.specs.Views.{log_at};

    type Seat = FabricSeat<H>;

    ghost View = { Known H };

    ghost knows = { λ s. (s.seat.id, s.seat.me) };

    ghost belongs = { λ s r. s.seat.table_id ≡ r.table.now.table.shared.table_id };

    ghost slots = { λ r. items_of r.table.now.table.shared.key r.queue };

    ghost events = { λ r k. log_at r.queue r.side k.1.0 };

    ghost steps = { λ r e k u. RingStep H H.reply_of r.table.now.table.shared.key r.queue r.side r.part e k u };

    ghost may_put = { λ r x k. MayPutAt r.table.now.table.shared.key r.queue r.side r.part x k.1.0 };

    ghost may_take = { λ r k. MayTakeAt r.table.now.table.shared.key r.queue r.side k.1.0 };

    fn slot_count(&self) -> u32 {
        self.size
    }

    fn see_tail(&self, seat: &mut FabricSeat<H>) -> u64 {
        let look = Look::Tail {
            queue: self.queue,
            side: self.side,
        };
        self.table.load(seat, self.start + TAIL, look)
    }

    fn see_head(&self, seat: &mut FabricSeat<H>) -> u64 {
        let look = Look::Head {
            queue: self.queue,
            side: self.side,
        };
        self.table.load(seat, self.start, look)
    }

    fn see_entry(&self, seat: &mut FabricSeat<H>, place: u64) -> u64 {
        let look = Look::Entry {
            queue: self.queue,
            side: self.side,
            place,
        };
        self.table.load(seat, self.slot(place), look)
    }

    fn put(&self, seat: &mut FabricSeat<H>, place: u64, entry: u64, v: u32) -> u64 {
        let word = self.slot(place);
        let put = EntryPut {
            item: v,
            place,
            entry,
        };
        match (self.part, self.side) {
            (Some(part), _) => self.table.push_part(seat, word, self.size, part, put),
            (None, Side::Free) => self.table.give(seat, word, self.queue, self.size, put),
            (None, Side::Line) => self.table.push(seat, word, self.size, put),
        }
    }

    fn take(&self, seat: &mut FabricSeat<H>, place: u64, entry: u64) -> u64 {
        match self.side {
            Side::Free => self
                .table
                .get_item(seat, self.start, self.queue, place, entry),
            Side::Line => self.table.pop(seat, self.start, self.queue, place, entry),
        }
    }

    fn move_tail(&self, seat: &mut FabricSeat<H>, place: u64) {
        let word = self.start + TAIL;
        self.table.help(seat, word, self.queue, self.side, place);
    }

    ghost logs = { λ r e k u is. step_logs H H.reply_of r.table.now.table.shared.key r.queue r.side r.part r.part_is e k u is };

    ghost looks_keep = { λ r e x k u look is may. looks_keep_put H H.reply_of r.table.now.table.shared.key r.queue r.side r.part x e k u look is may };

    ghost looks_keep_take = { λ r e k u look is may. looks_keep_take H H.reply_of r.table.now.table.shared.key r.queue r.side r.part e k u look is may };
}
