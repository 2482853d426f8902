//! One attempt at a ring of a fabric's table. A turn takes no memory and doesn't wait.
ghost use Rattle.std.specs.Prelude.{ℕ, ◌≡◌, ◌<◌, None, Some};
ghost use Rattle.app_queue.specs.declared.side.Side.TheVariants.{Free, Line};
ghost use Rattle.fabric_words.specs.Places.{queues_of};
ghost use Rattle.fabric_rule.specs.Sending.{queue_to};
ghost use Rattle.fabric_rule.specs.Turns.{IsPartOf, MayAnswer, MayGet, MayGive, MayPop, MayPost, MayPutAt, MayTakeAt, PutTold, TakeTold};

use crate::lane::{Lane, words_side};
use crate::sending::PartOut;
use crate::table::{FabricSeat, FabricTable};
use app_queue::Side;
use fabric_words::Layout;
use nncq_ring::{PopTurn, PushTurn, pop_turn, push_turn};
use unit_types::Handlers;

// The end of a ring, and the part of a reply that is put there, where one is.
#[derive(Clone, Copy, Drop)]
struct RingEnd {
    queue: u32,
    side: Side,
    part: Option<PartOut>,
}

impl<H: Handlers> FabricTable<H> {
    fn take_at(&self, layout: &Layout, seat: &mut FabricSeat<H>, queue: u32, side: Side) -> PopTurn
        requires own { seat.old.seat.table_id ≡ self.now.table.shared.table_id }
        requires laid { layout.now.shape ≡ self.now.table.shared.key }
        requires there { queue < queues_of self.now.table.shared.key }
        requires may { MayTakeAt self.now.table.shared.key queue side seat.old.seat.me.0 }
        ensures own { seat.new.seat.table_id ≡ seat.old.seat.table_id }
        ensures told { TakeTold H H.reply_of self.now.table.shared.key queue side
            (seat.old.seat.id, seat.old.seat.me) result (seat.new.seat.id, seat.new.seat.me) }
    {
        let lane = Lane {
            table: self,
            queue,
            side,
            part: None,
            start: layout.ring(queue, words_side(side)),
            size: layout.items(queue),
        };
        pop_turn(&lane, seat)
    }

    fn put_at(&self, layout: &Layout, seat: &mut FabricSeat<H>, at: RingEnd, item: u32) -> PushTurn
        requires own { seat.old.seat.table_id ≡ self.now.table.shared.table_id }
        requires laid { layout.now.shape ≡ self.now.table.shared.key }
        requires there { at.queue < queues_of self.now.table.shared.key }
        requires part { IsPartOf at.queue at.side at.part }
        requires may { MayPutAt self.now.table.shared.key at.queue at.side at.part item
            seat.old.seat.me.0 }
        ensures own { seat.new.seat.table_id ≡ seat.old.seat.table_id }
        ensures told { PutTold H H.reply_of self.now.table.shared.key at.queue at.side at.part item
            (seat.old.seat.id, seat.old.seat.me) result (seat.new.seat.id, seat.new.seat.me) }
    {
        let lane = Lane {
            table: self,
            queue: at.queue,
            side: at.side,
            part: at.part,
            start: layout.ring(at.queue, words_side(at.side)),
            size: layout.items(at.queue),
        };
        push_turn(&lane, seat, item)
    }

    /// Tries once to get the first free item of a queue that the seat fills, which it may give back.
    pub fn get_item_turn(&self, layout: &Layout, seat: &mut FabricSeat<H>, queue: u32) -> PopTurn
        requires own { seat.old.seat.table_id ≡ self.now.table.shared.table_id }
        requires laid { layout.now.shape ≡ self.now.table.shared.key }
        requires there { queue < queues_of self.now.table.shared.key }
        requires may { MayGet self.now.table.shared.key queue seat.old.seat.me.0 }
        ensures own { seat.new.seat.table_id ≡ seat.old.seat.table_id }
        ensures told { TakeTold H H.reply_of self.now.table.shared.key queue Free
            (seat.old.seat.id, seat.old.seat.me) result (seat.new.seat.id, seat.new.seat.me) }
        ensures may { (place item : ℕ) → result ≡ PopTurn.Got place item
            → MayGive self.now.table.shared.key queue item seat.new.seat.me.0 }
    {
        self.take_at(layout, seat, queue, Side::Free)
    }

    /// Tries once to pop the line of the queue that a main seat empties.
    pub fn pop_turn(&self, layout: &Layout, seat: &mut FabricSeat<H>, queue: u32) -> PopTurn
        requires own { seat.old.seat.table_id ≡ self.now.table.shared.table_id }
        requires laid { layout.now.shape ≡ self.now.table.shared.key }
        requires there { queue < queues_of self.now.table.shared.key }
        requires may { MayPop self.now.table.shared.key queue seat.old.seat.me.0 }
        ensures own { seat.new.seat.table_id ≡ seat.old.seat.table_id }
        ensures told { TakeTold H H.reply_of self.now.table.shared.key queue Line
            (seat.old.seat.id, seat.old.seat.me) result (seat.new.seat.id, seat.new.seat.me) }
    {
        self.take_at(layout, seat, queue, Side::Line)
    }

    /// Tries once to push an engine's armed item into the line of queue 0.
    pub fn push_turn(&self, layout: &Layout, seat: &mut FabricSeat<H>, item: u32) -> PushTurn
        requires own { seat.old.seat.table_id ≡ self.now.table.shared.table_id }
        requires laid { layout.now.shape ≡ self.now.table.shared.key }
        requires may { MayPost self.now.table.shared.key 0 item seat.old.seat.me.0 }
        ensures own { seat.new.seat.table_id ≡ seat.old.seat.table_id }
        ensures told { PutTold H H.reply_of self.now.table.shared.key 0 Line None item
            (seat.old.seat.id, seat.old.seat.me) result (seat.new.seat.id, seat.new.seat.me) }
    {
        let at = RingEnd {
            queue: 0,
            side: Side::Line,
            part: None,
        };
        self.put_at(layout, seat, at, item)
    }

    /// Tries once to push a part that a worker armed into the line of its engine's queue.
    pub fn push_part_turn(
        &self,
        layout: &Layout,
        seat: &mut FabricSeat<H>,
        part: PartOut,
        item: u32,
    ) -> PushTurn
        requires own { seat.old.seat.table_id ≡ self.now.table.shared.table_id }
        requires laid { layout.now.shape ≡ self.now.table.shared.key }
        requires may { MayAnswer self.now.table.shared.key part item seat.old.seat.me.0 }
        ensures own { seat.new.seat.table_id ≡ seat.old.seat.table_id }
        ensures told { PutTold H H.reply_of self.now.table.shared.key (queue_to part) Line
            (Some part) item (seat.old.seat.id, seat.old.seat.me) result
            (seat.new.seat.id, seat.new.seat.me) }
    {
        let at = RingEnd {
            queue: 1 + part.poster,
            side: Side::Line,
            part: Some(part),
        };
        self.put_at(layout, seat, at, item)
    }

    /// Tries once to give an item without a tag back into its free ring.
    pub fn give_turn(
        &self,
        layout: &Layout,
        seat: &mut FabricSeat<H>,
        queue: u32,
        item: u32,
    ) -> PushTurn
        requires own { seat.old.seat.table_id ≡ self.now.table.shared.table_id }
        requires laid { layout.now.shape ≡ self.now.table.shared.key }
        requires may { MayGive self.now.table.shared.key queue item seat.old.seat.me.0 }
        ensures own { seat.new.seat.table_id ≡ seat.old.seat.table_id }
        ensures told { PutTold H H.reply_of self.now.table.shared.key queue Free None item
            (seat.old.seat.id, seat.old.seat.me) result (seat.new.seat.id, seat.new.seat.me) }
    {
        let at = RingEnd {
            queue,
            side: Side::Free,
            part: None,
        };
        self.put_at(layout, seat, at, item)
    }
}
