//! Looks at a core, as the conditions of steps need them. Where there is no such queue, item or seat, they find one that has
//! nothing.
ghost use Rattle.std.specs.List.{list_any};
ghost use Rattle.std.specs.Prelude.{◌≡◌, ◌+◌, ◌-◌, ◌==◌, ◌&&◌, ◌<◌, ◌^◌, IfSome, IfNone, Option, get_or};
ghost use Rattle.unit_model.specs.Conditions.{eleventh_of, holds, holds_tagged, is_there, may_abandon, may_arm, may_settle};
ghost use Rattle.unit_model.specs.Core.{blank, first_item, first_place, item_of, no_queue, no_seat, owner_code, owner_of, queue_of, role_of, seat_of, side_end, side_opened, side_start, whereabouts_code};
ghost use Rattle.unit_model.specs.Shapes.{role_code};

use crate::limits::PAST_ITEMS;
use crate::machine::{BLANK, Core, Entry, Item, Queue, Seat, Sides, Unmet};
use crate::shape::{Role, Shape};

/// What the conditions of steps ask of a core, however it is kept.
pub trait Looks {
    ghost use Rattle.std.specs.Prelude.{Option};
    ghost use Rattle.unit_model.specs.declared.machine.Core.{Core};
    ghost use Rattle.unit_model.specs.declared.machine.Step.{Step};
    ghost use Rattle.unit_model.specs.declared.machine.Unmet.{Unmet};

    /// The core that is looked at. Conditions read all of it but the lists of its seats.
    ghost core: { Self → Core };

    /// The eleventh condition, which reads the lists of seats, at the steps that have it.
    ghost eleventh: { Self → Step → Option Unmet };

    /// The shape.
    fn shape(&self) -> Shape
        ensures { result ≡ (core self.now).shape };

    /// The next stream.
    fn next_stream(&self) -> u64
        ensures { result ≡ (core self.now).next };

    /// How many segments of each side are open.
    fn opened(&self) -> Sides
        ensures { result ≡ (core self.now).opened };

    /// The owner of a chunk, as a number.
    fn owner_code_at(&self, number: u64) -> u64
        ensures { result ≡ owner_code (owner_of (core self.now) number) };

    /// Whether there is such an item.
    fn is_there(&self, queue: u32, item: u32) -> bool
        ensures { result ≡ is_there (core self.now) queue item };

    /// An item.
    fn item_of(&self, queue: u32, item: u32) -> Item
        ensures { result ≡ item_of (core self.now) queue item };

    /// The first place of a queue's free list, or where it is empty the place behind it.
    fn free_place(&self, queue: u32) -> u64
        ensures { result
            ≡ first_place (queue_of (core self.now) queue).free
            (queue_of (core self.now) queue).next_free };

    /// The first place of a queue's line, or where it is empty the place behind it.
    fn line_place(&self, queue: u32) -> u64
        ensures { result
            ≡ first_place (queue_of (core self.now) queue).line
            (queue_of (core self.now) queue).next_line };

    /// The place behind a queue's free list.
    fn next_free(&self, queue: u32) -> u64
        ensures { result ≡ (queue_of (core self.now) queue).next_free };

    /// The place behind a queue's line.
    fn next_line(&self, queue: u32) -> u64
        ensures { result ≡ (queue_of (core self.now) queue).next_line };

    /// The first item of a queue's free list, or where it is empty the number behind all items.
    fn free_item(&self, queue: u32) -> u64
        ensures { result ≡ first_item (queue_of (core self.now) queue).free };

    /// The first item of a queue's line, or where it is empty the number behind all items.
    fn line_item(&self, queue: u32) -> u64
        ensures { result ≡ first_item (queue_of (core self.now) queue).line };

    /// The eleventh condition of Arm.
    fn may_arm(&self, seat: u32, queue: u32, item: u32, stream: u64) -> Option<Unmet>
        ensures { result ≡ eleventh self.now (Step.Arm seat queue item stream) };

    /// The eleventh condition of Settle.
    fn may_settle(&self, seat: u32, queue: u32, item: u32, stream: u64) -> Option<Unmet>
        ensures { result ≡ eleventh self.now (Step.Settle seat queue item stream) };

    /// The eleventh condition of Abandon.
    fn may_abandon(&self, seat: u32, stream: u64) -> Option<Unmet>
        ensures { result ≡ eleventh self.now (Step.Abandon seat stream) };
}

// The place of the first entry, or the one behind the list.
fn first_place(entries: &[Entry], next: u64) -> u64
    ensures { result ≡ first_place entries.now next }
{
    match entries {
        [] => next,
        [first, ..] => first.place,
    }
}

// The item of the first entry, or the number behind all items.
fn first_item(entries: &[Entry]) -> u64
    ensures { result ≡ first_item entries.now }
{
    match entries {
        [] => PAST_ITEMS,
        [first, ..] => first.item as u64,
    }
}

// Whether an item of this tag is where this code says.
fn has_held(code: u64, tag: u64, items: &[Item]) -> bool
    ensures { result
        ≡ list_any (λ item. whereabouts_code item.whereabouts == code && item.tag == tag)
        items.now }
{
    items
        .iter()
        .any(|item| item.whereabouts.code() == code && item.tag == tag)
}

// A core's own looks, at what it may not have.
impl Core {
    fn queue(&self, queue: u32) -> Option<&Queue>
        ensures some { IfSome result (λ q. q.now ≡ queue_of self.now queue) }
        ensures none { IfNone result (queue_of self.now queue ≡ no_queue) }
    {
        self.queues.as_slice().get(queue as usize)
    }

    pub(crate) fn seat(&self, seat: u32) -> Option<&Seat>
        ensures some { IfSome result (λ lists. lists.now ≡ seat_of self.now seat) }
        ensures none { IfNone result (seat_of self.now seat ≡ no_seat) }
    {
        self.seats.as_slice().get(seat as usize)
    }

    pub(crate) fn role_of(&self, seat: u32) -> Role
        ensures { role_code result ≡ role_of self.now seat }
    {
        self.shape.role(seat)
    }

    pub(crate) fn holds(&self, seat: u32, queue: u32, item: u32) -> bool
        ensures { result ≡ holds self.now seat queue item }
    {
        self.item_of(queue, item).whereabouts.code() == 1 + seat as u64
    }

    pub(crate) fn holds_tagged(&self, seat: u32, queue: u32, stream: u64) -> bool
        ensures { result ≡ holds_tagged self.now seat queue stream }
    {
        match self.queue(queue) {
            Some(queue) => has_held(1 + seat as u64, stream, queue.items.as_slice()),
            None => false,
        }
    }
}

impl Queue {
    fn item(&self, item: u32) -> Item
        ensures { result ≡ get_or self.now.items item blank }
    {
        match self.items.as_slice().get(item as usize) {
            Some(item) => *item,
            None => BLANK,
        }
    }
}

impl Looks for Core {
    ghost core = { λ core. core };

    ghost eleventh = { eleventh_of };

    fn shape(&self) -> Shape {
        self.shape
    }

    fn next_stream(&self) -> u64 {
        self.next
    }

    fn opened(&self) -> Sides {
        self.opened
    }

    fn owner_code_at(&self, number: u64) -> u64 {
        match self.owners.as_slice().get(number as usize) {
            Some(owner) => owner.code(),
            None => 0,
        }
    }

    fn is_there(&self, queue: u32, item: u32) -> bool {
        match self.queue(queue) {
            Some(queue) => (item as usize) < queue.items.as_slice().len(),
            None => false,
        }
    }

    fn item_of(&self, queue: u32, item: u32) -> Item {
        match self.queue(queue) {
            Some(queue) => queue.item(item),
            None => BLANK,
        }
    }

    fn free_place(&self, queue: u32) -> u64 {
        match self.queue(queue) {
            Some(queue) => first_place(queue.free.as_slice(), queue.next_free),
            None => 0,
        }
    }

    fn line_place(&self, queue: u32) -> u64 {
        match self.queue(queue) {
            Some(queue) => first_place(queue.line.as_slice(), queue.next_line),
            None => 0,
        }
    }

    fn next_free(&self, queue: u32) -> u64 {
        match self.queue(queue) {
            Some(queue) => queue.next_free,
            None => 0,
        }
    }

    fn next_line(&self, queue: u32) -> u64 {
        match self.queue(queue) {
            Some(queue) => queue.next_line,
            None => 0,
        }
    }

    fn free_item(&self, queue: u32) -> u64 {
        match self.queue(queue) {
            Some(queue) => first_item(queue.free.as_slice()),
            None => PAST_ITEMS,
        }
    }

    fn line_item(&self, queue: u32) -> u64 {
        match self.queue(queue) {
            Some(queue) => first_item(queue.line.as_slice()),
            None => PAST_ITEMS,
        }
    }

    fn may_arm(&self, seat: u32, queue: u32, item: u32, stream: u64) -> Option<Unmet> {
        self.arm_unmet(seat, queue, item, stream)
    }

    fn may_settle(&self, seat: u32, queue: u32, item: u32, stream: u64) -> Option<Unmet> {
        self.settle_unmet(seat, queue, item, stream)
    }

    fn may_abandon(&self, seat: u32, stream: u64) -> Option<Unmet> {
        self.abandon_unmet(seat, stream)
    }
}
