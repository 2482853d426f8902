//! The way of an item through a queue, by one thread, against a push and a pop of `ArrayQueue`.
ghost use Rattle.std.specs.Prelude.{◌≡◌, ◌<◌, IfSome, IsTrue, Some};
ghost use Rattle.unit_model.specs.Sharing.{Holds};
ghost use Rattle.app_queue.specs.Seats.{BelongsTo, items_of, knows};
ghost use Rattle.app_queue.specs.Views.{held_by, is_armed, last_tag};

use crate::rings::{QueueAlone, ROUNDS, RUNS, SIZE};
use app_queue::{AppQueue, QueueSeat};
use nncq_ring::{PopTurn, PushTurn};
use std::io;
use std::sync::Wait;
use std::time::Instant;
use timed_sides::{Side, Timed, least_times, report};
use tracking_word::Settle;

/// Takes an item, writes, arms, pushes and pops it, looks at it, settles and frees it: at most five times as long as a
/// push and a pop of `ArrayQueue`, which waits by `threads`.
pub fn measure<R: Wait>(rt: &HostRuntime, threads: &R) -> io::Result<()> {
    let times = least_times(rt, RUNS, &ItemRounds {}, &QueueAlone { threads })?;
    report(rt, "an item through a queue", 500, times)
}

#[derive(Drop)]
struct ItemRounds {}

impl Side for ItemRounds {
    fn run(&self, rt: &HostRuntime) -> io::Result<Timed> {
        let (queue, mut seat) = AppQueue::open(rt.alloc(), SIZE, SIZE as u64)?;
        let start = Instant::now(rt)?;
        let done = item_rounds(&queue, &mut seat);
        Timed::since(rt, &start, done == ROUNDS)
    }
}

fn item_rounds(queue: &AppQueue, seat: &mut QueueSeat) -> u64
    requires own { BelongsTo seat.old queue.now }
{
    for round in 0..ROUNDS {
        if !goes_through(queue, seat) {
            return round;
        }
    }
    ROUNDS
}

// Whether an item came from the free ring through the line back to the free ring.
fn goes_through(queue: &AppQueue, seat: &mut QueueSeat) -> bool
    requires own { BelongsTo seat.old queue.now }
    ensures own { BelongsTo seat.new queue.now }
{
    let Some(item) = take(queue, seat) else {
        return false;
    };
    arm(queue, seat, item);
    let PushTurn::Done(_) = queue.push_item_turn(seat, item) else {
        return false;
    };
    let Some(item) = pop(queue, seat) else {
        return false;
    };
    queue.look(seat, item);
    is_freed(queue, seat, item)
}

// An item from the free ring.
fn take(queue: &AppQueue, seat: &mut QueueSeat) -> Option<u32>
    requires own { BelongsTo seat.old queue.now }
    ensures own { BelongsTo seat.new queue.now }
    ensures got { IfSome result (λ item. Holds held_by item (knows seat.new)
        × (last_tag item (knows seat.new).items ≡ Some 0)) }
{
    match queue.take_item_turn(seat) {
        PopTurn::Got { value, .. } => Some(value),
        _ => None,
    }
}

// Writes an item and arms it with stream 1.
fn arm(queue: &AppQueue, seat: &mut QueueSeat, item: u32)
    requires own { BelongsTo seat.old queue.now }
    requires held { Holds held_by item (knows seat.old) }
    requires zero { last_tag item (knows seat.old).items ≡ Some 0 }
    ensures own { BelongsTo seat.new queue.now }
    ensures held { Holds held_by item (knows seat.new) }
    ensures armed { IsTrue (is_armed item (knows seat.new).items) }
{
    queue.write_item(seat, item, 5, 6);
    queue.arm_item(seat, item, 1);
}

// An item from the line.
fn pop(queue: &AppQueue, seat: &mut QueueSeat) -> Option<u32>
    requires own { BelongsTo seat.old queue.now }
    ensures own { BelongsTo seat.new queue.now }
    ensures got { IfSome result (λ item. Holds held_by item (knows seat.new)
        × (item < items_of queue.now)) }
{
    match queue.pop_item_turn(seat) {
        PopTurn::Got { value, .. } => Some(value),
        _ => None,
    }
}

// Settles an item that the seat holds and frees it; whether both were done.
fn is_freed(queue: &AppQueue, seat: &mut QueueSeat, item: u32) -> bool
    requires own { BelongsTo seat.old queue.now }
    requires held { Holds held_by item (knows seat.old) }
    requires inside { item < items_of queue.now }
    ensures own { BelongsTo seat.new queue.now }
{
    match queue.settle_item(seat, item, 1) {
        Settle::Won => matches!(queue.free_item_turn(seat, item), PushTurn::Done(_)),
        Settle::Gone(_) => false,
    }
}
