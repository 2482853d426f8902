ghost use Rattle.std.specs.Prelude.{◌≡◌, ◌<◌, ℕ, IfSome, IsTrue, Some};
ghost use Rattle.unit_model.specs.Sharing.{Holds};
ghost use Rattle.app_queue.specs.Seats.{BelongsTo, items_of, knows};
ghost use Rattle.app_queue.specs.Views.{held_by, is_armed, last_tag};

use super::*;
use nncq_ring::{PopTurn, PushTurn};
use std::alloc::AllocError;
use std::sync::Wait;
use std::test::*;
use std::thread;
use tracking_word::Settle;

// An item from the free ring, with its place.
fn take(queue: &AppQueue, seat: &mut QueueSeat) -> Option<(u64, u32)>
    requires own { BelongsTo seat.old queue.now }
    ensures own { BelongsTo seat.new queue.now }
    ensures got { IfSome result (λ r. Holds held_by r.1 (knows seat.new)
        × (last_tag r.1 (knows seat.new).items ≡ Some 0)) }
{
    match queue.take_item_turn(seat) {
        PopTurn::Got { place, value } => Some((place, value)),
        _ => None,
    }
}

// Writes an item and arms it with stream 1.
fn arm(queue: &AppQueue, seat: &mut QueueSeat, item: u32)
    requires own { BelongsTo seat.old queue.now }
    requires held { Holds held_by item (knows seat.old) }
    requires zero { last_tag item (knows seat.old).items ≡ Some 0 }
    ensures own { BelongsTo seat.new queue.now }
    ensures held { Holds held_by item (knows seat.new) }
    ensures armed { IsTrue (is_armed item (knows seat.new).items) }
{
    queue.write_item(seat, item, 5, 6);
    queue.arm_item(seat, item, 1);
}

// An item from the line, with its place.
fn pop(queue: &AppQueue, seat: &mut QueueSeat) -> Option<(u64, u32)>
    requires own { BelongsTo seat.old queue.now }
    ensures own { BelongsTo seat.new queue.now }
    ensures got { IfSome result (λ r. Holds held_by r.1 (knows seat.new)
        × (r.1 < items_of queue.now)) }
{
    match queue.pop_item_turn(seat) {
        PopTurn::Got { place, value } => Some((place, value)),
        _ => None,
    }
}

// Settles an item that the seat holds.
fn settle(queue: &AppQueue, seat: &mut QueueSeat, item: u32)
    requires own { BelongsTo seat.old queue.now }
    requires held { Holds held_by item (knows seat.old) }
    requires inside { item < items_of queue.now }
    ensures own { BelongsTo seat.new queue.now }
    ensures held { Holds held_by item (knows seat.new) }
{
    queue.settle_item(seat, item, 1);
}

// The item's tag is 0.
fn is_settled(queue: &AppQueue, seat: &mut QueueSeat, item: u32) -> bool
    requires own { BelongsTo seat.old queue.now }
    requires held { Holds held_by item (knows seat.old) }
    ensures own { BelongsTo seat.new queue.now }
    ensures held { Holds held_by item (knows seat.new) }
    ensures zero { IsTrue result → last_tag item (knows seat.new).items ≡ Some 0 }
{
    queue.look(seat, item).tag == 0
}

// No word of the item was set yet.
fn is_unwritten(queue: &AppQueue, seat: &mut QueueSeat, item: u32) -> bool
    requires own { BelongsTo seat.old queue.now }
    requires held { Holds held_by item (knows seat.old) }
    ensures own { BelongsTo seat.new queue.now }
    ensures held { Holds held_by item (knows seat.new) }
    ensures zero { IsTrue result → last_tag item (knows seat.new).items ≡ Some 0 }
{
    let looked = queue.look(seat, item);
    if looked.run != 0 || looked.part != 0 {
        return false;
    }
    looked.tag == 0
}

#[test]
fn an_item_goes_round(rt: HostRuntime) -> Result<(), AllocError> {
    let (queue, mut first) = AppQueue::open(rt.alloc(), 1, 1)?;
    let mut seat = queue.split(&mut first);
    let Some((place, item)) = take(&queue, &mut seat) else {
        panic!(rt; "no item was taken")
    };
    assert_eq!(rt; (place, item), (1, 0));
    assert_eq!(rt;
        queue.take_item_turn(&mut first),
        PopTurn::Empty { place: 2, entry: 1 }
    );
    assert!(rt; is_unwritten(&queue, &mut seat, item));
    arm(&queue, &mut seat, item);
    assert_eq!(rt; queue.push_item_turn(&mut seat, item), PushTurn::Done(1));
    assert_eq!(rt; queue.settle_item(&mut first, 0, 1), Settle::Won);
    assert_eq!(rt; queue.settle_item(&mut first, 0, 1), Settle::Gone(0));
    let Some((place, item)) = pop(&queue, &mut first) else {
        panic!(rt; "no item was popped")
    };
    assert_eq!(rt; (place, item), (1, 0));
    if is_settled(&queue, &mut first, item) {
        assert_eq!(rt; queue.free_item_turn(&mut first, item), PushTurn::Done(2));
    }
    let closed = queue.close(first);
    let words = (closed.word(Place::RunOf(0)), closed.word(Place::PartOf(0)));
    assert_eq!(rt; words, (5, 6));
    assert_eq!(rt; closed.word(Place::InRing(Side::Free, 16)), 3);
    Ok(())
}

#[test]
fn of_two_threads_one_settles(rt: HostRuntime) -> Result<(), AllocError> {
    let (queue, mut seat) = AppQueue::open(rt.alloc(), 1, 1)?;
    let Some((_, item)) = take(&queue, &mut seat) else {
        panic!(rt; "no item was taken")
    };
    arm(&queue, &mut seat, item);
    let mut other = queue.split(&mut seat);
    let (mine, theirs) = thread::join(
        &rt,
        || queue.settle_item(&mut seat, 0, 1),
        || queue.settle_item(&mut other, 0, 1),
    );
    assert!(rt; (mine == Settle::Won) != (theirs == Settle::Won));
    assert!(rt; mine == Settle::Gone(0) || theirs == Settle::Gone(0));
    Ok(())
}

fn take_on<R: Wait>(rt: &R, queue: &AppQueue, seat: &mut QueueSeat) -> u32
    requires own { BelongsTo seat.old queue.now }
    ensures own { BelongsTo seat.new queue.now }
    ensures held { Holds held_by result (knows seat.new) }
    ensures zero { last_tag result (knows seat.new).items ≡ Some 0 }
{
    for _ in rt.forever() {
        if let Some((_, item)) = take(queue, seat) {
            return item;
        }
    }
    unreachable!()
}

// Puts an armed item in the line.
fn push_on<R: Wait>(rt: &R, queue: &AppQueue, seat: &mut QueueSeat, item: u32)
    requires own { BelongsTo seat.old queue.now }
    requires held { Holds held_by item (knows seat.old) }
    requires armed { IsTrue (is_armed item (knows seat.old).items) }
    ensures own { BelongsTo seat.new queue.now }
{
    for _ in rt.forever() {
        match queue.push_item_turn(seat, item) {
            PushTurn::Lost { .. } => {}
            _ => return,
        }
    }
}

fn pop_on<R: Wait>(rt: &R, queue: &AppQueue, seat: &mut QueueSeat) -> u32
    requires own { BelongsTo seat.old queue.now }
    ensures own { BelongsTo seat.new queue.now }
    ensures held { Holds held_by result (knows seat.new) }
    ensures inside { result < items_of queue.now }
{
    for _ in rt.forever() {
        if let Some((_, item)) = pop(queue, seat) {
            return item;
        }
    }
    unreachable!()
}

// Puts an item whose tag is 0 in the free ring.
fn free_on<R: Wait>(rt: &R, queue: &AppQueue, seat: &mut QueueSeat, item: u32)
    requires own { BelongsTo seat.old queue.now }
    requires held { Holds held_by item (knows seat.old) }
    requires zero { last_tag item (knows seat.old).items ≡ Some 0 }
    ensures own { BelongsTo seat.new queue.now }
{
    for _ in rt.forever() {
        match queue.free_item_turn(seat, item) {
            PushTurn::Lost { .. } => {}
            _ => return,
        }
    }
}

// Items go from the free ring through the line to the free ring. The result is how many did.
fn go_round<R: Wait>(rt: &R, queue: &AppQueue, seat: &mut QueueSeat) -> u32
    requires own { BelongsTo seat.old queue.now }
{
    let mut count = 0u32;
    for _ in 0..1000u32 {
        let item = take_on(rt, queue, seat);
        arm(queue, seat, item);
        push_on(rt, queue, seat, item);
        let item = pop_on(rt, queue, seat);
        settle(queue, seat, item);
        if is_settled(queue, seat, item) {
            free_on(rt, queue, seat, item);
            count += 1;
        }
    }
    count
}

#[test]
fn two_threads_move_a_thousand_items_each(rt: HostRuntime) -> Result<(), AllocError> {
    let (queue, mut seat) = AppQueue::open(rt.alloc(), 4, 4)?;
    let mut other = queue.split(&mut seat);
    let (mine, theirs) = thread::join(
        &rt,
        || go_round(&rt, &queue, &mut seat),
        || go_round(&rt, &queue, &mut other),
    );
    assert_eq!(rt; (mine, theirs), (1000, 1000));
    Ok(())
}
