ghost use Rattle.std.specs.Prelude.{◌≡◌, ◌≢◌, ◌≤◌, ◌<◌, ◌+◌, ℕ, [], ◌∷◌};
ghost use Rattle.unit_model.specs.Sharing.{Holds};
ghost use Rattle.nncq_ring.specs.Seats.{BelongsTo, knows};
ghost use Rattle.nncq_ring.specs.Views.{held_by};

use super::*;
use std::alloc::{AllocError, Global};
use std::sync::Wait;
use std::test::*;
use std::thread;

// 2^62 - 1
const LAST: u64 = 4611686018427387903;

#[test]
fn the_last_place_is_used_and_none_after_it(rt: HostRuntime) -> Result<(), AllocError> {
    let (ring, mut seat) = Ring::open(rt.alloc(), 1, LAST)?;
    assert_eq!(rt; ring.push_turn(&mut seat, 0), PushTurn::Done(LAST));
    let PopTurn::Got { place, value } = ring.pop_turn(&mut seat) else {
        panic!(rt; "nothing was taken")
    };
    assert_eq!(rt; (place, value), (LAST, 0));
    assert_eq!(rt; ring.push_turn(&mut seat, value), PushTurn::Worn(LAST + 1));
    Ok(())
}

#[test]
fn a_ring_just_opened_is_empty(rt: HostRuntime) -> Result<(), AllocError> {
    let (ring, mut seat) = Ring::open(rt.alloc(), 4, 4)?;
    assert_eq!(rt;
        ring.pop_turn(&mut seat),
        PopTurn::Empty { place: 4, entry: 0 }
    );
    assert_eq!(rt;
        ring.pop(&rt, &mut seat),
        PopEnd::Empty { place: 4, entry: 0 }
    );
    Ok(())
}

#[test]
fn the_second_value_stands_at_the_second_place(rt: HostRuntime) -> Result<(), AllocError> {
    let (ring, mut seat) = Ring::open(rt.alloc(), 4, 4)?;
    let PushTurn::Done(first) = ring.push_turn(&mut seat, 1) else {
        panic!(rt; "nothing was put")
    };
    assert_eq!(rt; first, 4);
    assert_eq!(rt; ring.push_turn(&mut seat, 2), PushTurn::Done(5));
    let table = &ring.table;
    assert_eq!(rt; table.shared.peek(opening::ENTRIES + 1), 6);
    assert_eq!(rt;
        ring.pop_turn(&mut seat),
        PopTurn::Got { place: 4, value: 1 }
    );
    assert_eq!(rt;
        ring.pop_turn(&mut seat),
        PopTurn::Got { place: 5, value: 2 }
    );
    let closed = ring.close(seat);
    assert_eq!(rt; (closed.head(), closed.tail(), closed.entry(1)), (6, 6, 6));
    Ok(())
}

#[test]
fn a_ring_of_four_starts_full(rt: HostRuntime) {
    let entries = [
        full_entry(4, 6, 2),
        full_entry(4, 6, 3),
        full_entry(4, 6, 0),
        full_entry(4, 6, 1),
    ];
    assert_eq!(rt; entries, [4, 5, 10, 11]);
}

#[test]
fn a_number_that_was_passed_is_pushed_by_the_other_seat(rt: HostRuntime) -> Result<(), AllocError> {
    let (ring, mut seat) = Ring::open(rt.alloc(), 4, 4)?;
    let mut other = ring.split(&mut seat);
    ring.pass(&mut seat, &mut other, 3);
    let PushEnd::Done(place) = ring.push(&rt, &mut other, 3) else {
        panic!(rt; "the tail is worn")
    };
    assert_eq!(rt; place, 4);
    ring.join(&mut seat, other);
    assert_eq!(rt;
        ring.pop(&rt, &mut seat),
        PopEnd::Got { place: 4, value: 3 }
    );
    Ok(())
}

// Passes the numbers from one up to another, not including it.
fn pass_all(ring: &Ring, seat: &mut RingSeat, other: &mut RingSeat, from: u32, to: u32)
    requires own { BelongsTo seat.old ring.now × BelongsTo other.old ring.now }
    requires order { from ≤ to }
    requires held { (i : ℕ) → i < to → Holds held_by i (knows seat.old) }
    ensures own { BelongsTo seat.new ring.now × BelongsTo other.new ring.now }
    ensures kept { (i : ℕ) → i < from → Holds held_by i (knows seat.new) }
    ensures come { (i : ℕ) → from ≤ i → i < to → Holds held_by i (knows other.new) }
{
    for v in from..to {
        ring.pass(seat, other, v);
    }
}

fn pushes<R: Wait>(rt: &R, ring: &Ring, seat: &mut RingSeat, v: u32) -> bool
    requires own { BelongsTo seat.old ring.now }
    requires held { Holds held_by v (knows seat.old) }
    ensures own { BelongsTo seat.new ring.now }
    ensures others { (i : ℕ) → i ≢ v → Holds held_by i (knows seat.old)
        → Holds held_by i (knows seat.new) }
{
    match ring.push(rt, seat, v) {
        PushEnd::Done(_) => true,
        PushEnd::Worn(_) => false,
    }
}

fn pops<R: Wait>(rt: &R, ring: &Ring, seat: &mut RingSeat) -> Option<u32>
    requires own { BelongsTo seat.old ring.now }
    ensures own { BelongsTo seat.new ring.now }
    ensures others { (i : ℕ) → Holds held_by i (knows seat.old) → Holds held_by i (knows seat.new) }
{
    match ring.pop(rt, seat) {
        PopEnd::Got { value, .. } => Some(value),
        PopEnd::Empty { .. } => None,
    }
}

// Pushes each number, and pops after each. The result is what was popped.
fn push_and_pop<R: Wait>(
    rt: &R,
    alloc: Global,
    ring: &Ring,
    seat: &mut RingSeat,
    from: u32,
    to: u32,
) -> Result<Vec<u32>, AllocError>
    requires own { BelongsTo seat.old ring.now }
    requires held { (i : ℕ) → from ≤ i → i < to → Holds held_by i (knows seat.old) }
{
    let mut met = Vec::new(alloc);
    for v in from..to {
        if pushes(rt, ring, seat, v) {
            met.extend(pops(rt, ring, seat))?;
        }
    }
    Ok(met)
}

#[test]
fn two_threads_meet_each_number_once(rt: HostRuntime) -> Result<(), AllocError> {
    let alloc = rt.alloc();
    let (ring, mut seat) = Ring::open(alloc, 2000, 2000)?;
    let mut other = ring.split(&mut seat);
    pass_all(&ring, &mut seat, &mut other, 1000, 2000);
    let (mine, theirs) = thread::join(
        &rt,
        || push_and_pop(&rt, alloc, &ring, &mut seat, 0, 1000),
        || push_and_pop(&rt, alloc, &ring, &mut other, 1000, 2000),
    );
    let mut met = mine?;
    met.extend_from_slice(theirs?.as_slice())?;
    met.sort()?;
    assert_eq!(rt; met.len(), 2000);
    for (place, value) in met.iter().enumerate() {
        assert_eq!(rt; place, *value as usize);
    }
    Ok(())
}
