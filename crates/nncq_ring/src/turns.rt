//! One attempt to push or to pop, at any ring that has the steps of one. A turn takes no memory and doesn't wait.
ghost use Rattle.std.specs.Prelude.{◌≡◌, ◌≤◌, ◌<◌, ◌+◌, ◌^◌, ◌/◌, ◌%◌, ◌↔◌, ℕ};
ghost use Rattle.nncq_ring.specs.Turns.{IsDone, IsEmpty, IsGot, IsPopLost, IsPushLost, IsWorn, Tells};

use crate::any_ring::RingSteps;

// From this place on nothing is pushed, so that places never wrap.
const WORN: u64 = 4611686018427387904;

/// What a push turn did.
#[derive(Clone, Copy, Debug, PartialEq, Eq, Drop)]
pub enum PushTurn {
    /// It put the value last in the line, at this place.
    Done(u64),
    /// It found a changed word, and put nothing. The tail that it read, and the entry that it read there.
    Lost { tail: u64, entry: u64 },
    /// The tail was this place, which is 2^62 or more.
    Worn(u64),
}

/// What a pop turn did.
#[derive(Clone, Copy, Debug, PartialEq, Eq, Drop)]
pub enum PopTurn {
    /// It took the first of the line, which stood at this place.
    Got { place: u64, value: u32 },
    /// The line was empty. The head that it read, and the entry that it read there.
    Empty { place: u64, entry: u64 },
    /// It found a changed word, and took nothing. The head that it read, and the entry that it read there.
    Lost { head: u64, entry: u64 },
}

// The entry at a place's slot, by its cycle.
#[derive(Clone, Copy, PartialEq, Eq, Drop)]
enum SlotState {
    // It has the place's cycle.
    Filled,
    // It has the cycle before.
    Vacant,
    // It has another cycle.
    Elsewhere,
}

fn slot_state(size: u64, place: u64, entry: u64) -> SlotState
    requires { 1 ≤ size }
    ensures filled { (result ≡ SlotState.Filled) ↔ (entry / size ≡ place / size) }
    ensures vacant { (result ≡ SlotState.Vacant) ↔ (entry / size + 1 ≡ place / size) }
{
    let cycle = place / size;
    let found = entry / size;
    if found == cycle {
        SlotState::Filled
    } else if found < cycle && cycle - found == 1 {
        SlotState::Vacant
    } else {
        SlotState::Elsewhere
    }
}

/// Tries once to put a number that the seat may put last in the line.
pub fn push_turn<T: RingSteps>(ring: &T, seat: &mut T::Seat, v: u32) -> PushTurn
    requires own { T.belongs seat.old ring.now }
    requires may { T.may_put ring.now v (T.knows seat.old) }
    ensures own { T.belongs seat.new ring.now }
    ensures done { (place : ℕ) → result ≡ PushTurn.Done place
        → Tells (T.steps ring.now) (T.knows seat.old) (T.knows seat.new)
        (IsDone (T.slots ring.now) v (T.events ring.now (T.knows seat.old)) place) }
    ensures lost { (tail entry : ℕ) → result ≡ PushTurn.Lost tail entry
        → Tells (T.steps ring.now) (T.knows seat.old) (T.knows seat.new)
        (IsPushLost (T.slots ring.now) (T.events ring.now (T.knows seat.old)) tail entry) }
    ensures worn { (place : ℕ) → result ≡ PushTurn.Worn place
        → Tells (T.steps ring.now) (T.knows seat.old) (T.knows seat.new)
        (IsWorn (T.slots ring.now) (T.events ring.now (T.knows seat.old)) place) }
{
    let size = ring.slot_count() as u64;
    let tail = ring.see_tail(seat);
    if tail >= WORN {
        return PushTurn::Worn(tail);
    }
    let entry = ring.see_entry(seat, tail);
    match slot_state(size, tail, entry) {
        SlotState::Vacant if ring.put(seat, tail, entry, v) == entry => {
            ring.move_tail(seat, tail);
            PushTurn::Done(tail)
        }
        SlotState::Filled => {
            ring.move_tail(seat, tail);
            PushTurn::Lost { tail, entry }
        }
        _ => PushTurn::Lost { tail, entry },
    }
}

/// Tries once to take the first of the line, which the seat may take.
pub fn pop_turn<T: RingSteps>(ring: &T, seat: &mut T::Seat) -> PopTurn
    requires own { T.belongs seat.old ring.now }
    requires may { T.may_take ring.now (T.knows seat.old) }
    ensures own { T.belongs seat.new ring.now }
    ensures got { (place value : ℕ) → result ≡ PopTurn.Got place value
        → Tells (T.steps ring.now) (T.knows seat.old) (T.knows seat.new)
        (IsGot (T.slots ring.now) (T.events ring.now (T.knows seat.old)) place value) }
    ensures empty { (place entry : ℕ) → result ≡ PopTurn.Empty place entry
        → Tells (T.steps ring.now) (T.knows seat.old) (T.knows seat.new)
        (IsEmpty (T.slots ring.now) (T.events ring.now (T.knows seat.old)) place entry) }
    ensures lost { (head entry : ℕ) → result ≡ PopTurn.Lost head entry
        → Tells (T.steps ring.now) (T.knows seat.old) (T.knows seat.new)
        (IsPopLost (T.slots ring.now) (T.events ring.now (T.knows seat.old)) head entry) }
{
    let size = ring.slot_count() as u64;
    let head = ring.see_head(seat);
    let entry = ring.see_entry(seat, head);
    match slot_state(size, head, entry) {
        SlotState::Filled if ring.take(seat, head, entry) == head => PopTurn::Got {
            place: head,
            value: (entry % size) as u32,
        },
        SlotState::Vacant => PopTurn::Empty { place: head, entry },
        _ => PopTurn::Lost { head, entry },
    }
}
