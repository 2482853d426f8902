//! Turns that are repeated until one isn't lost.
ghost use Rattle.std.specs.Prelude.{◌≡◌, ℕ};
ghost use Rattle.nncq_ring.specs.Turns.{AfterLooks, IsDone, IsEmpty, IsGot, IsWorn, Tells};

use crate::any_ring::RingSteps;
use crate::turns::{PopTurn, PushTurn, pop_turn, push_turn};
use std::sync::Wait;

/// What a push did.
#[derive(Clone, Copy, Debug, PartialEq, Eq, Drop)]
pub enum PushEnd {
    /// It put the value last in the line, at this place.
    Done(u64),
    /// The tail was this place, which is 2^62 or more.
    Worn(u64),
}

/// What a pop did.
#[derive(Clone, Copy, Debug, PartialEq, Eq, Drop)]
pub enum PopEnd {
    /// It took the first of the line, which stood at this place.
    Got { place: u64, value: u32 },
    /// The line was empty. The head that was read last, and the entry that was read there.
    Empty { place: u64, entry: u64 },
}

/// Puts a number that the seat may put last in the line.
pub fn push<T: RingSteps, R: Wait>(ring: &T, rt: &R, seat: &mut T::Seat, v: u32) -> PushEnd
    requires own { T.belongs seat.old ring.now }
    requires may { T.may_put ring.now v (T.knows seat.old) }
    ensures own { T.belongs seat.new ring.now }
    ensures done { (place : ℕ) → result ≡ PushEnd.Done place
        → AfterLooks (T.steps ring.now) (T.knows seat.old)
        (λ u. Tells (T.steps ring.now) u (T.knows seat.new)
        (IsDone (T.slots ring.now) v (T.events ring.now u) place)) }
    ensures worn { (place : ℕ) → result ≡ PushEnd.Worn place
        → AfterLooks (T.steps ring.now) (T.knows seat.old)
        (λ u. Tells (T.steps ring.now) u (T.knows seat.new)
        (IsWorn (T.slots ring.now) (T.events ring.now u) place)) }
{
    for _ in rt.forever() {
        match push_turn(ring, seat, v) {
            PushTurn::Done(place) => return PushEnd::Done(place),
            PushTurn::Worn(place) => return PushEnd::Worn(place),
            PushTurn::Lost { .. } => {}
        }
    }
    unreachable!()
}

/// Takes the first of the line, which the seat may take.
pub fn pop<T: RingSteps, R: Wait>(ring: &T, rt: &R, seat: &mut T::Seat) -> PopEnd
    requires own { T.belongs seat.old ring.now }
    requires may { T.may_take ring.now (T.knows seat.old) }
    ensures own { T.belongs seat.new ring.now }
    ensures got { (place value : ℕ) → result ≡ PopEnd.Got place value
        → AfterLooks (T.steps ring.now) (T.knows seat.old)
        (λ u. Tells (T.steps ring.now) u (T.knows seat.new)
        (IsGot (T.slots ring.now) (T.events ring.now u) place value)) }
    ensures empty { (place entry : ℕ) → result ≡ PopEnd.Empty place entry
        → AfterLooks (T.steps ring.now) (T.knows seat.old)
        (λ u. Tells (T.steps ring.now) u (T.knows seat.new)
        (IsEmpty (T.slots ring.now) (T.events ring.now u) place entry)) }
{
    for _ in rt.forever() {
        match pop_turn(ring, seat) {
            PopTurn::Got { place, value } => return PopEnd::Got { place, value },
            PopTurn::Empty { place, entry } => return PopEnd::Empty { place, entry },
            PopTurn::Lost { .. } => {}
        }
    }
    unreachable!()
}
