//! Pushes and pops at a ring with a table of its own.
ghost use Rattle.std.specs.Prelude.{◌≡◌, ℕ};

use crate::ring::Ring;
use crate::seat::RingSeat;
use crate::turns::{PopTurn, PushTurn, pop_turn, push_turn};
use crate::waiting::{PopEnd, PushEnd, pop, push};
use std::sync::Wait;

impl Ring {
    ghost use Rattle.unit_model.specs.Sharing.{Holds};
    ghost use Rattle.nncq_ring.specs.Seats.{BelongsTo, knows};
    ghost use Rattle.nncq_ring.specs.Turns.{AfterLooks, IsDone, IsEmpty, IsGot, IsPopLost, IsPushLost, IsWorn, Tells};
    ghost use Rattle.nncq_ring.specs.Views.{events_of, held_by, makes};

    /// Tries once to put a number that the seat holds last in the line.
    pub fn push_turn(&self, seat: &mut RingSeat, v: u32) -> PushTurn
        requires own { BelongsTo seat.old self.now }
        requires held { Holds held_by v (knows seat.old) }
        ensures own { BelongsTo seat.new self.now }
        ensures done { (place : ℕ) → result ≡ PushTurn.Done place
            → Tells makes (knows seat.old) (knows seat.new)
            (IsDone self.now.size v (events_of (knows seat.old)) place) }
        ensures lost { (tail entry : ℕ) → result ≡ PushTurn.Lost tail entry
            → Tells makes (knows seat.old) (knows seat.new)
            (IsPushLost self.now.size (events_of (knows seat.old)) tail entry) }
        ensures worn { (place : ℕ) → result ≡ PushTurn.Worn place
            → Tells makes (knows seat.old) (knows seat.new)
            (IsWorn self.now.size (events_of (knows seat.old)) place) }
    {
        push_turn(self, seat, v)
    }

    /// Tries once to take the first of the line.
    pub fn pop_turn(&self, seat: &mut RingSeat) -> PopTurn
        requires own { BelongsTo seat.old self.now }
        ensures own { BelongsTo seat.new self.now }
        ensures got { (place value : ℕ) → result ≡ PopTurn.Got place value
            → Tells makes (knows seat.old) (knows seat.new)
            (IsGot self.now.size (events_of (knows seat.old)) place value) }
        ensures empty { (place entry : ℕ) → result ≡ PopTurn.Empty place entry
            → Tells makes (knows seat.old) (knows seat.new)
            (IsEmpty self.now.size (events_of (knows seat.old)) place entry) }
        ensures lost { (head entry : ℕ) → result ≡ PopTurn.Lost head entry
            → Tells makes (knows seat.old) (knows seat.new)
            (IsPopLost self.now.size (events_of (knows seat.old)) head entry) }
    {
        pop_turn(self, seat)
    }

    /// Puts a number that the seat holds last in the line.
    pub fn push<R: Wait>(&self, rt: &R, seat: &mut RingSeat, v: u32) -> PushEnd
        requires own { BelongsTo seat.old self.now }
        requires held { Holds held_by v (knows seat.old) }
        ensures own { BelongsTo seat.new self.now }
        ensures done { (place : ℕ) → result ≡ PushEnd.Done place → AfterLooks makes (knows seat.old)
            (λ u. Tells makes u (knows seat.new) (IsDone self.now.size v (events_of u) place)) }
        ensures worn { (place : ℕ) → result ≡ PushEnd.Worn place → AfterLooks makes (knows seat.old)
            (λ u. Tells makes u (knows seat.new) (IsWorn self.now.size (events_of u) place)) }
    {
        push(self, rt, seat, v)
    }

    /// Takes the first of the line.
    pub fn pop<R: Wait>(&self, rt: &R, seat: &mut RingSeat) -> PopEnd
        requires own { BelongsTo seat.old self.now }
        ensures own { BelongsTo seat.new self.now }
        ensures got { (place value : ℕ) → result ≡ PopEnd.Got place value
            → AfterLooks makes (knows seat.old)
            (λ u. Tells makes u (knows seat.new)
            (IsGot self.now.size (events_of u) place value)) }
        ensures empty { (place entry : ℕ) → result ≡ PopEnd.Empty place entry
            → AfterLooks makes (knows seat.old)
            (λ u. Tells makes u (knows seat.new)
            (IsEmpty self.now.size (events_of u) place entry)) }
    {
        pop(self, rt, seat)
    }
}
