//! The rule of a ring's table, and what its steps tell.
ghost use Rattle.std.specs.Prelude.{ℕ};

use crate::view::RingView;
use atomic_table::{Join, Play, Split, TableRule};
use std::marker::{Brand, PhantomData};

/// The rule of the table. The table is told the ring's size and its start.
pub struct RingRule;

impl<S> TableRule<S, RingView, (u32, u64)> for RingRule {
    ghost use Rattle.nncq_ring.specs.Rule.{RingHolds};
    ghost use Rattle.nncq_ring.specs.Views.{whole};

    ghost holds = { RingHolds };

    ghost first = { λ key. whole key.0 };
}

/// The ring's size, and the place and the value that a step is about, where neither its word nor its operands say them. A call
/// picks them.
pub trait Aim {
    ghost size: { ℕ };

    ghost place: { ℕ };

    ghost value: { ℕ };
}

impl Aim for Brand {
    ghost size = { 0 };

    ghost place = { 0 };

    ghost value = { 0 };
}

pub struct SeeingTail<J> {
    aim: PhantomData<J>,
}

impl<S, J: Aim> Play<S, RingView> for SeeingTail<J> {
    ghost use Rattle.nncq_ring.specs.Rule.{SeesTail};

    ghost then = { SeesTail J.size };
}

pub struct SeeingHead<J> {
    aim: PhantomData<J>,
}

impl<S, J: Aim> Play<S, RingView> for SeeingHead<J> {
    ghost use Rattle.nncq_ring.specs.Rule.{SeesHead};

    ghost then = { SeesHead J.size };
}

pub struct SeeingEntry<J> {
    aim: PhantomData<J>,
}

impl<S, J: Aim> Play<S, RingView> for SeeingEntry<J> {
    ghost use Rattle.nncq_ring.specs.Rule.{SeesEntry};

    ghost then = { SeesEntry J.size J.place };
}

pub struct Putting<J> {
    aim: PhantomData<J>,
}

impl<S, J: Aim> Play<S, RingView> for Putting<J> {
    ghost use Rattle.nncq_ring.specs.Rule.{Puts};

    ghost then = { Puts J.size J.place J.value };
}

pub struct Taking<J> {
    aim: PhantomData<J>,
}

impl<S, J: Aim> Play<S, RingView> for Taking<J> {
    ghost use Rattle.nncq_ring.specs.Rule.{Takes};

    ghost then = { Takes J.size J.value };
}

pub struct Helping;

impl<S> Play<S, RingView> for Helping {
    ghost use Rattle.nncq_ring.specs.Rule.{Helps};

    ghost then = { Helps };
}

// A new seat holds nothing.
pub struct Apart;

impl Split<RingView> for Apart {
    ghost use Rattle.nncq_ring.specs.Views.{empty};

    ghost left = { λ v. v };

    ghost right = { λ v. empty };
}

// A new seat holds one number that the seat held.
pub struct Handing<J> {
    aim: PhantomData<J>,
}

impl<J: Aim> Split<RingView> for Handing<J> {
    ghost use Rattle.nncq_ring.specs.Views.{just, without};

    ghost left = { λ v. without J.value v };

    ghost right = { λ v. just J.value };
}

pub struct Together;

impl Join<RingView> for Together {
    ghost use Rattle.nncq_ring.specs.Views.{empty, together};

    ghost both = { together };

    ghost spent = { empty };
}
