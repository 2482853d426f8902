//! The rule of a queue's table, and what its steps tell.
ghost use Rattle.std.specs.Prelude.{ℕ, ◌≡◌};

use crate::view::QueueView;
use atomic_table::{Join, Play, Split, TableRule};
use std::marker::{Brand, PhantomData};

/// The rule of the table. The table is told the number of its items and its start.
pub struct QueueRule;

impl<S> TableRule<S, QueueView, (u32, u64)> for QueueRule {
    ghost use Rattle.app_queue.specs.Rule.{QueueHolds};
    ghost use Rattle.app_queue.specs.Views.{empty};

    ghost holds = { QueueHolds };

    ghost first = { λ key. empty };
}

/// What a step tells of the number that it found and of what the seat knows after it. A call picks it.
pub trait Telling {
    ghost use Rattle.app_queue.specs.declared.view.QueueView.{QueueView};

    ghost tells: { ℕ → QueueView → Type 0 };
}

impl Telling for Brand {
    ghost tells = { λ found view. Unit {0} };
}

pub struct Told<J> {
    pick: PhantomData<J>,
}

impl<S, J: Telling> Play<S, QueueView> for Told<J> {
    ghost then = { λ st m found m'. (m'.1 ≡ m.1) × J.tells found m'.0 };
}

// A new seat holds nothing.
pub struct Apart;

impl Split<QueueView> for Apart {
    ghost use Rattle.app_queue.specs.Views.{empty};

    ghost left = { λ v. v };

    ghost right = { λ v. empty };
}

pub struct Together;

impl Join<QueueView> for Together {
    ghost use Rattle.app_queue.specs.Views.{empty, together};

    ghost both = { together };

    ghost spent = { empty };
}
