//! A circular queue of numbers whose entries carry a cycle number: the naive queue NCQ of Ruslan Nikolaev, "A Scalable,
//! Portable, and Memory-Efficient Lock-Free FIFO Queue" (DISC 2019).
//!
//! `Ring` has a table of its own. Turns are written once, over the single steps of a ring (`RingSteps`), and the laws on its
//! words stand in public modules that name no table (`laws`), so that a ring in a table with more words has the same turns and
//! is ruled by the same parts.
#![tactic(auto)]

mod any_ring;
mod closing;
mod laws;
mod opening;
mod plays;
mod ring;
mod ring_steps;
mod ring_turns;
mod rule_laws;
mod seat;
mod table_steps;
mod turns;
mod view;
mod waiting;

pub use any_ring::RingSteps;
pub use closing::ClosedRing;
pub use laws::{
    a_look_is_noted, a_ring_starts_empty, a_ring_starts_full, empty_is_seen, full_is_seen,
    head_may_be_taken, notes_stay_true, parts_step, same_words_stay, tail_may_be_helped,
    there_is_room, won_entry_exchange, won_head_exchange, won_tail_exchange,
};
pub use opening::{first_entry, full_entry};
pub use ring::Ring;
pub use rule_laws::{
    a_ring_is_fresh_until_a_push, each_number_is_in_one_place, places_are_used_in_order,
    what_was_put_is_taken_or_stands,
};
pub use seat::RingSeat;
pub use turns::{PopTurn, PushTurn, pop_turn, push_turn};
pub use view::{RingEvent, RingView};
pub use waiting::{PopEnd, PushEnd, pop, push};

#[cfg(test)]
mod tests;
