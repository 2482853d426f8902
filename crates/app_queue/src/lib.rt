//! Queues of tagged items. A queue has a free ring and a line, and each of its items a tag, a run and a part.
//!
//! The parts of a rule of queues stand in public modules that name no table (`Queues`, `Parts`, `Arms`), for any number of
//! queues, over views of any type and over words that are named by what they mean. What steps, splits and joins do to each is
//! stated in `FrameLaws`, `ArmLaws` and `SeatLaws`, and is a law here.
#![tactic(auto)]

mod closing;
mod items;
mod lane;
mod laws;
mod layout;
mod opening;
mod plays;
mod queue;
mod ring_steps;
mod rule_laws;
mod seat;
mod seat_laws;
mod side;
mod turns;
mod view;
mod words;

pub use closing::ClosedQueue;
pub use items::Looked;
pub use laws::{
    Getting, Saying, a_rings_step_leaves_the_others, an_arm_is_the_latest,
    an_armed_item_was_not_free, an_item_got_is_fresh, arms_stay_placed, exact_words_stay_known,
    histories_stay, items_stay_owned, rings_stay, tags_are_armed, tags_are_won,
    tags_of_free_items_stay, tags_stay_counted, tags_stay_known, words_stay_noted,
};
pub use layout::Place;
pub use queue::AppQueue;
pub use rule_laws::{
    each_item_is_in_one_place, wins_match_arms, words_are_0_until_noted, words_stand_apart,
};
pub use seat::QueueSeat;
pub use seat_laws::{
    arms_stay_with_seats, counts_stay_with_seats, histories_stay_with_seats, items_stay_with_seats,
    known_tags_stay_with_seats, known_words_stay_with_seats, noted_words_stay_with_seats,
    rings_stay_with_seats,
};
pub use side::Side;
pub use view::{ItemEvent, QueueView};

#[cfg(test)]
mod tests;
