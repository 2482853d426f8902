//! The words of a fabric: what each means, where it stands, and which step of the machine of `unit_model` each change of a
//! word is. The laws speak of no table and of no thread, so that they hold for one thread as for many.
#![tactic(auto)]

mod laws;
mod layout;
mod opening;
mod place;
mod steps;

pub use laws::{
    a_claim_is_a_step, a_draw_is_a_step, a_get_is_a_step, a_give_is_a_step,
    a_helped_tail_is_no_step, a_look_is_no_step, a_part_is_a_step, a_pop_is_a_step,
    a_push_is_a_step, a_release_is_a_step, a_run_is_a_step, a_settle_is_a_step,
    an_abandon_is_a_step, an_arm_is_a_step, an_opening_is_a_step,
    opened_words_show_the_opened_core, own_words_show_the_rest, rings_are_left, runs_change_hands,
    words_and_holdings_are_the_core, words_stand_apart,
};
pub use layout::Layout;
pub use place::{Place, Side};

#[cfg(test)]
mod tests;
