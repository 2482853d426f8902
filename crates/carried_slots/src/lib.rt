//! Slots of a table that a seat carries, and the acts by which they come and go.
//!
//! A seat of an `atomic_table` carries slots as a list, and a step takes or gives the slot in front. The acts here are made of
//! such takes and gives: a seat's slots become any of them in any order, and slots that are at home are taken together. Contracts
//! look a slot up by its number. A run's slots go home, or come from home, by one act. Of the free chunks of a map the slots are at
//! home and empty. The laws name no table, so that a table with other words and another rule has the same acts.
#![tactic(auto)]

mod laws;

pub use laws::{
    RightValues, a_carried_slot_has_a_value, a_chunk_comes_with_its_slot,
    a_chunk_goes_with_its_slot, a_run_goes_home, a_run_is_gathered, a_run_is_taken,
    a_run_is_without, a_slot_comes_to_the_front, a_slot_is_known, a_slot_is_without,
    an_empty_slot_goes, another_run_stays, free_slots_stay, runs_lie_apart, slots_are_taken,
    slots_become_others, slots_have_one_list_of_values, what_is_gathered_is_right,
};
