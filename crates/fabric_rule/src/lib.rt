//! The joined rule: one table has all words of a fabric and a slot for each chunk, and between any two atomic steps of all its
//! seats one rule holds, in which the machine of `unit_model` stands as a value.
#![tactic(auto)]

mod cause;
mod claiming;
mod drawing;
mod event;
mod lane;
mod laws;
mod look;
mod seats;
mod segmenting;
mod segments;
mod sending;
mod settling;
mod slots;
mod storing;
mod table;
mod turns;
mod view;

pub use cause::{Cause, Refusal};
pub use event::{FabricEvent, Segments};
pub use lane::Lane;
pub use laws::{
    a_bit_is_a_step, a_cancel_is_a_step, a_close_is_a_step, a_draw_is_a_step, a_got_item_is_a_step,
    a_helped_tail_is_no_step, a_load_is_no_step, a_look_at_an_item_is_no_step, a_look_is_no_step,
    a_lost_cancel_is_a_step, a_pop_is_a_step, a_received_part_is_a_step, a_sent_part_is_a_step,
    a_table_begins, a_take_is_a_step, a_written_item_is_a_step, an_arm_is_a_step,
    an_armed_part_is_in_one_place, an_entry_is_a_step, an_opening_is_a_step,
    each_item_is_in_one_place, each_stream_has_one_record, lists_and_works_stay, lists_are_noted,
    rings_have_each_item_once, seats_come_and_go, slots_pass_with_tags, slots_turn_at_no_step,
    the_core_is_that_of_words_and_views, what_is_held_is_shown, what_one_view_says_stays,
};
pub use look::Look;
pub use seats::{Accounts, Halves, Whole};
pub use segments::SegmentMap;
pub use sending::{EntryPut, PartOut};
pub use settling::{PartItem, PostedItem};
pub use table::{FabricRule, FabricSeat, FabricTable, GotItem, HeldRequest, Tells};
pub use view::{ArmNote, FabricView, HeldItem, KeptItem, Ledger, Posting, Work};

#[cfg(test)]
mod tests;
