//! The model of what engines and workers share: the machine of queues, chunks and seats with the laws of its steps, the
//! runs of chunks, the shape of a fabric, and the sums by which it is said who holds what.
//!
//! It hands on the types of `unit_types`.
#![tactic(auto)]

mod conditions;
mod effects;
mod enabled;
mod laws;
mod limits;
mod lines;
mod looks;
mod machine;
mod opening;
mod runs;
mod series;
mod shape;
mod steps;
mod streams;

pub use conditions::{chunk_number, unless};
pub use enabled::first_unmet;
pub use laws::{
    a_core_begins_sound, a_run_stays_sound, a_step_keeps_parts, a_step_keeps_streams,
    a_step_stays_sound, all_is_held_right_at_first, chunks_are_free_at_rest,
    each_point_holds_after_every_run, each_role_has_its_own, each_run_holds_right,
    each_step_holds_right, held_right_is_each_point, lists_are_whole_at_rest, nothing_ends_twice,
    own_lists_show_the_rest, parts_are_received_in_order, parts_stay_in_order, sound_is_each_point,
    the_account_is_whole, the_counts_are_the_points, the_counts_hold_at_first,
};
pub use limits::{
    CHUNK_BYTES, LAST_START, MOST_ITEMS, MOST_SEATS, MOST_SEGMENTS, PAST_ITEMS, PLACE_LIMIT,
    SEGMENT_CHUNKS, STREAM_LIMIT,
};
pub use lines::step_line;
pub use looks::Looks;
pub use machine::{
    BLANK, Core, Entry, Item, Note, Owner, Part, Queue, RunFault, Seat, Sides, Step, StepFault,
    Unmet, Whereabouts,
};
pub use runs::{Run, Seen, no_longer_run, run_has_its_chunks};
pub use series::Series;
pub use shape::{Role, Shape};
pub use steps::{run_core, step_core};
pub use unit_types::{Addr, Bytes, Field, Fields, Handlers, Reply, Request};

#[cfg(test)]
mod condition_tests;
#[cfg(test)]
mod tests;
