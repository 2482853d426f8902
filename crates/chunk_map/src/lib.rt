//! A map of free chunks in words that several threads change by single atomic steps: a bit that is set is a free chunk, and
//! who clears it has the chunk. A segment has 640 chunks; segments are opened on demand, the lowest ones first.
//!
//! `ChunkMap` has a table of its own. The search for a run is written once, over the single steps of a map (`MapSteps`), and the
//! laws stand in public modules that name no table (`Words`, `Parts`), so that a table
//! with more words in it can be ruled by the same parts.
#![tactic(auto)]

mod any_map;
mod claim;
mod closing;
mod laws;
mod map;
mod map_steps;
mod run_bits;
mod search;
mod seat;
mod view;

pub use any_map::MapSteps;
pub use claim::Opened;
pub use closing::ClosedMap;
pub use laws::{
    closed_segments_are_free, each_chunk_is_in_one_place, each_segment_is_opened_once,
    free_weight_falls, free_weight_rises, free_weight_stays, open_part_steps,
};
pub use map::ChunkMap;
pub use run_bits::{first_from, run_starts};
pub use search::{Claim, claim_among, claim_run, give_back};
pub use seat::MapSeat;
pub use view::{MapEvent, MapView};

#[cfg(test)]
mod tests;
