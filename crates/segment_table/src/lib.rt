//! Chunks with contents: a chunk map whose segments are all open, and a slot for each chunk, which the seat that holds the chunk
//! fills and empties.
//!
//! A seat that claims a run has its slots until it releases the run, so what lies in a chunk is had by that seat alone. The slot
//! of a free chunk is empty.
#![tactic(auto)]

mod claim;
mod closing;
mod contents;
mod laws;
mod map_steps;
mod seat;
mod table;
mod table_steps;

pub use chunk_map::Claim;
pub use closing::ClosedSlots;
pub use laws::{each_chunk_is_in_one_place, free_chunks_are_empty, what_was_filled_is_read};
use request_context::Parcel;
pub use seat::SlotSeat;
pub use table::SlotTable;

/// Segments whose chunks hold parcels of the handlers `H`.
pub type Segments<H> = SlotTable<Parcel<H>>;

/// A seat of such segments.
pub type SegSeat<H> = SlotSeat<Parcel<H>>;

#[cfg(test)]
mod tests;
