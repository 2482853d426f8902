//! Counts of connections and of how their requests ended, to which engines add while another thread looks.
//!
//! Each engine has eight counts: connections, and requests by how they ended. Only its seat adds to them, by one fetch-add,
//! so numbers that are looked at never fall, and at the end each is the sum of what was added.
#![tactic(auto)]

mod book;
mod closing;
mod looks;
mod opening;
mod seat;
mod view;

pub use book::StatusBook;
pub use looks::Looks;
pub use seat::{CountSeat, LookSeat};
pub use view::{EngineSums, Reading, StatusView};

#[cfg(test)]
mod tests;
