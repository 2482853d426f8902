//! The fabric: engines and workers hand requests and replies over by these calls and by no others.
//!
//! What an engine or a worker has begun with a stream is a value of a type of its own, which one call spends. Such a state
//! steps by a seat of its own, so other calls of the same engine or worker leave what it knows.
#![tactic(auto)]

mod drawing;
mod fabric;
mod seats;

pub use drawing::{Draw, Drawn};
pub use fabric::Fabric;
pub use seats::{EngineSeat, WorkerSeat};

#[cfg(test)]
mod tests;
