//! One connection as a machine: what its session writes, by how each of its requests ended.
#![tactic(auto)]

mod answers;
mod calls;
mod ending;
mod laws;
mod machine;
#[cfg(test)]
mod machine_tests;
mod met;
mod pending;
mod queries;
mod receipt;
pub mod records;
mod replying;
mod settling;
#[cfg(test)]
mod tests;

pub use answers::{closes, return_reply};
pub use laws::{
    answers_without_changes, laws_of_asks, laws_of_calls, laws_of_ends, laws_of_one_configuration,
    laws_of_sessions, laws_of_steps, laws_of_turns,
};
pub use machine::Machine;
pub use pending::Pending;
pub use receipt::{Kind, Need, Receipt, Receipts, Why};
