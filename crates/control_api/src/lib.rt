//! The control interface: requests that read and change the configuration.
#![tactic(auto)]

mod change;
mod connection;
mod front;
mod keys;
mod laws;
mod method;
mod plan;
mod refusal;
mod reply;
#[cfg(test)]
mod tests;

pub use connection::{continue_of, control, control_at};
pub use front::{Front, front_of};
pub use keys::without_final_slash;
pub use laws::decided_requests_stay;
pub use refusal::Refusal;
pub use reply::{put_refusal, put_reply};
