//! The control interface with the status of a running program at the path `/status`.
#![tactic(auto)]

mod connection;
mod laws;
#[cfg(test)]
mod tests;
mod text;

pub use connection::control_status;
pub use laws::decided_requests_stay;
