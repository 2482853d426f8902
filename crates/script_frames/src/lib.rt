//! The frames of a script, which says what comes on control connections and on connections of clients.
//!
//! A frame is a line, `C LENGTH`, `H LISTENER LENGTH` or `G LISTENER LENGTH` with LF, and as many bytes behind it.
#![tactic(auto)]

mod frame;
mod head;
mod laws;

pub use frame::{Frame, Frames, broken_at, frames_in};
pub use laws::frames_are_read_back;

#[cfg(test)]
mod tests;
