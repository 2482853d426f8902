//! What readers in other threads see of the configurations that a program has accepted.
#![tactic(auto)]

mod edition;
mod history;
mod reader;
mod rule;
mod shared;
#[cfg(test)]
mod tests;

pub use history::{Naming, Opened};
pub use reader::ConfReader;
pub use shared::{Published, Shared};
