//! Address patterns of a configuration: what a text means as one, and which addresses a list of them matches.
#![tactic(auto)]

mod grammar;
mod pattern;

pub use pattern::{AddrPattern, AddrPatterns};
