//! The commands of the program on one thread: words and an input in, an output and a status out.
#![tactic(auto)]

mod check;
mod command;
mod connection;
mod draws;
mod fabric;
mod frame;
mod laws;
mod load;
mod once;
mod script;
mod top;

pub use laws::traces_are_legal;
pub use top::unit_top;
