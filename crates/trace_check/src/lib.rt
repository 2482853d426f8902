//! Checks a trace of steps: whether each step was enabled in its turn, trusting nothing of the trace's maker.
//!
//! The machine is that of `unit_model`, kept so that a step costs little however long the trace is. Its words here:
//!
//! | Here | In `unit_model` | What is kept |
//! |---|---|---|
//! | machine | core | a frame, and a record of each stream in place of the lists of seats |
//! | frame | core without the lists of its seats | chunks that have an owner, in a map, and lanes |
//! | lane | queue | its lists as rings that give and take at both ends |
//! | items | items of a queue | the items, and how many there are in each hand |
//! | hand | whereabouts and tag | both as numbers |
//! | stream | what the lists of all seats say of a stream | who drew it, and what became of it |
#![tactic(auto)]

mod checker;
mod effects;
mod frame;
mod items;
mod lane;
mod laws;
mod line;
mod machine;
mod number;
mod reading;
mod steps;
mod streams;
mod tally;
mod verdict;

pub use checker::Checker;
pub use laws::{legal_where_steps_run, lines_are_read_back, traces_are_read_back};
pub use verdict::Verdict;

#[cfg(test)]
mod tests;
