//! The words in which an item carries its run of chunks and its part.
#![tactic(auto)]

mod part;
mod run;

pub use part::{part_of, part_word, part_words_are_inverse};
pub use run::{pack, run_words_are_inverse, unpack};

#[cfg(test)]
mod tests;
