//! The configurations that a program has accepted, with the documents that say them.
#![tactic(auto)]

mod book;
#[cfg(test)]
mod tests;

pub use book::Book;
