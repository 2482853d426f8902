//! The server: its words.
#![tactic(auto)]

#[cfg(test)]
mod tests;
mod words;

pub use words::{ServeWords, serve_words};
