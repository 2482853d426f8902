//! What a seat of a status book knows. It exists in proofs alone.
use std::collections::LinkedList;

/// The sums of what was added to the counts of an engine, by kind.
pub struct EngineSums {
    pub engine: u32,
    pub sums: LinkedList<u64>,
}

/// A word, and the number that was found there.
pub struct Reading {
    pub word: u64,
    pub number: u64,
}

/// The engines whose sums the seat keeps, and the numbers that it found, newest first. No value of it is made.
pub struct StatusView {
    pub engines: LinkedList<EngineSums>,
    pub readings: LinkedList<Reading>,
}
