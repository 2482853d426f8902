//! What a seat of a chunk map knows. It exists in proofs alone.
use std::collections::LinkedList;

/// What a step told a seat.
pub enum MapEvent {
    /// So many segments were open.
    SawOpen(u64),
    /// This word of the map was this.
    SawWord(u32, u64),
    /// The chunk was free, and is the seat's now.
    Gained(u32),
    /// The chunk wasn't free.
    Missed(u32),
    /// The chunk was given back.
    Released(u32),
    /// The seat's exchange made the number of open segments this one.
    OpenedTo(u64),
    /// The seat's exchange found that so many segments were open.
    FoundOpen(u64),
}

/// How many segments the map has, the chunks that the seat holds, what it did, newest first, and what was done by seats that it
/// has joined. No value of it is made.
pub struct MapView {
    pub segments: u32,
    pub held: LinkedList<u32>,
    pub log: LinkedList<MapEvent>,
    pub joined: LinkedList<MapEvent>,
}
