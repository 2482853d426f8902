//! What a seat of a ring knows. It exists in proofs alone.
use std::collections::LinkedList;

/// What a step told a seat: a tail, a head, an entry read at a place, a value put at a place, a value taken from a place.
pub enum RingEvent {
    /// The tail was this.
    SawTail(u64),
    /// The head was this.
    SawHead(u64),
    /// At this place the entry was this.
    SawEntry(u64, u64),
    /// At this place this value was put.
    Pushed(u64, u32),
    /// From this place this value was taken.
    Popped(u64, u32),
}

/// The numbers that the seat holds, its events, newest first, and the events of seats that it has joined. No value of it is
/// made.
pub struct RingView {
    pub held: LinkedList<u32>,
    pub log: LinkedList<RingEvent>,
    pub joined: LinkedList<RingEvent>,
}
