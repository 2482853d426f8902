//! What a seat of a queue knows. It exists in proofs alone.
use crate::side::Side;
use nncq_ring::RingEvent;
use std::collections::LinkedList;

/// What a seat did to an item, or was told of it.
pub enum ItemEvent {
    /// The seat got the item from this ring, at this place.
    Taken(Side, u32, u64),
    /// The item's run was this, or became it.
    RunNoted(u32, u64),
    /// The item's part was this, or became it.
    PartNoted(u32, u64),
    /// The item's tag was this.
    TagNoted(u32, u64),
    /// The item's tag became this stream.
    Armed(u32, u64),
    /// The item's tag was taken from this stream to 0.
    Won(u32, u64),
    /// The item's tag was not this stream but this other value.
    Gone(u32, u64, u64),
}

/// The items that the seat holds, its events at both rings and at items, newest first, and the events at items of seats that it
/// has joined. No value of it is made.
pub struct QueueView {
    pub held: LinkedList<u32>,
    pub free: LinkedList<RingEvent>,
    pub line: LinkedList<RingEvent>,
    pub items: LinkedList<ItemEvent>,
    pub joined: LinkedList<ItemEvent>,
}
