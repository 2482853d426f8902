//! What a seat of tags knows. It exists in proofs alone.
use std::collections::LinkedList;

/// What a seat did to a tag: item, stream, and the tag that was found in place of the stream.
pub enum TagEvent {
    Armed(u32, u64),
    Won(u32, u64),
    Gone(u32, u64, u64),
}

/// The items that the seat holds, what it did, newest first, and what was done by seats that it has joined. No value of it is
/// made.
pub struct TagView {
    pub held: LinkedList<u32>,
    pub log: LinkedList<TagEvent>,
    pub joined: LinkedList<TagEvent>,
}
