//! What a seat knows. It exists in proofs alone.
//!
//! Several seats have one number: a main seat, which has the lists of its number, and a seat for each state of work that the main
//! seat has begun. A view says of its own number and streams what stands in the machine.
use crate::cause::Refusal;
use crate::event::FabricEvent;
use app_queue::Side;
use std::collections::LinkedList;
use unit_model::{Seat as SeatLists, Shape};

/// An item that a seat holds, with the ring and the place where it was got or popped.
pub struct HeldItem {
    pub queue: u32,
    pub side: Side,
    pub item: u32,
    pub place: u64,
}

/// An item without a tag that a seat of this number keeps for good, since the free ring that it should go to is worn.
pub struct KeptItem {
    pub seat: u32,
    pub queue: u32,
    pub item: u32,
}

/// An arm: the item, the place where it was got from the free ring, the stream, and its run word and part word.
pub struct ArmNote {
    pub queue: u32,
    pub item: u32,
    pub place: u64,
    pub stream: u64,
    pub run: u64,
    pub part: u64,
}

/// The record under which a stream was posted.
pub struct Posting {
    pub stream: u64,
    pub bytes: LinkedList<u8>,
}

/// What a seat has in hand, of which one of its calls is still to come, with what it knows of it.
pub enum Work {
    /// A stream that it drew and hasn't posted.
    Drawn(u64),
    /// A stream that it posted with this item, and neither cancelled nor abandoned.
    Posted {
        stream: u64,
        item: u32,
    },
    /// A stream that it took, of the engine that posted it. It sent so many parts of the reply, and no last one.
    Taken {
        stream: u64,
        poster: u32,
        parts: u64,
    },
    /// A stream that it took, with so many parts sent. The newest of them is armed with this item of its poster's queue and not
    /// pushed; it is the last one where `last` says so.
    Sending {
        stream: u64,
        poster: u32,
        parts: u64,
        last: bool,
        item: u32,
    },
    /// Chunks or an item, of no stream.
    Holding,
}

/// What a seat of this number did, in the machine's eight lists; what it was refused, newest first; the number of its open works;
/// and the item that it popped and has neither settled nor handed on, of the queue that it empties.
pub struct Ledger {
    pub seat: u32,
    pub lists: SeatLists,
    pub refusals: LinkedList<Refusal>,
    pub opened_works: u64,
    pub popped: LinkedList<u32>,
}

/// What a seat knows. No value of it is made.
///
/// The shape is that of the fabric. `ledgers` has one entry at a main seat, none at a state's, and several where main seats were
/// joined. Chunks are numbered over all segments. The log has the newest event first.
pub struct FabricView {
    pub shape: Shape,
    pub seat: u32,
    pub ledgers: LinkedList<Ledger>,
    pub works: LinkedList<Work>,
    pub chunks: LinkedList<u32>,
    pub items: LinkedList<HeldItem>,
    pub kept: LinkedList<KeptItem>,
    pub arms: LinkedList<ArmNote>,
    pub records: LinkedList<Posting>,
    pub log: LinkedList<FabricEvent>,
}
