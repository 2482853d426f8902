//! The words of a fabric by what they mean. Where they stand is the concern of a layout.

/// The two rings of a queue.
#[derive(Clone, Copy, Debug, Drop)]
pub enum Side {
    /// The ring of the items that are free.
    FreeSide,
    /// The ring of the items in line.
    LineSide,
}

/// One word of a fabric.
#[derive(Clone, Copy, Debug, Drop)]
pub enum Place {
    /// The next stream.
    NextStream,
    /// How many segments of the engines' side are open.
    OpenedOut,
    /// How many segments of the workers' side are open.
    OpenedBack,
    /// The head of a ring.
    Head { queue: u32, side: Side },
    /// The tail of a ring.
    Tail { queue: u32, side: Side },
    /// The entry at a slot of a ring.
    Slot { queue: u32, side: Side, slot: u32 },
    /// The tag of an item: the stream of its message, or 0.
    Tag { queue: u32, item: u32 },
    /// The run of an item, in one word.
    RunWord { queue: u32, item: u32 },
    /// The part of an item: its number, and whether it is the last.
    PartWord { queue: u32, item: u32 },
    /// A word of the map of free chunks, of which a segment has ten.
    Chunks { number: u32 },
}
