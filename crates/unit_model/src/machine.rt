//! The core: queues, chunks and seats as one value, and the steps that change it.
ghost use Rattle.std.specs.Prelude.{◌≡◌};
ghost use Rattle.unit_model.specs.Core.{owner_code, whereabouts_code};

use crate::limits::PAST_ITEMS;
use crate::runs::Run;
use crate::series::Series;
use crate::shape::Shape;

/// Who has a chunk.
#[derive(Clone, Copy, Debug, Drop)]
pub enum Owner {
    /// No one.
    Free,
    /// The seat of this number.
    Seat(u32),
    /// The message that this item of this queue carries.
    Message(u32, u32),
}

impl Owner {
    /// The owner as a number.
    pub fn code(self) -> u64
        ensures { result ≡ owner_code self }
    {
        match self {
            Owner::Free => 0,
            Owner::Seat(seat) => 1 + seat as u64,
            Owner::Message(queue, item) => 65536 * (1 + queue as u64) + item as u64,
        }
    }
}

/// Where an item of a queue is.
#[derive(Clone, Copy, Debug, Drop)]
pub enum Whereabouts {
    /// In the queue's free list.
    InFreeList,
    /// In the queue's line.
    InLine,
    /// With the seat of this number.
    WithSeat(u32),
}

impl Whereabouts {
    /// Where the item is, as a number.
    pub fn code(self) -> u64
        ensures { result ≡ whereabouts_code self }
    {
        match self {
            Whereabouts::InFreeList => 0,
            Whereabouts::InLine => PAST_ITEMS,
            Whereabouts::WithSeat(seat) => 1 + seat as u64,
        }
    }
}

/// An item of a queue: the words that it carries, and where it is.
#[derive(Clone, Copy, Debug, Drop)]
pub struct Item {
    /// The stream of the message under way, or 0.
    pub tag: u64,
    /// The stream of the last message.
    pub stream: u64,
    /// The chunks of the message.
    pub run: Run,
    /// The message's part word.
    pub part: u64,
    /// Where the item is.
    pub whereabouts: Whereabouts,
}

/// An item that was never used.
pub const BLANK: Item = Item {
    tag: 0,
    stream: 0,
    run: Run {
        segment: 0,
        chunk: 0,
        size: 0,
    },
    part: 0,
    whereabouts: Whereabouts::InFreeList,
};

/// An item's place in a list of its queue.
#[derive(Clone, Copy, Debug, Drop)]
pub struct Entry {
    /// The place, counted over the whole life of the list.
    pub place: u64,
    /// The item's number.
    pub item: u32,
}

/// A queue: its items, the list of those that are free, and its line.
#[derive(Debug, Drop)]
pub struct Queue {
    /// The free items, the first to be taken first.
    pub free: Series<Entry>,
    /// The place behind the free list.
    pub next_free: u64,
    /// The items in line, the first to be taken first.
    pub line: Series<Entry>,
    /// The place behind the line.
    pub next_line: u64,
    /// The items by their numbers.
    pub items: Series<Item>,
}

/// A part of the reply to a stream.
#[derive(Clone, Copy, Debug, Drop)]
pub struct Part {
    /// The stream.
    pub stream: u64,
    /// The part's number, from 0.
    pub number: u64,
    /// Whether it is the stream's last part.
    pub last: bool,
}

/// What a seat has done, oldest first. From the opened core on, only an engine's steps add to an engine's lists, and only
/// a worker's to a worker's.
#[derive(Debug, Drop)]
pub struct Seat {
    /// Streams that the engine drew.
    pub drawn: Series<u64>,
    /// Streams that the engine posted.
    pub posted: Series<u64>,
    /// Streams that the engine took back.
    pub cancelled: Series<u64>,
    /// Streams that the engine gave up when a worker had taken them.
    pub abandoned: Series<u64>,
    /// Parts that the engine received.
    pub received: Series<Part>,
    /// Streams that the worker took.
    pub taken: Series<u64>,
    /// Parts that the worker sent.
    pub sent: Series<Part>,
    /// Streams of which the worker took its last message back.
    pub closed: Series<u64>,
}

/// A number for each side.
#[derive(Clone, Copy, Debug, Drop)]
pub struct Sides {
    /// The engines' side.
    pub out: u32,
    /// The workers' side.
    pub back: u32,
}

/// The whole of what engines and workers share, as one value.
///
/// Engine seats are 0 up to `engines - 1`, and worker seats follow. Queue 0 is the line to the workers, and queue `1 + e`
/// is the back queue of engine `e`. Segments of the engines' side come first, and those of the workers' side follow.
#[derive(Debug, Drop)]
pub struct Core {
    pub(crate) shape: Shape,
    pub(crate) next: u64,
    pub(crate) opened: Sides,
    pub(crate) owners: Series<Owner>,
    pub(crate) queues: Series<Queue>,
    pub(crate) seats: Series<Seat>,
}

/// One atomic step of an engine or a worker.
#[derive(Clone, Copy, Debug, Drop)]
pub enum Step {
    /// An engine draws the next stream.
    Draw {
        seat: u32,
        stream: u64,
    },
    /// A seat takes a free chunk of its side.
    Claim {
        seat: u32,
        segment: u32,
        chunk: u32,
    },
    /// A seat gives a chunk back.
    Release {
        seat: u32,
        segment: u32,
        chunk: u32,
    },
    /// A seat opens one more segment of its side, of which `count` are open.
    Open {
        seat: u32,
        count: u32,
    },
    /// A seat takes the first free item of a queue.
    GetItem {
        seat: u32,
        queue: u32,
        item: u32,
        place: u64,
    },
    /// A seat writes the run of an item that it holds.
    SetRun {
        seat: u32,
        queue: u32,
        item: u32,
        run: Run,
    },
    /// A seat writes the part word of an item that it holds.
    SetPart {
        seat: u32,
        queue: u32,
        item: u32,
        part: u64,
    },
    /// A seat makes an item that it holds the message of a stream.
    Arm {
        seat: u32,
        queue: u32,
        item: u32,
        stream: u64,
    },
    /// A seat puts an item that it holds into the queue's line.
    Push {
        seat: u32,
        queue: u32,
        item: u32,
        place: u64,
    },
    /// A seat takes the first item of a queue's line.
    Pop {
        seat: u32,
        queue: u32,
        item: u32,
        place: u64,
    },
    /// A seat wins the message of an item.
    Settle {
        seat: u32,
        queue: u32,
        item: u32,
        stream: u64,
    },
    /// A seat puts an item that it holds back into the free list.
    GiveItem {
        seat: u32,
        queue: u32,
        item: u32,
        place: u64,
    },
    /// An engine gives up a stream that a worker has taken.
    Abandon {
        seat: u32,
        stream: u64,
    },
}

/// A condition of a step that isn't met.
#[derive(Clone, Copy, Debug, PartialEq, Eq, Drop)]
pub struct Unmet {
    /// The condition's number.
    pub rule: u8,
    /// What it wants.
    pub want: u64,
    /// What was found in its place.
    pub found: u64,
}

/// Why a step wasn't done.
#[derive(Clone, Copy, Debug, PartialEq, Eq, Drop)]
pub enum StepFault {
    /// The first condition of the step that isn't met: its number, what it wants and what was found.
    NotEnabled { rule: u8, want: u64, found: u64 },
    /// Want of memory.
    Memory,
}

/// Why a list of steps ended early. The steps before `at` were done, and the one at `at` wasn't.
#[derive(Clone, Copy, Debug, Drop)]
pub struct RunFault {
    /// How many steps were done.
    pub at: u64,
    /// Why the next one wasn't.
    pub fault: StepFault,
}

/// What a seat adds to one of its lists.
#[derive(Clone, Copy, Debug, Drop)]
pub enum Note {
    /// It drew the stream.
    Drawn(u64),
    /// It posted the stream.
    Posted(u64),
    /// It took the stream back.
    Cancelled(u64),
    /// It gave the stream up.
    Abandoned(u64),
    /// It received the part.
    Received(Part),
    /// It took the stream.
    Taken(u64),
    /// It sent the part.
    Sent(Part),
    /// It took the stream's last message back.
    Closed(u64),
}
