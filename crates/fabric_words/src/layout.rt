//! Where words stand in one list.
ghost use Rattle.std.specs.Prelude.{◌≡◌, ◌<◌, ◌≤◌, ◌↔◌, ◌^◌, IsTrue, length};
ghost use Rattle.fabric_words.specs.Offsets.{item_start, offset_of, queue_start, queue_width, ring_start, ring_width, rounded, width_of, word_in};
ghost use Rattle.fabric_words.specs.Places.{HasItem, IsThere, Sets, queues_of, segments_of};
ghost use Rattle.unit_model.specs.Holding.{items_of};
ghost use Rattle.unit_model.specs.Shapes.{IsValid};

use crate::place::{Place, Side};
use unit_model::Shape;

// Words of a group, and of the head and of the tail of a ring: 128 bytes.
const GROUP: usize = 16;

// Where the map words stand, and how many of a group a segment uses.
const MAP_START: usize = 64;

pub(crate) const MAP_WORDS: u32 = 10;

// Words of an item: its tag, its run, its part, and one of no use.
const ITEM_WORDS: usize = 4;

/// Where the words of a fabric of a valid shape stand in one list of words.
#[derive(Debug, Drop)]
pub struct Layout {
    pub(crate) shape: Shape,
    // where queue 0 and queue 1 begin, and how wide a back queue is
    first: usize,
    second: usize,
    back_width: usize,
    ghost valid: { IsValid shape },
    ghost first_is: { first ≡ queue_start shape 0 },
    ghost second_is: { second ≡ queue_start shape 1 },
    ghost back_is: { back_width ≡ queue_width shape.back_items },
}

// So many words, up to a whole group.
fn rounded(words: usize) -> usize
    requires { words ≤ 65536 }
    ensures { result ≡ rounded words }
{
    (words + (GROUP - 1)) / GROUP * GROUP
}

fn ring_width(items: u32) -> usize
    requires { items ≤ 16384 }
    ensures { result ≡ ring_width items }
{
    2 * GROUP + rounded(items as usize)
}

fn queue_width(items: u32) -> usize
    requires { items ≤ 16384 }
    ensures { result ≡ queue_width items }
{
    2 * ring_width(items) + rounded(ITEM_WORDS * items as usize)
}

impl Layout {
    /// The layout of a valid shape.
    pub fn of(shape: Shape) -> Layout
        requires { IsValid shape }
        ensures { result.shape ≡ shape }
    {
        let segments = shape.out_segments as usize + shape.back_segments as usize;
        let first = MAP_START + GROUP * segments;
        let second = first + queue_width(shape.items);
        Layout {
            shape,
            first,
            second,
            back_width: queue_width(shape.back_items),
        }
    }

    /// The shape.
    pub fn shape(&self) -> Shape
        ensures { result ≡ self.now.shape }
    {
        self.shape
    }

    /// How many items a queue has.
    pub fn items(&self, queue: u32) -> u32
        ensures value { result ≡ items_of self.now.shape queue }
        ensures most { result ≤ 16384 }
    {
        if queue == 0 {
            self.shape.items
        } else {
            self.shape.back_items
        }
    }

    // Where a queue begins, or where the last one ends.
    fn queue(&self, queue: u32) -> usize
        requires { queue ≤ queues_of self.now.shape }
        ensures value { result ≡ queue_start self.now.shape queue }
        ensures small { result < 2 ^ 32 }
    {
        if queue == 0 {
            self.first
        } else {
            self.second + (queue - 1) as usize * self.back_width
        }
    }

    /// How many words there are.
    pub fn width(&self) -> usize
        ensures value { result ≡ width_of self.now.shape }
        ensures small { result < 2 ^ 32 }
    {
        self.queue(1 + self.shape.engines)
    }

    /// Where a ring begins: its head is there, 16 words behind that its tail, and from 32 words behind it on its entries.
    pub fn ring(&self, queue: u32, side: Side) -> usize
        requires { queue < queues_of self.now.shape }
        ensures value { result ≡ ring_start self.now.shape queue side }
        ensures small { result < 2 ^ 33 }
    {
        let start = self.queue(queue);
        match side {
            Side::FreeSide => start,
            Side::LineSide => start + ring_width(self.items(queue)),
        }
    }

    /// Where the words of an item begin: its tag, its run and its part, one behind the other.
    pub fn item(&self, queue: u32, item: u32) -> usize
        requires { HasItem self.now.shape queue item }
        ensures value { result ≡ item_start self.now.shape queue item }
        ensures small { result < 2 ^ 33 }
    {
        self.queue(queue) + 2 * ring_width(self.items(queue)) + ITEM_WORDS * item as usize
    }

    /// Whether the word is there.
    pub fn is_there(&self, place: Place) -> bool
        ensures { IsTrue result ↔ IsThere self.now.shape place }
    {
        match place {
            Place::NextStream | Place::OpenedOut | Place::OpenedBack => true,
            Place::Head { queue, .. } | Place::Tail { queue, .. } => self.has_queue(queue),
            Place::Slot { queue, slot, .. } => self.has_item(queue, slot),
            Place::Tag { queue, item }
            | Place::RunWord { queue, item }
            | Place::PartWord { queue, item } => self.has_item(queue, item),
            Place::Chunks { number } => number < MAP_WORDS * self.segments(),
        }
    }

    pub(crate) fn segments(&self) -> u32
        ensures value { result ≡ segments_of self.now.shape }
        ensures most { result ≤ 16 }
    {
        self.shape.out_segments + self.shape.back_segments
    }

    pub(crate) fn has_queue(&self, queue: u32) -> bool
        ensures { IsTrue result ↔ (queue < queues_of self.now.shape) }
    {
        queue < 1 + self.shape.engines
    }

    pub(crate) fn has_item(&self, queue: u32, item: u32) -> bool
        ensures { IsTrue result ↔ HasItem self.now.shape queue item }
    {
        self.has_queue(queue) && item < self.items(queue)
    }

    /// Where a word stands.
    pub fn offset(&self, place: Place) -> usize
        requires { IsThere self.now.shape place }
        ensures value { result ≡ offset_of self.now.shape place }
        ensures within { result < width_of self.now.shape }
    {
        match place {
            Place::NextStream => GROUP,
            Place::OpenedOut => 2 * GROUP,
            Place::OpenedBack => 3 * GROUP,
            Place::Head { queue, side } => self.ring(queue, side),
            Place::Tail { queue, side } => self.ring(queue, side) + GROUP,
            Place::Slot { queue, side, slot } => {
                self.ring(queue, side) + 2 * GROUP + slot as usize
            }
            Place::Tag { queue, item } => self.item(queue, item),
            Place::RunWord { queue, item } => self.item(queue, item) + 1,
            Place::PartWord { queue, item } => self.item(queue, item) + 2,
            Place::Chunks { number } => {
                let segment = (number / MAP_WORDS) as usize;
                MAP_START + GROUP * segment + (number % MAP_WORDS) as usize
            }
        }
    }

    /// The word of a list.
    pub fn word(&self, words: &[u64], place: Place) -> u64
        requires { (IsThere self.now.shape place) × (width_of self.now.shape ≤ length words.now) }
        ensures { result ≡ word_in self.now.shape words.now place }
    {
        words[self.offset(place)]
    }

    /// Sets a word of a list.
    pub fn set_word(&self, words: &mut [u64], place: Place, value: u64)
        requires { (IsThere self.now.shape place) × (width_of self.now.shape ≤ length words.old) }
        ensures sets { Sets self.now.shape (word_in self.now.shape words.old)
            (word_in self.now.shape words.new) place value }
        ensures long { length words.new ≡ length words.old }
    {
        words[self.offset(place)] = value;
    }
}
