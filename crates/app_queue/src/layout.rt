//! Where the words of a queue stand in its table.
ghost use Rattle.std.specs.Prelude.{◌≡◌};
ghost use Rattle.app_queue.specs.Layout.{word_at};

use crate::side::Side;

/// A word of a queue, by what it means.
#[derive(Clone, Copy, Debug, PartialEq, Eq, Drop)]
pub enum Place {
    /// A word of a ring: 0 is the head, 16 the tail, and from 32 on stand the entries.
    InRing(Side, u32),
    /// The tag of an item.
    TagOf(u32),
    /// The run of an item.
    RunOf(u32),
    /// The part of an item.
    PartOf(u32),
}

/// The index of a word in the table of a queue of this size. Word 0 is none of the queue's, so that the loads of a split and a join
/// meet no hot word; 16 words are 128 bytes, so heads, tails and first entries share no cache line.
pub fn word_at(size: u32, place: Place) -> usize
    ensures { result ≡ word_at size place }
{
    let items = size as usize;
    match place {
        Place::InRing(Side::Free, offset) => 16 + offset as usize,
        Place::InRing(Side::Line, offset) => 64 + items + offset as usize,
        Place::TagOf(item) => 112 + 2 * items + item as usize,
        Place::RunOf(item) => 112 + 3 * items + item as usize,
        Place::PartOf(item) => 112 + 4 * items + item as usize,
    }
}
