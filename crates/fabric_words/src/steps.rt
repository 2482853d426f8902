//! The change of words that each step makes, done to a list of words.
ghost use Rattle.std.specs.Prelude.{◌≡◌, ◌+◌, ◌*◌, ◌<◌, ◌≤◌, ◌↔◌, ◌^◌, IsTrue, length};
ghost use Rattle.fabric_words.specs.Makes.{IsPlaced, Makes, PutsEntry};
ghost use Rattle.fabric_words.specs.Needs.{Needs};
ghost use Rattle.fabric_words.specs.Offsets.{width_of, word_in};
ghost use Rattle.fabric_words.specs.Places.{HasItem, SetsChunk, Sets, opened_place, queues_of, segments_of};
ghost use Rattle.fabric_words.specs.Shown.{IsStep, Shows};
ghost use Rattle.fabric_words.specs.declared.place.Place.TheVariants.{Head, Tag};
ghost use Rattle.unit_model.specs.Core.{chunk_number};
ghost use Rattle.unit_model.specs.Limits.{segment_chunks};
ghost use Rattle.unit_model.specs.Soundness.{IsSound};
ghost use Rattle.unit_model.specs.declared.machine.Core.{Core};

use crate::layout::Layout;
use crate::place::{Place, Side};
use port_message::pack;
use unit_model::{PLACE_LIMIT, SEGMENT_CHUNKS, STREAM_LIMIT, Step, chunk_number};

// Bits of a map word.
const BITS: u64 = 64;

impl Layout {
    /// Whether the word that a step changes is there, and can be what it becomes.
    pub fn is_placed(&self, step: &Step) -> bool
        ensures { IsTrue result ↔ IsPlaced self.now.shape step.now }
    {
        match *step {
            Step::Draw { stream, .. } => stream < STREAM_LIMIT,
            Step::Claim { segment, chunk, .. } | Step::Release { segment, chunk, .. } => {
                chunk_number(segment, chunk) < SEGMENT_CHUNKS * self.segments() as u64
            }
            Step::GetItem { queue, place, .. } | Step::Pop { queue, place, .. } => {
                self.has_queue(queue) && place < PLACE_LIMIT
            }
            Step::SetRun { queue, item, .. }
            | Step::SetPart { queue, item, .. }
            | Step::Arm { queue, item, .. }
            | Step::Settle { queue, item, .. } => self.has_item(queue, item),
            Step::Push {
                queue,
                item,
                place,
                ..
            }
            | Step::GiveItem {
                queue,
                item,
                place,
                ..
            } => { self.has_item(queue, item) && place < PLACE_LIMIT }
            Step::Open { .. } | Step::Abandon { .. } => true,
        }
    }

    /// Changes the word that a step changes, as the step does. Whether the step is enabled isn't looked at: where the words show
    /// a sound core and the seat has what the step needs, it is that step.
    pub fn make(&self, words: &mut [u64], step: &Step)
        requires { (IsPlaced self.now.shape step.now)
            × (width_of self.now.shape ≤ length words.old) }
        ensures made { Makes self.now.shape (word_in self.now.shape words.old)
            (word_in self.now.shape words.new) step.now }
        ensures step { (core : Core) → core.shape ≡ self.now.shape → IsSound core
            → Shows (word_in self.now.shape words.old) core
            → Needs (word_in self.now.shape words.old) core step.now
            → IsStep (word_in self.now.shape words.new) core step.now }
        ensures long { length words.new ≡ length words.old }
    {
        self.change(words, step);
    }

    fn change(&self, words: &mut [u64], step: &Step)
        requires { (IsPlaced self.now.shape step.now)
            × (width_of self.now.shape ≤ length words.old) }
        ensures made { Makes self.now.shape (word_in self.now.shape words.old)
            (word_in self.now.shape words.new) step.now }
        ensures long { length words.new ≡ length words.old }
    {
        match *step {
            Step::Draw { stream, .. } => self.set_word(words, Place::NextStream, stream + 1),
            Step::Claim { segment, chunk, .. } => self.clear_bit(words, segment, chunk),
            Step::Release { segment, chunk, .. } => self.set_bit(words, segment, chunk),
            Step::Open { seat, count } => {
                self.set_word(words, self.opened_place(seat), count as u64 + 1)
            }
            Step::GetItem { queue, place, .. } => {
                self.move_head(words, queue, Side::FreeSide, place)
            }
            Step::SetRun {
                queue,
                item,
                run,
                ..
            } => { self.set_word(words, Place::RunWord { queue, item }, pack(run)) }
            Step::SetPart {
                queue,
                item,
                part,
                ..
            } => { self.set_word(words, Place::PartWord { queue, item }, part) }
            Step::Arm {
                queue,
                item,
                stream,
                ..
            } => self.set_tag(words, queue, item, stream),
            Step::Push {
                queue,
                item,
                place,
                ..
            } => { self.put_entry(words, queue, Side::LineSide, place, item) }
            Step::Pop { queue, place, .. } => self.move_head(words, queue, Side::LineSide, place),
            Step::Settle { queue, item, .. } => self.set_tag(words, queue, item, 0),
            Step::GiveItem {
                queue,
                item,
                place,
                ..
            } => { self.put_entry(words, queue, Side::FreeSide, place, item) }
            Step::Abandon { .. } => {}
        }
    }

    /// Moves the tail of a ring on, where the entry at it has its cycle. The words show what they did.
    pub fn help(&self, words: &mut [u64], queue: u32, side: Side)
        requires { (queue < queues_of self.now.shape)
            × (width_of self.now.shape ≤ length words.old) }
        ensures shows { (core : Core) → core.shape ≡ self.now.shape
            → Shows (word_in self.now.shape words.old) core
            → Shows (word_in self.now.shape words.new) core }
        ensures long { length words.new ≡ length words.old }
    {
        let size = self.items(queue) as u64;
        let tail = self.word(words, Place::Tail { queue, side });
        let slot = (tail % size) as u32;
        let entry = self.word(words, Place::Slot { queue, side, slot });
        if entry / size == tail / size && tail < PLACE_LIMIT {
            self.set_word(words, Place::Tail { queue, side }, tail + 1);
        }
    }

    /// The word that says how many segments of a seat's side are open.
    pub fn opened_place(&self, seat: u32) -> Place
        ensures { result ≡ opened_place self.now.shape seat }
    {
        if self.shape.role(seat).is_engine() {
            Place::OpenedOut
        } else {
            Place::OpenedBack
        }
    }

    fn set_tag(&self, words: &mut [u64], queue: u32, item: u32, stream: u64)
        requires { (HasItem self.now.shape queue item)
            × (width_of self.now.shape ≤ length words.old) }
        ensures sets { Sets self.now.shape (word_in self.now.shape words.old)
            (word_in self.now.shape words.new) (Tag queue item) stream }
        ensures long { length words.new ≡ length words.old }
    {
        self.set_word(words, Place::Tag { queue, item }, stream);
    }

    fn move_head(&self, words: &mut [u64], queue: u32, side: Side, place: u64)
        requires { (queue < queues_of self.now.shape) × (place < 2 ^ 63)
            × (width_of self.now.shape ≤ length words.old) }
        ensures sets { Sets self.now.shape (word_in self.now.shape words.old)
            (word_in self.now.shape words.new) (Head queue side) (place + 1) }
        ensures long { length words.new ≡ length words.old }
    {
        self.set_word(words, Place::Head { queue, side }, place + 1);
    }

    // The entry of an item at a place has the place's cycle and the item as its value.
    fn put_entry(&self, words: &mut [u64], queue: u32, side: Side, place: u64, item: u32)
        requires { (HasItem self.now.shape queue item) × (place < 2 ^ 63)
            × (width_of self.now.shape ≤ length words.old) }
        ensures puts { PutsEntry self.now.shape (word_in self.now.shape words.old)
            (word_in self.now.shape words.new) queue side place item }
        ensures long { length words.new ≡ length words.old }
    {
        let size = self.items(queue) as u64;
        let slot = (place % size) as u32;
        let entry = place - place % size + item as u64;
        self.set_word(words, Place::Slot { queue, side, slot }, entry);
    }

    fn clear_bit(&self, words: &mut [u64], segment: u32, chunk: u32)
        requires { (chunk_number segment chunk < segment_chunks * segments_of self.now.shape)
            × (width_of self.now.shape ≤ length words.old) }
        ensures sets { SetsChunk self.now.shape (word_in self.now.shape words.old)
            (word_in self.now.shape words.new) (chunk_number segment chunk) 0 }
        ensures long { length words.new ≡ length words.old }
    {
        let number = chunk_number(segment, chunk);
        let place = Place::Chunks {
            number: (number / BITS) as u32,
        };
        let word = self.word(words, place);
        self.set_word(words, place, word & !(1 << (number % BITS)));
    }

    fn set_bit(&self, words: &mut [u64], segment: u32, chunk: u32)
        requires { (chunk_number segment chunk < segment_chunks * segments_of self.now.shape)
            × (width_of self.now.shape ≤ length words.old) }
        ensures sets { SetsChunk self.now.shape (word_in self.now.shape words.old)
            (word_in self.now.shape words.new) (chunk_number segment chunk) 1 }
        ensures long { length words.new ≡ length words.old }
    {
        let number = chunk_number(segment, chunk);
        let place = Place::Chunks {
            number: (number / BITS) as u32,
        };
        let word = self.word(words, place);
        self.set_word(words, place, word | 1 << (number % BITS));
    }
}
