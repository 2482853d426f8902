//! The words of a fabric that was just made.
ghost use Rattle.std.specs.Prelude.{◌≡◌, ◌*◌, ◌<◌, ◌≤◌, ℕ, IfOk, length, replicate, true};
ghost use Rattle.chunk_map.specs.Words.{is_free};
ghost use Rattle.nncq_ring.specs.RingWords.{StartsFull};
ghost use Rattle.fabric_words.specs.Offsets.{width_of, word_in};
ghost use Rattle.fabric_words.specs.Opened.{ChangesMap, ChangesRing, ChangesRings, HasBegun, IsOpened, StartsEmpty};
ghost use Rattle.fabric_words.specs.Places.{map_of, queues_of, ring_of, segments_of};
ghost use Rattle.fabric_words.specs.Shown.{Shows};
ghost use Rattle.fabric_words.specs.declared.place.Side.TheVariants.{FreeSide, LineSide};
ghost use Rattle.unit_model.specs.Holding.{items_of};
ghost use Rattle.unit_model.specs.Opening.{opened_core};

use crate::layout::{Layout, MAP_WORDS};
use crate::place::{Place, Side};
use nncq_ring::{first_entry, full_entry};
use std::alloc::{AllocError, Global};

impl Layout {
    /// The words of a fabric that was just made: they show the core of its shape as it begins.
    ///
    /// Fails for want of memory alone.
    pub fn opened_words(&self, alloc: Global) -> Result<Vec<u64>, AllocError>
        ensures long { IfOk result (λ words. length words.items ≡ width_of self.now.shape) }
        ensures opened { IfOk result
            (λ words. IsOpened self.now.shape (word_in self.now.shape words.items)) }
        ensures shows { IfOk result
            (λ words. Shows (word_in self.now.shape words.items) (opened_core self.now.shape)) }
    {
        let mut words = vec![in alloc; 0u64; self.width()]?;
        self.open_words(words.as_mut_slice());
        Ok(words)
    }

    // From words that are all 0.
    fn open_words(&self, words: &mut [u64])
        requires { words.old ≡ replicate (width_of self.now.shape) 0 }
        ensures opened { IsOpened self.now.shape (word_in self.now.shape words.new) }
        ensures shows { Shows (word_in self.now.shape words.new) (opened_core self.now.shape) }
        ensures long { length words.new ≡ width_of self.now.shape }
    {
        self.free_chunks(words);
        self.open_queues(words);
        self.set_word(words, Place::NextStream, 1);
        self.set_word(words, Place::OpenedOut, 1);
        self.set_word(words, Place::OpenedBack, 1);
    }

    fn free_chunks(&self, words: &mut [u64])
        requires { width_of self.now.shape ≤ length words.old }
        ensures free { (number : ℕ) → number < 640 * segments_of self.now.shape
            → is_free (map_of (word_in self.now.shape words.new)) number ≡ true }
        ensures others { ChangesMap self.now.shape (word_in self.now.shape words.old)
            (word_in self.now.shape words.new) }
        ensures long { length words.new ≡ length words.old }
    {
        for number in 0..MAP_WORDS * self.segments() {
            self.set_word(words, Place::Chunks { number }, u64::MAX);
        }
    }

    fn open_queues(&self, words: &mut [u64])
        requires { width_of self.now.shape ≤ length words.old }
        ensures begun { (queue : ℕ) → queue < queues_of self.now.shape
            → HasBegun self.now.shape (word_in self.now.shape words.new) queue }
        ensures others { ChangesRings self.now.shape (word_in self.now.shape words.old)
            (word_in self.now.shape words.new) }
        ensures long { length words.new ≡ length words.old }
    {
        for queue in 0..1 + self.shape.engines {
            self.open_free(words, queue);
            self.open_line(words, queue);
        }
    }

    // A free ring starts with all items, in ascending order.
    fn open_free(&self, words: &mut [u64], queue: u32)
        requires { (queue < queues_of self.now.shape)
            × (width_of self.now.shape ≤ length words.old) }
        ensures starts { StartsFull (items_of self.now.shape queue) self.now.shape.start
            (ring_of (word_in self.now.shape words.new) queue FreeSide) }
        ensures others { ChangesRing self.now.shape (word_in self.now.shape words.old)
            (word_in self.now.shape words.new) queue FreeSide }
        ensures long { length words.new ≡ length words.old }
    {
        let side = Side::FreeSide;
        let start = self.shape.start;
        let size = self.items(queue);
        self.set_word(words, Place::Head { queue, side }, start);
        self.set_word(words, Place::Tail { queue, side }, start + size as u64);
        for slot in 0..size {
            let entry = full_entry(size as u64, start, slot as u64);
            self.set_word(words, Place::Slot { queue, side, slot }, entry);
        }
    }

    // A line starts empty.
    fn open_line(&self, words: &mut [u64], queue: u32)
        requires { (queue < queues_of self.now.shape)
            × (width_of self.now.shape ≤ length words.old) }
        ensures starts { StartsEmpty (items_of self.now.shape queue) self.now.shape.start
            (ring_of (word_in self.now.shape words.new) queue LineSide) }
        ensures others { ChangesRing self.now.shape (word_in self.now.shape words.old)
            (word_in self.now.shape words.new) queue LineSide }
        ensures long { length words.new ≡ length words.old }
    {
        let side = Side::LineSide;
        let start = self.shape.start;
        let size = self.items(queue);
        self.set_word(words, Place::Head { queue, side }, start);
        self.set_word(words, Place::Tail { queue, side }, start);
        for slot in 0..size {
            let entry = first_entry(size as u64, start, slot as u64);
            self.set_word(words, Place::Slot { queue, side, slot }, entry);
        }
    }
}
