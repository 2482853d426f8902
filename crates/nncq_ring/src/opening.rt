//! The words of a ring that was just made.
ghost use Rattle.std.specs.Prelude.{◌≡◌, ◌≤◌, ◌<◌, ◌+◌, ◌*◌, ◌/◌, ◌%◌, ◌^◌, ℕ, length, IfOk};
ghost use Rattle.unit_model.specs.Limits.{most_items};
ghost use Rattle.nncq_ring.specs.RingWords.{Fresh};
ghost use Rattle.nncq_ring.specs.Words.{entry_of};

use std::alloc::{AllocError, Global};

// Indexes of words in the table. Word 0 is cold: splits and joins load it. The head, the tail and the first entry lie 128 bytes
// apart, so that they share no cache line.
pub const HEAD: usize = 16;

pub const TAIL: usize = 32;

pub const ENTRIES: usize = 48;

/// The first entry of a slot of an empty ring: that of value 0 at the last place before the start that has this slot.
pub fn first_entry(size: u64, start: u64, slot: u64) -> u64
    requires { (slot < size) × (size ≤ start) }
    ensures { (place : ℕ) → place < start → start ≤ place + size → place % size ≡ slot
        → result ≡ place / size * size }
{
    let turn = start - start % size;
    if slot < start % size {
        turn
    } else {
        turn - size
    }
}

// The entry of a value at the place so many places behind the start.
fn entry_behind(size: u64, start: u64, value: u64) -> u64
    requires { (1 ≤ size) × (start < 2 ^ 62) × (value < 2 ^ 62) }
    ensures { result ≡ entry_of size (start + value) value }
{
    let place = start + value;
    place - place % size + value
}

/// The first entry of a slot of a ring that starts full: that of the value whose place, so many places behind the start, has
/// this slot.
pub fn full_entry(size: u64, start: u64, slot: u64) -> u64
    requires { (slot < size) × (size ≤ start) × (start < 2 ^ 62) }
    ensures { (value : ℕ) → value < size → (start + value) % size ≡ slot
        → result ≡ entry_of size (start + value) value }
{
    let begin = start % size;
    if slot < begin {
        entry_behind(size, start, slot + size - begin)
    } else {
        entry_behind(size, start, slot - begin)
    }
}

/// The words of an empty ring.
pub fn first_words(alloc: Global, size: u32, start: u64) -> Result<Vec<u64>, AllocError>
    requires { (1 ≤ size) × (size ≤ most_items) × (size ≤ start) }
    ensures { IfOk result (λ words. (length words.items ≡ size + 48)
        × Fresh size start 16 words.items) }
{
    let mut words = vec![in alloc; 0u64; ENTRIES]?;
    words[HEAD] = start;
    words[TAIL] = start;
    for slot in 0..size {
        words.push(first_entry(size as u64, start, slot as u64))?;
    }
    Ok(words)
}
