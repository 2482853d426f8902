//! The words of a queue that was just made.
ghost use Rattle.std.specs.Prelude.{◌≡◌, ◌≤◌, ◌<◌, ◌+◌, ◌*◌, ◌%◌, ◌⊎◌, ℕ, length, slice_index, IfOk};
ghost use Rattle.unit_model.specs.Limits.{last_start, most_items};
ghost use Rattle.nncq_ring.specs.Words.{entry_of};
ghost use Rattle.app_queue.specs.Opening.{IsFirst};

use nncq_ring::{first_entry, full_entry};
use std::alloc::{AllocError, Global};

// Sets so many words, from this one on, to the first entries of the free ring, which starts full.
fn fill_free(words: &mut [u64], size: u32, start: u64)
    requires size { (1 ≤ size) × (size ≤ most_items) × (size ≤ start) × (start ≤ last_start) }
    requires wide { length words.old ≡ 112 + 5 * size }
    ensures filled { (value : ℕ) → value < size
        → slice_index words.new (48 + (start + value) % size)
        ≡ entry_of size (start + value) value }
    ensures others { (i : ℕ) → (i < 48) ⊎ (48 + size ≤ i)
        → slice_index words.new i ≡ slice_index words.old i }
{
    for slot in 0..size {
        words[48 + slot as usize] = full_entry(size as u64, start, slot as u64);
    }
}

// The same of the line, which starts empty.
fn fill_line(words: &mut [u64], size: u32, start: u64)
    requires size { (1 ≤ size) × (size ≤ most_items) × (size ≤ start) × (start ≤ last_start) }
    requires wide { length words.old ≡ 112 + 5 * size }
    ensures filled { (place : ℕ) → place < start → start ≤ place + size
        → slice_index words.new (96 + size + place % size) ≡ entry_of size place 0 }
    ensures others { (i : ℕ) → (i < 96 + size) ⊎ (96 + 2 * size ≤ i)
        → slice_index words.new i ≡ slice_index words.old i }
{
    let first = 96 + size as usize;
    for slot in 0..size {
        words[first + slot as usize] = first_entry(size as u64, start, slot as u64);
    }
}

/// The words of a queue whose free ring starts full and whose line starts empty.
pub fn first_words(alloc: Global, size: u32, start: u64) -> Result<Vec<u64>, AllocError>
    requires { (1 ≤ size) × (size ≤ most_items) × (size ≤ start) × (start ≤ last_start) }
    ensures { IfOk result (λ words. IsFirst size start words.items) }
{
    let items = size as usize;
    let mut words = vec![in alloc; 0u64; 112 + 5 * items]?;
    fill(words.as_mut_slice(), size, start);
    Ok(words)
}

// Sets the heads, tails and entries of both rings in words that are all 0.
fn fill(words: &mut [u64], size: u32, start: u64)
    requires size { (1 ≤ size) × (size ≤ most_items) × (size ≤ start) × (start ≤ last_start) }
    requires wide { length words.old ≡ 112 + 5 * size }
    requires zero { (i : ℕ) → i < 112 + 5 * size → slice_index words.old i ≡ 0 }
    ensures { IsFirst size start words.new }
{
    fill_free(words, size, start);
    fill_line(words, size, start);
    let items = size as usize;
    words[16] = start;
    words[32] = start + size as u64;
    words[64 + items] = start;
    words[80 + items] = start;
}
