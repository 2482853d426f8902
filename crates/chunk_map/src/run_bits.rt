//! Finding runs of set bits in the ten words of a segment, by operations on whole words.
ghost use Rattle.std.specs.Prelude.{◌≡◌, ◌↔◌, ◌+◌, ◌*◌, ◌<◌, ◌≤◌, ℕ, min, slice_index, IfSome, IfNone};
ghost use Rattle.std.specs.Int.{bit_at};
ghost use Rattle.chunk_map.specs.Search.{bit_of, AllSet, NoneSet};

const WORDS: usize = 10;

const BITS: usize = 640;

// A word, or 0 behind the last one.
fn word_at(words: &[u64; WORDS], number: usize) -> u64
    ensures { result ≡ slice_index words.now number }
{
    words.get(number).copied().unwrap_or(0)
}

// Word `number` of the words moved so many places down.
fn moved(words: &[u64; WORDS], by: usize, number: usize) -> u64
    requires { (number < 10) × (by < 640) }
    ensures { (bit : ℕ) → bit < 64 → bit_at result bit ≡ bit_of words.now (64 * number + bit + by) }
{
    let low = word_at(words, number + by / 64);
    let shift = by % 64;
    if shift == 0 {
        return low;
    }
    let high = word_at(words, number + by / 64 + 1);
    (low >> shift) | (high << (64 - shift))
}

// The bits that are set both where they are and so many places up.
fn both(starts: &[u64; WORDS], by: usize) -> [u64; WORDS]
    requires { by < 640 }
    ensures { (place : ℕ)
        → bit_of result place ≡ min (bit_of starts.now place) (bit_of starts.now (place + by)) }
{
    let mut out = *starts;
    for number in 0..WORDS {
        out[number] &= moved(starts, by, number);
    }
    out
}

/// Bits for the places of ten words, taken as 640 bits, at which so many set bits begin: a segment in which a set bit is a free
/// chunk has its runs there.
pub fn run_starts(words: &[u64; WORDS], count: usize) -> [u64; WORDS]
    requires { (1 ≤ count) × (count ≤ 640) }
    ensures { (place : ℕ) → (bit_of result place ≡ 1) ↔ AllSet words.now place count }
{
    let mut starts = *words;
    let mut length = 1;
    while length < count {
        let by = length.min(count - length);
        starts = both(&starts, by);
        length += by;
    }
    starts
}

/// The first set bit from a place on, of ten words taken as 640 bits.
pub fn first_from(words: &[u64; WORDS], from: usize) -> Option<usize>
    ensures some { IfSome result (λ place. (from ≤ place) × (place < 640)
        × (bit_of words.now place ≡ 1) × NoneSet words.now from place) }
    ensures none { IfNone result (NoneSet words.now from 640) }
{
    let mut at = from;
    while at < BITS {
        let word = word_at(words, at / 64);
        let rest = word >> (at % 64);
        if rest != 0 {
            return Some(at + rest.trailing_zeros() as usize);
        }
        at = (at / 64 + 1) * 64;
    }
    None
}
