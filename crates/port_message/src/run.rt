//! Run words.
ghost use Rattle.std.specs.Prelude.{◌≡◌, ◌<◌, ◌^◌, ℕ, Some, IsTrue};
ghost use Rattle.port_message.specs.Words.{is_in_segment, numbers_of, pack_of, unpack_of};
ghost use Rattle.unit_model.specs.declared.runs.Run.{Run};

use unit_model::{MOST_SEGMENTS, Run, SEGMENT_CHUNKS};

// what the chunk's number is counted in, and the segment's
const CHUNK: u64 = 1 << 32;

const SEGMENT: u64 = 1 << 48;

// segments of both sides, at most
const SEGMENTS: u32 = 2 * MOST_SEGMENTS;

/// The word of a run.
pub fn pack(run: Run) -> u64
    ensures { result ≡ pack_of run }
{
    run.segment as u64 * SEGMENT + run.chunk as u64 * CHUNK + run.size as u64
}

fn numbers(word: u64) -> Run
    ensures { result ≡ numbers_of word }
{
    Run {
        segment: (word / SEGMENT) as u16,
        chunk: (word / CHUNK % 65536) as u16,
        size: (word % CHUNK) as u32,
    }
}

/// The run of a word: `Some` exactly where the segment is below 16, the chunk below 640, and the chunks end at or before
/// 640.
#[tactic(auto, unfolding(crate::specs::Words::unpack_of))]
pub fn unpack(word: u64) -> Option<Run>
    ensures { result ≡ unpack_of word }
{
    let run = numbers(word);
    let first = run.chunk as u64;
    let is_chunk = (run.segment as u32) < SEGMENTS && first < SEGMENT_CHUNKS;
    if is_chunk && first + run.chunk_count() as u64 <= SEGMENT_CHUNKS {
        Some(run)
    } else {
        None
    }
}

/// `pack` and `unpack` undo each other. This does nothing: its contract is the law.
pub fn run_words_are_inverse()
    // A run within a segment is read back.
    ensures packed { (run : Run) → IsTrue (is_in_segment run) → unpack_of (pack_of run) ≡ Some run }
    // What is read is within a segment, and its word is the one that was read.
    ensures unpacked { (word : ℕ) (run : Run)
        → unpack_of word ≡ Some run → IsTrue (is_in_segment run) × (pack_of run ≡ word) }
    // The word of any run has the run's numbers, and a word is that of its numbers.
    ensures numbers { (run : Run) → run.chunk < 2 ^ 16 → run.size < 2 ^ 32
        → numbers_of (pack_of run) ≡ run }
    ensures word { (word : ℕ) → pack_of (numbers_of word) ≡ word }
    // No two runs have one word.
    ensures distinct { (a : Run) (b : Run)
        → a.chunk < 2 ^ 16 → a.size < 2 ^ 32 → b.chunk < 2 ^ 16 → b.size < 2 ^ 32
        → pack_of a ≡ pack_of b
        → a ≡ b }
{}
