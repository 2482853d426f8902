//! Runs of chunks, and looks at them.
ghost use Rattle.std.specs.Prelude.{◌≡◌, ◌⊎◌, ◌<◌, ◌≤◌, ◌+◌, ℕ, length};
ghost use Rattle.unit_model.specs.Runs.{HasNoRun, chunks_for, chunks_of};
ghost use Rattle.unit_model.specs.Weights.{times};
ghost use Rattle.unit_model.specs.declared.runs.Run.{Run};
ghost use Rattle.unit_model.specs.declared.runs.Seen.{Seen};

use crate::limits::CHUNK_BYTES;

/// Neighbouring chunks of one segment that hold one message.
///
/// A segment has 640 chunks of 16,384 bytes.
#[derive(Clone, Copy, Debug, PartialEq, Eq, Drop)]
pub struct Run {
    /// The segment's number.
    pub segment: u16,
    /// The first chunk's number in the segment.
    pub chunk: u16,
    /// The message's size in bytes.
    pub size: u32,
}

impl Run {
    /// How many chunks the run has.
    pub fn chunk_count(&self) -> u32
        ensures { result ≡ chunks_for self.now.size }
    {
        self.size.div_ceil(CHUNK_BYTES)
    }
}

/// What a search for free chunks saw on one side.
#[derive(Debug, Drop)]
pub struct Seen {
    /// Bit `i` of word `10 * j + w` is chunk `64 * w + i` of the side's segment `j`. It is set where the last look found
    /// the chunk free. Words past the segments that were searched are 0.
    pub words: [u64; 80],
    /// The number of segments that were searched: those that were open.
    pub segments: u32,
}

/// The chunks of a run are the neighbouring ones from its first one on, each once. This does nothing: its contract is the
/// law.
pub fn run_has_its_chunks()
    ensures inside { (run : Run) (chunk : ℕ)
        → run.chunk ≤ chunk → chunk < run.chunk + chunks_for run.size
        → times chunk (chunks_of run) ≡ 1 }
    ensures outside { (run : Run) (chunk : ℕ)
        → (chunk < run.chunk) ⊎ (run.chunk + chunks_for run.size ≤ chunk)
        → times chunk (chunks_of run) ≡ 0 }
    ensures count { (run : Run) → length (chunks_of run) ≡ chunks_for run.size }
{}

/// Where there is no run of some length, there is no longer one. This does nothing: its contract is the law.
pub fn no_longer_run()
    ensures { (seen : Seen) (n : ℕ) (m : ℕ) → n ≤ m → HasNoRun seen n → HasNoRun seen m }
{}
