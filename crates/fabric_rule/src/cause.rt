//! Why a call of a seat was refused. It exists in proofs alone.
use unit_model::Seen;

/// Why something wasn't there. No value of it is made.
pub enum Cause {
    /// The looks at the chunks of the seat's side, `seen`, found no run for `size` bytes.
    NoChunks { size: u32, seen: Seen },
    /// The head of the free ring was `place`, and its slot had the entry of the cycle before: no item was free.
    NoItem { place: u64, entry: u64 },
    /// The next stream, or the tail of a ring, was `place`, which is 2^62 or more.
    Worn { place: u64 },
}

/// A stream, with why a call for it was refused. The stream is 0 where no stream was to be had.
pub struct Refusal {
    pub stream: u64,
    pub cause: Cause,
}
