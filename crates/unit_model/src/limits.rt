//! The numbers that bound a fabric, its chunks and its steps. The definitions are in `specs/Limits.antt`.

use unit_types::CHUNK_SIZE;

/// Bytes of a chunk, in the type of a run's size.
pub const CHUNK_BYTES: u32 = CHUNK_SIZE as u32;

/// Chunks of a segment.
pub const SEGMENT_CHUNKS: u64 = 640;

/// Items of a queue, at most.
pub const MOST_ITEMS: u32 = 16384;

/// Segments of a side, at most.
pub const MOST_SEGMENTS: u32 = 8;

/// Engines, and workers, at most.
pub const MOST_SEATS: u32 = 4;

/// The last place at which a ring may begin: behind it is room for all items and one more below 2^62.
pub const LAST_START: u64 = (1 << 62) - 16385;

/// Streams are below it.
pub const STREAM_LIMIT: u64 = 1 << 62;

/// Places are below it.
pub const PLACE_LIMIT: u64 = 1 << 63;

/// The numbers of items, and of what else has 32 bits, are below it: it stands for none of them.
pub const PAST_ITEMS: u64 = 1 << 32;
