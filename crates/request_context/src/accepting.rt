//! What a collector answers.

use crate::asked::Asked;
use std::sync::Arc;
use unit_types::Reply;

/// What a collector made of a part.
#[derive(Drop)]
pub enum Part {
    /// It was the next one, and there are more.
    More,
    /// It was the last one: the reply to what was asked.
    Whole(Reply),
    /// It was not the one that the collector waits for.
    Stranger(Stray),
}

/// In what a part differs from the one that a collector waits for: the first of stream, number and request.
#[derive(Drop)]
pub enum Stray {
    /// The stream that the collector keeps, and that of the part.
    Stream { kept: u64, found: u64 },
    /// The number of the part that the collector waits for, and that of the part that came.
    Part { kept: u32, found: u32 },
    /// The stream, and what the part says was asked under it.
    Request { kept: u64, found: Arc<Asked> },
}
