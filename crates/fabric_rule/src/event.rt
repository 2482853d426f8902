//! What a seat did or saw. It exists in proofs alone.
use app_queue::{ItemEvent, Side};
use chunk_map::MapEvent;
use nncq_ring::RingEvent;

/// Whose segments: those of the engines, or those of the workers, which follow them.
#[derive(Clone, Copy, Debug, Drop)]
pub enum Segments {
    /// The engines' side.
    Out,
    /// The workers' side.
    Back,
}

/// What a seat did or saw in one step.
pub enum FabricEvent {
    /// The next stream was this, or became it.
    SawNext(u64),
    /// At this ring of this queue.
    AtRing(u32, Side, RingEvent),
    /// At an item of this queue.
    AtItem(u32, ItemEvent),
    /// At the map of these segments, in which chunks are numbered from 0.
    AtMap(Segments, MapEvent),
}
