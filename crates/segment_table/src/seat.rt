//! A seat that carries the slots of its chunks.
ghost use Rattle.segment_table.specs.Seats.{IsSeat};

use atomic_table::Seat;
use chunk_map::MapView;

/// What a thread claims, fills, reads and releases with. It has no bytes.
#[derive(Drop)]
pub struct SlotSeat<T> {
    pub(crate) seat: Seat<Option<T>, MapView>,
    ghost sound: { IsSeat seat.me },
}
