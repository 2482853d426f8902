//! A seat at a chunk map.
ghost use Rattle.std.specs.Prelude.{◌≡◌, ◌*◌, ◌<◌, ℕ, []};
ghost use Rattle.unit_model.specs.Limits.{segment_chunks};
ghost use Rattle.unit_model.specs.Sharing.{Holds};
ghost use Rattle.chunk_map.specs.Views.{held_by};

use crate::view::MapView;
use atomic_table::Seat;

/// What a thread claims and releases with. It has no bytes.
#[derive(Drop)]
pub struct MapSeat {
    pub(crate) seat: Seat<u8, MapView>,
    ghost sound: { (seat.me.1 ≡ [])
        × ((chunk : ℕ) → Holds held_by chunk seat.me.0
        → chunk < segment_chunks * seat.me.0.segments) },
}
