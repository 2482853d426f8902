//! Seats at a status book.
ghost use Rattle.std.specs.Prelude.{◌≡◌, ◌+◌, ◌*◌, ◌≤◌, [], length};
ghost use Rattle.status_book.specs.Views.{first_sums, of_engine};
ghost use Rattle.status_book.specs.Words.{kinds};

use crate::view::StatusView;
use atomic_table::Seat;

/// What one engine adds to its counts with. Its sums are seen by contracts alone.
#[derive(Drop)]
pub struct CountSeat {
    pub(crate) seat: Seat<u8, StatusView>,
    pub(crate) engine: u32,
    ghost sound: { (seat.me ≡ (of_engine engine (first_sums seat.me.0.engines), []))
        × (length (first_sums seat.me.0.engines) ≡ kinds)
        × (16 * engine + 16 ≤ seat.table_id.words) × (seat.table_id.words ≤ 64) },
}

/// What a thread looks at the counts with. It has no bytes.
#[derive(Drop)]
pub struct LookSeat {
    pub(crate) seat: Seat<u8, StatusView>,
    ghost sound: { (seat.me.1 ≡ []) × (seat.me.0.engines ≡ []) },
}
