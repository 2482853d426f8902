//! A seat at a queue.
ghost use Rattle.std.specs.Prelude.{◌≡◌, []};
ghost use Rattle.app_queue.specs.Views.{HoldsBelow};

use crate::view::QueueView;
use atomic_table::Seat;

/// What a thread uses a queue with. It has no bytes.
#[derive(Drop)]
pub struct QueueSeat {
    pub(crate) seat: Seat<u8, QueueView>,
    ghost sound: { (seat.me.1 ≡ []) × HoldsBelow seat.table_id.words seat.me.0 },
}
