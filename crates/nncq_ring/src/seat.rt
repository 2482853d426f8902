//! A seat at a ring.
ghost use Rattle.std.specs.Prelude.{◌≡◌, []};

use crate::view::RingView;
use atomic_table::Seat;

/// What a thread pushes and pops with. It has no bytes.
#[derive(Drop)]
pub struct RingSeat {
    pub(crate) seat: Seat<u8, RingView>,
    ghost sound: { seat.me.1 ≡ [] },
}
