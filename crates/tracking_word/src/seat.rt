//! A seat at tags.
ghost use Rattle.std.specs.Prelude.{◌≡◌, ◌<◌, ℕ, [], length};
ghost use Rattle.unit_model.specs.Sharing.{Holds};
ghost use Rattle.tracking_word.specs.Views.{held_by};

use crate::view::TagView;
use atomic_table::Seat;

/// What a thread arms and settles with. It has no bytes.
#[derive(Drop)]
pub struct TagSeat {
    pub(crate) seat: Seat<u8, TagView>,
    ghost sound: { (seat.me.1 ≡ []) × ((item : ℕ) → Holds held_by item seat.me.0
        → item < seat.table_id.words) },
}
