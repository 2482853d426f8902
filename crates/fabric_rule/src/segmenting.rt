//! Segments are opened.
ghost use Rattle.std.specs.Prelude.{◌≡◌, ◌<◌};
ghost use Rattle.fabric_words.specs.Offsets.{offset_of};
ghost use Rattle.fabric_rule.specs.Claiming.{own_segments, side_segments};
ghost use Rattle.fabric_rule.specs.Looks.{opened_word};
ghost use Rattle.fabric_rule.specs.Segmenting.{Opens};

use crate::event::Segments;
use crate::table::{FabricSeat, FabricTable};
use std::marker::Brand;
use unit_types::Handlers;

impl<H: Handlers> FabricTable<H> {
    /// Opens one more segment of the seat's side, where `count` are open: one exchange of `word`,
    /// which says how many are. The number of open segments as it was.
    ///
    /// The side has more segments than `count`.
    pub fn open_segment(
        &self,
        seat: &mut FabricSeat<H>,
        word: usize,
        segments: Segments,
        count: u32,
    ) -> u64
        requires own { seat.old.seat.table_id ≡ self.now.table.shared.table_id }
        requires word { word ≡ offset_of self.now.table.shared.key (opened_word segments) }
        requires side { segments ≡ own_segments self.now.table.shared.key seat.old.seat.me.0.seat }
        requires more { count < side_segments self.now.table.shared.key segments }
        ensures own { (seat.new.seat.table_id ≡ seat.old.seat.table_id)
            × (seat.new.seat.id ≡ seat.old.seat.id) }
        ensures slots { seat.new.seat.me.1 ≡ seat.old.seat.me.1 }
        ensures told { Opens H H.reply_of self.now.table.shared.key seat.old.seat.id segments count
            seat.old.seat.me.0 result seat.new.seat.me.0 }
    {
        let open = count as u64;
        self.exchange_word::<Brand, Segments>(&mut seat.seat, word, open, open + 1, segments)
    }
}
