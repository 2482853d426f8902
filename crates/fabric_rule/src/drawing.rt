//! Streams are drawn.
ghost use Rattle.std.specs.Prelude.{◌≡◌, ◌<◌, ◌^◌};
ghost use Rattle.unit_model.specs.Shapes.{role_in};
ghost use Rattle.fabric_words.specs.Offsets.{offset_of};
ghost use Rattle.fabric_words.specs.declared.place.Place.TheVariants.{NextStream};
ghost use Rattle.fabric_rule.specs.Drawing.{Draws};
ghost use Rattle.fabric_rule.specs.Opening.{ledger_of};
ghost use Rattle.fabric_rule.specs.Steps.{IsMain};

use crate::table::{FabricSeat, FabricTable};
use std::marker::Brand;
use unit_types::Handlers;

impl<H: Handlers> FabricTable<H> {
    /// Draws a stream, where the next one is still `stream`: one exchange of `word`, which stands
    /// where the next stream does. The next stream as it was.
    ///
    /// The seat is an engine's main seat, and the stream is below 2^62.
    pub fn draw(&self, seat: &mut FabricSeat<H>, word: usize, stream: u64) -> u64
        requires own { seat.old.seat.table_id ≡ self.now.table.shared.table_id }
        requires word { word ≡ offset_of self.now.table.shared.key NextStream }
        requires main { IsMain seat.old.seat.me.0 (ledger_of seat.old.seat.me.0) }
        requires engine { role_in self.now.table.shared.key seat.old.seat.me.0.seat ≡ 0 }
        requires low { stream < 2 ^ 62 }
        ensures own { (seat.new.seat.table_id ≡ seat.old.seat.table_id)
            × (seat.new.seat.id ≡ seat.old.seat.id) }
        ensures slots { seat.new.seat.me.1 ≡ seat.old.seat.me.1 }
        ensures told { Draws H H.reply_of self.now.table.shared.key seat.old.seat.id stream
            seat.old.seat.me.0 result seat.new.seat.me.0 }
    {
        self.exchange_word::<Brand, ()>(&mut seat.seat, word, stream, stream + 1, ())
    }
}
