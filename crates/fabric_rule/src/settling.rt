//! Settles beside a worker's take: an engine cancels a request or receives a part of a reply, and a
//! worker takes its last part back.
ghost use Rattle.std.specs.Prelude.{ℕ, Bool, false, ◌+◌, ◌≡◌, ◌<◌, [], ◌∷◌};
ghost use Rattle.fabric_words.specs.Offsets.{offset_of};

use crate::table::{FabricSeat, FabricTable};
use std::marker::Brand;
use unit_types::Handlers;

/// A line item with which an engine posted a stream, and the run that its word says.
#[derive(Clone, Copy, Drop)]
pub struct PostedItem {
    pub item: u32,
    pub run: u64,
}

/// An item of a back queue that a seat has in hand, with the run and the part that its words say.
#[derive(Clone, Copy, Drop)]
pub struct PartItem {
    pub item: u32,
    pub run: u64,
    pub part: u64,
}

impl<H: Handlers> FabricTable<H> {
    ghost use Rattle.port_message.specs.Words.{numbers_of};
    ghost use Rattle.unit_model.specs.Shapes.{role_in};
    ghost use Rattle.unit_model.specs.Sharing.{Holds};
    ghost use Rattle.fabric_words.specs.Places.{HasItem};
    ghost use Rattle.fabric_words.specs.declared.place.Place.TheVariants.{Tag};
    ghost use Rattle.fabric_rule.specs.Opening.{ledger_of};
    ghost use Rattle.fabric_rule.specs.Parts.{has_last};
    ghost use Rattle.fabric_rule.specs.Settling.{Cancels, Closes, HasPopped, HasPost, Receives, Withdraws};
    ghost use Rattle.fabric_rule.specs.Steps.{HasLists};
    ghost use Rattle.fabric_rule.specs.Views.{held_at, part_said, run_said, tag_said};
    ghost use Rattle.fabric_rule.specs.declared.view.Work.TheVariants.{Posted, Sending};

    /// Cancels a request that the seat posted, or abandons its stream where a worker took it: one
    /// exchange of `word`, which is the tag of the item with which the stream was posted, from the
    /// stream to 0. The tag as it was.
    ///
    /// The seat is an engine's, with the lists, and hasn't received the stream's last part.
    pub fn cancel(
        &self,
        seat: &mut FabricSeat<H>,
        word: usize,
        posted: PostedItem,
        stream: u64,
    ) -> u64
        requires own { seat.old.seat.table_id ≡ self.now.table.shared.table_id }
        requires word { word ≡ offset_of self.now.table.shared.key (Tag 0 posted.item) }
        requires there { posted.item < self.now.table.shared.key.items }
        requires main { HasLists seat.old.seat.me.0 (ledger_of seat.old.seat.me.0)
            (Posted stream posted.item ∷ []) }
        requires post { HasPost seat.old.seat.me.0 posted.item stream posted.run }
        requires unreceived { has_last stream (ledger_of seat.old.seat.me.0).lists.received ≡ false }
        ensures own { (seat.new.seat.table_id ≡ seat.old.seat.table_id)
            × (seat.new.seat.id ≡ seat.old.seat.id) }
        ensures told { Cancels H H.reply_of self.now.table.shared.key seat.old.seat.id posted.item
            stream (numbers_of posted.run) seat.old.seat.me result seat.new.seat.me }
    {
        self.exchange_word::<Brand, PostedItem>(&mut seat.seat, word, stream, 0, posted)
    }

    /// Cancels a request whose item the seat has armed and not pushed: one exchange of `word`,
    /// which is the item's tag, from the stream to 0. No other seat can have taken it.
    ///
    /// The seat is an engine's, with the lists.
    pub fn withdraw_post(
        &self,
        seat: &mut FabricSeat<H>,
        word: usize,
        posted: PostedItem,
        stream: u64,
    )
        requires own { seat.old.seat.table_id ≡ self.now.table.shared.table_id }
        requires word { word ≡ offset_of self.now.table.shared.key (Tag 0 posted.item) }
        requires there { posted.item < self.now.table.shared.key.items }
        requires main { HasLists seat.old.seat.me.0 (ledger_of seat.old.seat.me.0)
            (Posted stream posted.item ∷ []) }
        requires post { HasPost seat.old.seat.me.0 posted.item stream posted.run }
        requires holds { Holds (held_at 0) posted.item seat.old.seat.me.0 }
        requires tag { tag_said 0 seat.old.seat.me.0 posted.item stream }
        ensures own { (seat.new.seat.table_id ≡ seat.old.seat.table_id)
            × (seat.new.seat.id ≡ seat.old.seat.id) }
        ensures told { Withdraws H H.reply_of self.now.table.shared.key seat.old.seat.id posted.item
            stream (numbers_of posted.run) seat.old.seat.me seat.new.seat.me }
    {
        self.exchange_word::<Brand, PostedItem>(&mut seat.seat, word, stream, 0, posted);
    }

    /// Receives the part whose item the seat popped: one exchange of `word`, which is the item's
    /// tag, from the stream to 0. No other seat can have taken it.
    ///
    /// The seat is an engine's main seat without a work. It noted the item's tag, its run and its
    /// part.
    pub fn receive(&self, seat: &mut FabricSeat<H>, word: usize, part: PartItem, stream: u64)
        requires own { seat.old.seat.table_id ≡ self.now.table.shared.table_id }
        requires word { word
            ≡ offset_of self.now.table.shared.key (Tag (1 + seat.old.seat.me.0.seat) part.item) }
        requires there { HasItem self.now.table.shared.key (1 + seat.old.seat.me.0.seat) part.item }
        requires main { HasPopped seat.old.seat.me.0 (ledger_of seat.old.seat.me.0) part.item }
        requires engine { role_in self.now.table.shared.key seat.old.seat.me.0.seat ≡ 0 }
        requires tag { tag_said (1 + seat.old.seat.me.0.seat) seat.old.seat.me.0 part.item stream }
        requires run { run_said (1 + seat.old.seat.me.0.seat) seat.old.seat.me.0 part.item part.run }
        requires part { part_said (1 + seat.old.seat.me.0.seat) seat.old.seat.me.0 part.item
            part.part }
        ensures own { (seat.new.seat.table_id ≡ seat.old.seat.table_id)
            × (seat.new.seat.id ≡ seat.old.seat.id) }
        ensures told { Receives H H.reply_of self.now.table.shared.key seat.old.seat.id part.item
            stream part.part (numbers_of part.run) seat.old.seat.me seat.new.seat.me }
    {
        self.exchange_word::<Brand, PartItem>(&mut seat.seat, word, stream, 0, part);
    }

    /// Takes back the part that the seat armed and hasn't pushed, and closes its stream: one
    /// exchange of `word`, which is the item's tag, from the stream to 0. No other seat can have
    /// taken it.
    ///
    /// The seat is a worker's, with the lists. It noted or stored the item's run and its part. The
    /// part is for the engine `poster`.
    pub fn withdraw(
        &self,
        seat: &mut FabricSeat<H>,
        word: usize,
        part: PartItem,
        poster: u32,
        stream: u64,
    )
        requires own { seat.old.seat.table_id ≡ self.now.table.shared.table_id }
        requires word { word ≡ offset_of self.now.table.shared.key (Tag (1 + poster) part.item) }
        requires there { HasItem self.now.table.shared.key (1 + poster) part.item }
        requires main { (parts : ℕ) × (last : Bool) × HasLists seat.old.seat.me.0
            (ledger_of seat.old.seat.me.0) (Sending stream poster parts last part.item ∷ []) }
        requires holds { Holds (held_at (1 + poster)) part.item seat.old.seat.me.0 }
        requires run { run_said (1 + poster) seat.old.seat.me.0 part.item part.run }
        requires part { part_said (1 + poster) seat.old.seat.me.0 part.item part.part }
        ensures own { (seat.new.seat.table_id ≡ seat.old.seat.table_id)
            × (seat.new.seat.id ≡ seat.old.seat.id) }
        ensures told { Closes H H.reply_of self.now.table.shared.key seat.old.seat.id part.item
            stream poster part.part (numbers_of part.run) seat.old.seat.me seat.new.seat.me }
    {
        let about = (part, poster);
        self.exchange_word::<Brand, (PartItem, u32)>(&mut seat.seat, word, stream, 0, about);
    }
}
