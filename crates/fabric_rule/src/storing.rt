//! Stores of the run and part words of an item that a seat got and hasn't armed.
ghost use Rattle.std.specs.Prelude.{◌≡◌};
ghost use Rattle.port_message.specs.Words.{numbers_of};
ghost use Rattle.fabric_words.specs.Offsets.{offset_of};
ghost use Rattle.fabric_words.specs.declared.place.Place.TheVariants.{PartWord, RunWord};
ghost use Rattle.fabric_rule.specs.Storing.{HasRun, MayWrite, StoresPart, StoresRun};

use crate::table::{FabricSeat, FabricTable};
use std::marker::Brand;
use unit_types::Handlers;

impl<H: Handlers> FabricTable<H> {
    /// Says in which chunks the message of an item lies: one store of `word`, which is the item's
    /// run word.
    ///
    /// The seat got the item from the free ring of a queue that it fills, and knows its tag as 0.
    /// It has the run's chunks.
    pub fn store_run(&self, seat: &mut FabricSeat<H>, word: usize, queue: u32, item: u32, run: u64)
        requires own { seat.old.seat.table_id ≡ self.now.table.shared.table_id }
        requires word { word ≡ offset_of self.now.table.shared.key (RunWord queue item) }
        requires may { MayWrite self.now.table.shared.key seat.old.seat.me.0 queue item }
        requires run { HasRun self.now.table.shared.key seat.old.seat.me.0 queue (numbers_of run) }
        ensures own { (seat.new.seat.table_id ≡ seat.old.seat.table_id)
            × (seat.new.seat.id ≡ seat.old.seat.id) }
        ensures told { StoresRun H H.reply_of self.now.table.shared.key seat.old.seat.id queue item
            run seat.old.seat.me seat.new.seat.me }
    {
        self.store_word::<Brand, (u32, u32)>(&mut seat.seat, word, run, (queue, item));
    }

    /// Says which part the message of an item is: one store of `word`, which is the item's part
    /// word. In queue 0 it is the number of the engine that posts.
    ///
    /// The seat got the item from the free ring of a queue that it fills, and knows its tag as 0.
    pub fn store_part(
        &self,
        seat: &mut FabricSeat<H>,
        word: usize,
        queue: u32,
        item: u32,
        part: u64,
    )
        requires own { seat.old.seat.table_id ≡ self.now.table.shared.table_id }
        requires word { word ≡ offset_of self.now.table.shared.key (PartWord queue item) }
        requires may { MayWrite self.now.table.shared.key seat.old.seat.me.0 queue item }
        ensures own { (seat.new.seat.table_id ≡ seat.old.seat.table_id)
            × (seat.new.seat.id ≡ seat.old.seat.id) }
        ensures told { StoresPart H H.reply_of self.now.table.shared.key seat.old.seat.id queue item
            part seat.old.seat.me seat.new.seat.me }
    {
        self.store_word::<Brand, (u32, u32)>(&mut seat.seat, word, part, (queue, item));
    }
}
