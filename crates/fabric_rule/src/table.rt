//! The table of a fabric, and its atomic steps.
ghost use Rattle.std.specs.Prelude.{ℕ, ◌≡◌, ◌≢◌, ◌*◌, [], ◌∷◌, ◌≤◌, ◌<◌, ◌==◌, ◌/◌, ◌%◌, ◌^◌, bit_and, bit_or};
ghost use Rattle.fabric_words.specs.Offsets.{offset_of, width_of};
ghost use Rattle.fabric_words.specs.Places.{queues_of, segments_of};
ghost use Rattle.unit_model.specs.Limits.{segment_chunks};
ghost use Rattle.fabric_rule.specs.Contents.{CarriesSlots};

use crate::view::FabricView;
use app_queue::Side;
use atomic_table::{Play, Seat, Table, TableRule};
use request_context::Parcel;
use std::alloc::Global;
use std::marker::{Brand, PhantomData};
use unit_model::Shape;
use unit_types::Handlers;

/// The rule of the table. The table is told its shape.
pub struct FabricRule<H> {
    handlers: PhantomData<H>,
}

impl<H: Handlers> TableRule<Option<Parcel<H>>, FabricView, Shape> for FabricRule<H> {
    ghost use Rattle.fabric_rule.specs.Opening.{first_view};
    ghost use Rattle.fabric_rule.specs.Rule.{FabricHolds};

    ghost holds = { FabricHolds H.reply_of };

    ghost first = { first_view };
}

/// What a step tells of the number that it found and of the seat after it. A call picks it.
pub trait Tells<S> {
    ghost use Rattle.atomic_table.specs.Table.{Me};
    ghost use Rattle.fabric_rule.specs.declared.view.FabricView.{FabricView};

    ghost tells: { ℕ → Me S FabricView → Type 0 };
}

impl<S> Tells<S> for Brand {
    ghost tells = { λ found me. Unit {0} };
}

/// The play of a step that tells what the call picked.
pub struct Telling<J> {
    pick: PhantomData<J>,
}

impl<S, J: Tells<S>> Play<S, FabricView> for Telling<J> {
    ghost then = { λ st m found m'. J.tells found m' };
}

/// A line item that a worker holds, with the run and the poster that its words say.
#[derive(Clone, Copy, Drop)]
pub struct HeldRequest {
    pub item: u32,
    pub run: u64,
    pub poster: u64,
}

/// An item that was got from the free ring at a place, with the run that its word says.
#[derive(Clone, Copy, Drop)]
pub struct GotItem {
    pub item: u32,
    pub place: u64,
    pub run: u64,
}

/// The words of a fabric of a shape, with a slot for each chunk, which holds a parcel or is empty.
#[derive(Drop)]
pub struct FabricTable<H: Handlers> {
    pub(crate) table: Table<Option<Parcel<H>>, FabricView, Shape, FabricRule<H>, Global>,
    ghost wide: { width_of table.shared.key ≤ table.shared.table_id.words },
    ghost slots: { table.shared.table_id.slots ≡ segment_chunks * segments_of table.shared.key },
}

/// What a thread steps with. It has no bytes. It carries the slots of exactly the chunks that its view has.
#[derive(Drop)]
pub struct FabricSeat<H: Handlers> {
    pub(crate) seat: Seat<Option<Parcel<H>>, FabricView>,
    ghost carries: { CarriesSlots seat.me },
}

impl<H: Handlers> FabricTable<H> {
    ghost use mathlib.Core.Option.{some};
    ghost use lib.ListN.{get_elem?};
    ghost use prog.Atomic.{either};
    ghost use Rattle.atomic_table.specs.Table.{Allows};
    ghost use Rattle.app_queue.specs.declared.side.Side.TheVariants.{Free, Line};
    ghost use Rattle.nncq_ring.specs.declared.view.RingEvent.{RingEvent};
    ghost use Rattle.nncq_ring.specs.declared.view.RingEvent.TheVariants.{SawEntry, SawHead};
    ghost use Rattle.unit_model.specs.Shapes.{role_in};
    ghost use Rattle.unit_model.specs.Holding.{FitsQueue, items_of};
    ghost use Rattle.unit_model.specs.Sharing.{Holds};
    ghost use Rattle.port_message.specs.Words.{numbers_of};
    ghost use Rattle.fabric_words.specs.declared.place.Place.TheVariants.{Head, Tag, Tail};
    ghost use Rattle.fabric_words.specs.declared.place.Side.TheVariants.{FreeSide, LineSide};
    ghost use Rattle.fabric_rule.specs.Opening.{ledger_of};
    ghost use Rattle.fabric_rule.specs.Rule.{FabricHolds};
    ghost use Rattle.fabric_rule.specs.Steps.{HasLists, IsEndAbove, IsMain};
    ghost use Rattle.fabric_rule.specs.Told.{CarriesRequest, Gets, Helps, Pops, Posts, SawFirst, Takes};
    ghost use Rattle.fabric_rule.specs.Views.{emptied_by, got_at, held_at, log_at, part_said, run_said, word_side};
    ghost use Rattle.fabric_rule.specs.declared.view.Work.TheVariants.{Drawn, Holding};

    // The word as it was, which has become the new one where it was the old one.
    pub(crate) fn exchange_word<J: Tells<Option<Parcel<H>>>, W: Drop>(
        &self,
        seat: &mut Seat<Option<Parcel<H>>, FabricView>,
        word: usize,
        old: u64,
        new: u64,
        _about: W,
    ) -> u64
        requires own { seat.old.table_id ≡ self.now.table.shared.table_id }
        requires there { word < self.now.table.shared.table_id.words }
        requires allowed { Allows (FabricHolds H.reply_of self.now.table.shared.key)
            self.now.table.shared.table_id.slots seat.old.id seat.old.me
            word (λ n. either (n == old) new n) (λ n m. J.tells n m) }
        ensures own { (seat.new.table_id ≡ seat.old.table_id) × (seat.new.id ≡ seat.old.id) }
        ensures told { J.tells result seat.new.me }
    {
        let table = &self.table;
        let shared = &table.shared;
        shared.compare_exchange::<Telling<J>>(seat, word, old, new)
    }

    // The word as it is.
    pub(crate) fn load_word<J: Tells<Option<Parcel<H>>>, W: Drop>(
        &self,
        seat: &mut Seat<Option<Parcel<H>>, FabricView>,
        word: usize,
        _about: W,
    ) -> u64
        requires own { seat.old.table_id ≡ self.now.table.shared.table_id }
        requires there { word < self.now.table.shared.table_id.words }
        requires allowed { Allows (FabricHolds H.reply_of self.now.table.shared.key)
            self.now.table.shared.table_id.slots seat.old.id seat.old.me
            word (λ n. n) (λ n m. J.tells n m) }
        ensures own { (seat.new.table_id ≡ seat.old.table_id) × (seat.new.id ≡ seat.old.id) }
        ensures told { J.tells result seat.new.me }
    {
        let table = &self.table;
        let shared = &table.shared;
        shared.load::<Telling<J>>(seat, word)
    }

    // The word has become the new one.
    pub(crate) fn store_word<J: Tells<Option<Parcel<H>>>, W: Drop>(
        &self,
        seat: &mut Seat<Option<Parcel<H>>, FabricView>,
        word: usize,
        new: u64,
        _about: W,
    )
        requires own { seat.old.table_id ≡ self.now.table.shared.table_id }
        requires there { word < self.now.table.shared.table_id.words }
        requires allowed { Allows (FabricHolds H.reply_of self.now.table.shared.key)
            self.now.table.shared.table_id.slots seat.old.id seat.old.me
            word (λ _. new) (λ n m. J.tells new m) }
        ensures own { (seat.new.table_id ≡ seat.old.table_id) × (seat.new.id ≡ seat.old.id) }
        ensures told { J.tells new seat.new.me }
    {
        let table = &self.table;
        let shared = &table.shared;
        shared.store::<Telling<J>>(seat, word, new);
    }

    // The word as it was, which has kept the bits of the mask.
    pub(crate) fn and_word<J: Tells<Option<Parcel<H>>>, W: Drop>(
        &self,
        seat: &mut Seat<Option<Parcel<H>>, FabricView>,
        word: usize,
        mask: u64,
        _about: W,
    ) -> u64
        requires own { seat.old.table_id ≡ self.now.table.shared.table_id }
        requires there { word < self.now.table.shared.table_id.words }
        requires allowed { Allows (FabricHolds H.reply_of self.now.table.shared.key)
            self.now.table.shared.table_id.slots seat.old.id seat.old.me
            word (λ n. bit_and n mask) (λ n m. J.tells n m) }
        ensures own { (seat.new.table_id ≡ seat.old.table_id) × (seat.new.id ≡ seat.old.id) }
        ensures told { J.tells result seat.new.me }
    {
        let table = &self.table;
        let shared = &table.shared;
        shared.fetch_and::<Telling<J>>(seat, word, mask)
    }

    // The word as it was, which has got the bits of the mask.
    pub(crate) fn or_word<J: Tells<Option<Parcel<H>>>, W: Drop>(
        &self,
        seat: &mut Seat<Option<Parcel<H>>, FabricView>,
        word: usize,
        mask: u64,
        _about: W,
    ) -> u64
        requires own { seat.old.table_id ≡ self.now.table.shared.table_id }
        requires there { word < self.now.table.shared.table_id.words }
        requires allowed { Allows (FabricHolds H.reply_of self.now.table.shared.key)
            self.now.table.shared.table_id.slots seat.old.id seat.old.me
            word (λ n. bit_or n mask) (λ n m. J.tells n m) }
        ensures own { (seat.new.table_id ≡ seat.old.table_id) × (seat.new.id ≡ seat.old.id) }
        ensures told { J.tells result seat.new.me }
    {
        let table = &self.table;
        let shared = &table.shared;
        shared.fetch_or::<Telling<J>>(seat, word, mask)
    }

    /// Takes the first item of the line of the queue that the seat empties, where its head is still `place`: one exchange of `word`,
    /// which stands where that head does. A worker empties queue 0, and each engine a back queue. The head as it was.
    ///
    /// The seat is a main seat. It saw the head at this place, and then this entry, which has the head's cycle.
    pub fn pop(
        &self,
        seat: &mut FabricSeat<H>,
        word: usize,
        queue: u32,
        place: u64,
        entry: u64,
    ) -> u64
        requires own { seat.old.seat.table_id ≡ self.now.table.shared.table_id }
        requires word { word ≡ offset_of self.now.table.shared.key (Head queue LineSide) }
        requires there { queue < queues_of self.now.table.shared.key }
        requires main { IsMain seat.old.seat.me.0 (ledger_of seat.old.seat.me.0) }
        requires role { role_in self.now.table.shared.key seat.old.seat.me.0.seat ≤ 1 }
        requires empties { queue ≡ emptied_by self.now.table.shared.key seat.old.seat.me.0.seat }
        requires low { place < 2 ^ 63 }
        requires saw { SawFirst (items_of self.now.table.shared.key queue)
            (log_at queue Line seat.old.seat.me.0) place entry }
        ensures own { (seat.new.seat.table_id ≡ seat.old.seat.table_id)
            × (seat.new.seat.id ≡ seat.old.seat.id) }
        ensures slots { seat.new.seat.me.1 ≡ seat.old.seat.me.1 }
        ensures told { Pops H H.reply_of self.now.table.shared.key seat.old.seat.id queue place
            (entry % items_of self.now.table.shared.key queue) seat.old.seat.me.0 result
            seat.new.seat.me.0 }
    {
        let about = (queue, entry);
        self.exchange_word::<Brand, (u32, u64)>(&mut seat.seat, word, place, place + 1, about)
    }

    /// Gets the first free item of a queue that the seat fills, where the head of its free ring is still `place`: one exchange of
    /// `word`, which stands where that head does. Engines fill queue 0, and workers the back queues. The head as it was.
    ///
    /// The seat has a work. It saw the head at this place, and then this entry, which has the head's cycle.
    pub fn get_item(
        &self,
        seat: &mut FabricSeat<H>,
        word: usize,
        queue: u32,
        place: u64,
        entry: u64,
    ) -> u64
        requires own { seat.old.seat.table_id ≡ self.now.table.shared.table_id }
        requires word { word ≡ offset_of self.now.table.shared.key (Head queue FreeSide) }
        requires there { queue < queues_of self.now.table.shared.key }
        requires busy { seat.old.seat.me.0.works ≢ [] }
        requires fills { (role_in self.now.table.shared.key seat.old.seat.me.0.seat == 0)
            ≡ (queue == 0) }
        requires low { place < 2 ^ 63 }
        requires saw { SawFirst (items_of self.now.table.shared.key queue)
            (log_at queue Free seat.old.seat.me.0) place entry }
        ensures own { (seat.new.seat.table_id ≡ seat.old.seat.table_id)
            × (seat.new.seat.id ≡ seat.old.seat.id) }
        ensures slots { seat.new.seat.me.1 ≡ seat.old.seat.me.1 }
        ensures told { Gets H H.reply_of self.now.table.shared.key seat.old.seat.id queue place
            (entry % items_of self.now.table.shared.key queue) seat.old.seat.me.0 result
            seat.new.seat.me.0 }
    {
        let found = (queue, entry);
        self.exchange_word::<Brand, (u32, u64)>(&mut seat.seat, word, place, place + 1, found)
    }

    /// Moves the tail of a ring on, where it is still `place`: one exchange of `word`, which stands where that tail does. The tail as
    /// it was.
    ///
    /// The seat pushed at this place, or saw it filled.
    pub fn help(
        &self,
        seat: &mut FabricSeat<H>,
        word: usize,
        queue: u32,
        side: Side,
        place: u64,
    ) -> u64
        requires own { seat.old.seat.table_id ≡ self.now.table.shared.table_id }
        requires word { word ≡ offset_of self.now.table.shared.key (Tail queue (word_side side)) }
        requires there { queue < queues_of self.now.table.shared.key }
        requires low { place < 2 ^ 63 }
        requires above { (at : ℕ) × (e : RingEvent)
            × (get_elem? (log_at queue side seat.old.seat.me.0) at ≡ some e)
            × IsEndAbove (items_of self.now.table.shared.key queue) place e }
        ensures own { (seat.new.seat.table_id ≡ seat.old.seat.table_id)
            × (seat.new.seat.id ≡ seat.old.seat.id) }
        ensures told { Helps H H.reply_of self.now.table.shared.key seat.old.seat.id queue side place
            seat.old.seat.me result seat.new.seat.me }
    {
        let about = (queue, side);
        self.exchange_word::<Brand, (u32, Side)>(&mut seat.seat, word, place, place + 1, about)
    }

    /// Takes the request of a line item that a worker holds: one exchange of `word`, which is the item's tag, from the stream to 0.
    /// The tag as it was.
    ///
    /// The seat is a worker's main seat that has popped the item, and noted its run and its poster.
    pub fn take(&self, seat: &mut FabricSeat<H>, word: usize, held: HeldRequest, stream: u64) -> u64
        requires own { seat.old.seat.table_id ≡ self.now.table.shared.table_id }
        requires word { word ≡ offset_of self.now.table.shared.key (Tag 0 held.item) }
        requires there { held.item < self.now.table.shared.key.items }
        requires main { HasLists seat.old.seat.me.0 (ledger_of seat.old.seat.me.0) (Holding ∷ []) }
        requires worker { role_in self.now.table.shared.key seat.old.seat.me.0.seat ≡ 1 }
        requires holds { Holds (held_at 0) held.item seat.old.seat.me.0 }
        requires run { run_said 0 seat.old.seat.me.0 held.item held.run }
        requires poster { part_said 0 seat.old.seat.me.0 held.item held.poster }
        requires some { stream ≢ 0 }
        ensures own { (seat.new.seat.table_id ≡ seat.old.seat.table_id)
            × (seat.new.seat.id ≡ seat.old.seat.id) }
        ensures told { Takes H H.reply_of self.now.table.shared.key seat.old.seat.id held.item
            stream held.poster (numbers_of held.run) seat.old.seat.me result seat.new.seat.me }
    {
        self.exchange_word::<Brand, HeldRequest>(&mut seat.seat, word, stream, 0, held)
    }

    /// Posts a request with a line item that an engine got from the free ring: one store of `word`, which is the item's tag.
    ///
    /// The seat is an engine's, with the lists and the stream that it drew. It noted or stored the item's run, and its number as the
    /// item's part. The run's slots have the pieces of the request's record; they go home with the stream.
    pub fn post(&self, seat: &mut FabricSeat<H>, word: usize, got: GotItem, stream: u64)
        requires own { seat.old.seat.table_id ≡ self.now.table.shared.table_id }
        requires word { word ≡ offset_of self.now.table.shared.key (Tag 0 got.item) }
        requires there { got.item < self.now.table.shared.key.items }
        requires main { HasLists seat.old.seat.me.0 (ledger_of seat.old.seat.me.0)
            (Drawn stream ∷ []) }
        requires engine { role_in self.now.table.shared.key seat.old.seat.me.0.seat ≡ 0 }
        requires holds { Holds (held_at 0) got.item seat.old.seat.me.0 }
        requires got { got_at 0 seat.old.seat.me.0 got.item got.place }
        requires run { run_said 0 seat.old.seat.me.0 got.item got.run }
        requires part { part_said 0 seat.old.seat.me.0 got.item seat.old.seat.me.0.seat }
        requires fits { FitsQueue self.now.table.shared.key 0 (numbers_of got.run) }
        requires carries { CarriesRequest stream (numbers_of got.run) seat.old.seat.me.1 }
        ensures own { (seat.new.seat.table_id ≡ seat.old.seat.table_id)
            × (seat.new.seat.id ≡ seat.old.seat.id) }
        ensures told { Posts H H.reply_of self.now.table.shared.key seat.old.seat.id got.item
            got.place stream got.run seat.old.seat.me seat.new.seat.me }
    {
        self.store_word::<Brand, GotItem>(&mut seat.seat, word, stream, got);
    }
}
