//! The atomic steps of a ring's table: each is one load or one exchange of one word.
ghost use Rattle.std.specs.Prelude.{◌≡◌, ◌≢◌, ◌≤◌, ◌<◌, ◌+◌, ◌^◌, ◌/◌, ◌%◌, ℕ};

use crate::opening::{ENTRIES, HEAD, TAIL};
use crate::plays::{Aim, Helping, Putting, SeeingEntry, SeeingHead, SeeingTail, Taking};
use crate::ring::Ring;
use crate::seat::RingSeat;

impl Ring {
    ghost use mathlib.Core.Option.{some};
    ghost use lib.ListN.{get_elem?};
    ghost use Rattle.unit_model.specs.Sharing.{Holds};
    ghost use Rattle.nncq_ring.specs.Moments.{PutLast, TookFirst, WasEmpty, WasEntry, WasHead, WasTail};
    ghost use Rattle.nncq_ring.specs.Rule.{IsPast};
    ghost use Rattle.nncq_ring.specs.Seats.{BelongsTo, knows};
    ghost use Rattle.nncq_ring.specs.Shown.{SawPlace, ShowsFilled};
    ghost use Rattle.nncq_ring.specs.Views.{events_of, held_by, makes};
    ghost use Rattle.nncq_ring.specs.declared.view.RingEvent.TheVariants.{Popped, Pushed, SawEntry, SawHead, SawTail};

    pub(crate) fn load_tail<J: Aim>(&self, seat: &mut RingSeat) -> u64
        requires own { BelongsTo seat.old self.now }
        requires aim { J.size ≡ self.now.size }
        ensures own { BelongsTo seat.new self.now }
        ensures most { result ≤ 2 ^ 62 }
        ensures was { WasTail self.now.size result (events_of (knows seat.old)) }
        ensures view { makes (SawTail result) (knows seat.old) (knows seat.new) }
    {
        let table = &self.table;
        let shared = &table.shared;
        shared.load::<SeeingTail<J>>(&mut seat.seat, TAIL)
    }

    pub(crate) fn load_head<J: Aim>(&self, seat: &mut RingSeat) -> u64
        requires own { BelongsTo seat.old self.now }
        requires aim { J.size ≡ self.now.size }
        ensures own { BelongsTo seat.new self.now }
        ensures most { result ≤ 2 ^ 62 }
        ensures was { WasHead self.now.size result (events_of (knows seat.old)) }
        ensures view { makes (SawHead result) (knows seat.old) (knows seat.new) }
    {
        let table = &self.table;
        let shared = &table.shared;
        shared.load::<SeeingHead<J>>(&mut seat.seat, HEAD)
    }

    fn word_of(&self, place: u64) -> usize
        ensures { (result ≡ 48 + place % self.now.size) × (result < self.now.size + 48) }
    {
        ENTRIES + (place % self.size as u64) as usize
    }

    pub(crate) fn load_entry<J: Aim>(&self, seat: &mut RingSeat, place: u64) -> u64
        requires own { BelongsTo seat.old self.now }
        requires aim { (J.size ≡ self.now.size) × (J.place ≡ place) }
        ensures own { BelongsTo seat.new self.now }
        ensures view { makes (SawEntry place result) (knows seat.old) (knows seat.new) }
        ensures was { WasEntry self.now.size place result (events_of (knows seat.old)) }
        ensures near { SawPlace place (events_of (knows seat.old))
            → place / self.now.size ≤ result / self.now.size + 1 }
        ensures empty { get_elem? (events_of (knows seat.old)) 0 ≡ some (SawHead place)
            → result / self.now.size + 1 ≡ place / self.now.size
            → WasEmpty self.now.size place (events_of (knows seat.old)) }
    {
        let word = self.word_of(place);
        let table = &self.table;
        let shared = &table.shared;
        shared.load::<SeeingEntry<J>>(&mut seat.seat, word)
    }

    // Exchanges the entry for that of the place and the value. The result is what was found.
    pub(crate) fn exchange_entry<J: Aim>(
        &self,
        seat: &mut RingSeat,
        place: u64,
        entry: u64,
        v: u32,
    ) -> u64
        requires own { BelongsTo seat.old self.now }
        requires aim { (J.size ≡ self.now.size) × (J.place ≡ place) × (J.value ≡ v) }
        requires fresh { place < 2 ^ 62 }
        requires held { Holds held_by v (knows seat.old) }
        requires before { entry / self.now.size + 1 ≡ place / self.now.size }
        requires looked { get_elem? (events_of (knows seat.old)) 0 ≡ some (SawEntry place entry) }
        requires seen { get_elem? (events_of (knows seat.old)) 1 ≡ some (SawTail place) }
        ensures own { BelongsTo seat.new self.now }
        ensures won { result ≡ entry → makes (Pushed place v) (knows seat.old) (knows seat.new)
            × PutLast self.now.size place v (events_of (knows seat.old)) }
        ensures missed { result ≢ entry
            → makes (SawEntry place result) (knows seat.old) (knows seat.new)
            × (place / self.now.size ≤ result / self.now.size) }
    {
        let word = self.word_of(place);
        let turn = place - place % self.size as u64;
        let table = &self.table;
        let shared = &table.shared;
        shared.compare_exchange::<Putting<J>>(&mut seat.seat, word, entry, turn + v as u64)
    }

    // Exchanges the head for the next place. The result is what was found.
    pub(crate) fn exchange_head<J: Aim>(&self, seat: &mut RingSeat, place: u64, entry: u64) -> u64
        requires own { BelongsTo seat.old self.now }
        requires aim { (J.size ≡ self.now.size) × (J.value ≡ entry % self.now.size) }
        requires most { place ≤ 2 ^ 62 }
        requires full { entry / self.now.size ≡ place / self.now.size }
        requires looked { get_elem? (events_of (knows seat.old)) 0 ≡ some (SawEntry place entry) }
        requires seen { get_elem? (events_of (knows seat.old)) 1 ≡ some (SawHead place) }
        ensures own { BelongsTo seat.new self.now }
        ensures won { result ≡ place
            → makes (Popped place (entry % self.now.size)) (knows seat.old) (knows seat.new)
            × TookFirst self.now.size place (entry % self.now.size) (events_of (knows seat.old)) }
        ensures missed { result ≢ place → makes (SawHead result) (knows seat.old) (knows seat.new)
            × (place < result) }
    {
        let table = &self.table;
        let shared = &table.shared;
        shared.compare_exchange::<Taking<J>>(&mut seat.seat, HEAD, place, place + 1)
    }

    // Helps the tail on, so that it is past the place.
    pub(crate) fn exchange_tail(&self, seat: &mut RingSeat, place: u64)
        requires own { BelongsTo seat.old self.now }
        requires fresh { place < 2 ^ 62 }
        requires shown { ShowsFilled self.now.size place (events_of (knows seat.old)) }
        ensures own { BelongsTo seat.new self.now }
        ensures view { IsPast place (knows seat.old) (knows seat.new) }
    {
        let table = &self.table;
        let shared = &table.shared;
        shared.compare_exchange::<Helping>(&mut seat.seat, TAIL, place, place + 1);
    }
}
