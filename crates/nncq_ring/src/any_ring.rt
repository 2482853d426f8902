//! The single atomic steps of a ring, which a ring in any table may have.
ghost use Rattle.std.specs.Prelude.{ℕ, ◌≡◌, ◌≢◌, ◌≤◌, ◌<◌, ◌+◌, ◌^◌, ◌/◌, ◌%◌, List, ◌∷◌};
ghost use mathlib.Core.Option.{some};
ghost use lib.ListN.{get_elem?};
ghost use Rattle.nncq_ring.specs.Moments.{PutLast, TookFirst, WasEmpty, WasEntry, WasHead, WasTail};
ghost use Rattle.nncq_ring.specs.Shown.{SawPlace, ShowsFilled};
ghost use Rattle.nncq_ring.specs.Turns.{IsLook};
ghost use Rattle.nncq_ring.specs.declared.view.RingEvent.{RingEvent};
ghost use Rattle.nncq_ring.specs.declared.view.RingEvent.TheVariants.{Popped, Pushed, SawEntry, SawHead, SawTail};

/// One ring in a table, with its single atomic steps: each is one load or one exchange of one word, and tells one event. Turns
/// and their contracts are made of these alone.
pub trait RingSteps {
    /// What a thread steps with.
    type Seat;

    /// What a seat knows.
    ghost View: { Type 0 };

    ghost knows: { Self.Seat → View };

    /// The seat is one of the ring's table.
    ghost belongs: { Self.Seat → Self → Type 0 };

    /// The ring's size.
    ghost slots: { Self → ℕ };

    /// What a view noted of this ring, newest first.
    ghost events: { Self → View → List RingEvent };

    /// A step with this event may make of the first view the second. It may say more of both than the event.
    ghost steps: { Self → RingEvent → View → View → Type 0 };

    /// The value may be put.
    ghost may_put: { Self → ℕ → View → Type 0 };

    /// The first of the line may be taken.
    ghost may_take: { Self → View → Type 0 };

    fn slot_count(&self) -> u32
        ensures { (result ≡ slots self.now) × (1 ≤ result) };

    /// Loads the tail.
    fn see_tail(&self, seat: &mut Self::Seat) -> u64
        requires own { belongs seat.old self.now }
        ensures own { belongs seat.new self.now }
        ensures most { result ≤ 2 ^ 62 }
        ensures was { WasTail (slots self.now) result (events self.now (knows seat.old)) }
        ensures view { steps self.now (SawTail result) (knows seat.old) (knows seat.new) };

    /// Loads the head.
    fn see_head(&self, seat: &mut Self::Seat) -> u64
        requires own { belongs seat.old self.now }
        ensures own { belongs seat.new self.now }
        ensures most { result ≤ 2 ^ 62 }
        ensures was { WasHead (slots self.now) result (events self.now (knows seat.old)) }
        ensures view { steps self.now (SawHead result) (knows seat.old) (knows seat.new) };

    /// Loads the entry at the place's slot.
    fn see_entry(&self, seat: &mut Self::Seat, place: u64) -> u64
        requires own { belongs seat.old self.now }
        ensures own { belongs seat.new self.now }
        ensures was { WasEntry (slots self.now) place result (events self.now (knows seat.old)) }
        ensures near { SawPlace place (events self.now (knows seat.old))
            → place / slots self.now ≤ result / slots self.now + 1 }
        ensures empty { get_elem? (events self.now (knows seat.old)) 0 ≡ some (SawHead place)
            → result / slots self.now + 1 ≡ place / slots self.now
            → WasEmpty (slots self.now) place (events self.now (knows seat.old)) }
        ensures view { steps self.now (SawEntry place result) (knows seat.old) (knows seat.new) };

    /// Exchanges the entry for that of the place and the value. The result is what was found.
    fn put(&self, seat: &mut Self::Seat, place: u64, entry: u64, v: u32) -> u64
        requires own { belongs seat.old self.now }
        requires fresh { place < 2 ^ 62 }
        requires may { may_put self.now v (knows seat.old) }
        requires before { entry / slots self.now + 1 ≡ place / slots self.now }
        requires looked { get_elem? (events self.now (knows seat.old)) 0
            ≡ some (SawEntry place entry) }
        requires seen { get_elem? (events self.now (knows seat.old)) 1 ≡ some (SawTail place) }
        ensures own { belongs seat.new self.now }
        ensures won { result ≡ entry
            → (steps self.now (Pushed place v) (knows seat.old) (knows seat.new))
            × PutLast (slots self.now) place v (events self.now (knows seat.old)) }
        ensures missed { result ≢ entry
            → (steps self.now (SawEntry place result) (knows seat.old) (knows seat.new))
            × (place / slots self.now ≤ result / slots self.now) };

    /// Exchanges the head for the next place. The result is what was found.
    fn take(&self, seat: &mut Self::Seat, place: u64, entry: u64) -> u64
        requires own { belongs seat.old self.now }
        requires most { place ≤ 2 ^ 62 }
        requires may { may_take self.now (knows seat.old) }
        requires full { entry / slots self.now ≡ place / slots self.now }
        requires looked { get_elem? (events self.now (knows seat.old)) 0
            ≡ some (SawEntry place entry) }
        requires seen { get_elem? (events self.now (knows seat.old)) 1 ≡ some (SawHead place) }
        ensures own { belongs seat.new self.now }
        ensures won { result ≡ place
            → (steps self.now (Popped place (entry % slots self.now)) (knows seat.old)
            (knows seat.new))
            × TookFirst (slots self.now) place (entry % slots self.now)
            (events self.now (knows seat.old)) }
        ensures missed { result ≢ place
            → (steps self.now (SawHead result) (knows seat.old) (knows seat.new))
            × (place < result) };

    /// Helps the tail on, so that it is past the place.
    fn move_tail(&self, seat: &mut Self::Seat, place: u64)
        requires own { belongs seat.old self.now }
        requires fresh { place < 2 ^ 62 }
        requires shown { ShowsFilled (slots self.now) place (events self.now (knows seat.old)) }
        ensures own { belongs seat.new self.now }
        ensures view { (tail : ℕ) × (place < tail)
            × (steps self.now (SawTail tail) (knows seat.old) (knows seat.new)) };

    ghost logs: { (ring : Self) (e : RingEvent) (v u : View) → steps ring e v u
        → events ring u ≡ e ∷ events ring v };

    ghost looks_keep: { (ring : Self) (e : RingEvent) (value : ℕ) (v u : View) → IsLook e
        → steps ring e v u → may_put ring value v → may_put ring value u };

    ghost looks_keep_take: { (ring : Self) (e : RingEvent) (v u : View) → IsLook e
        → steps ring e v u → may_take ring v → may_take ring u };
}
