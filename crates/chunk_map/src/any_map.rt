//! The single atomic steps of a chunk map, which a map in any table may have.
ghost use Rattle.std.specs.Prelude.{ℕ, ◌≡◌, ◌≤◌, ◌<◌, ◌+◌, ◌*◌, List, ◌∷◌, IsTrue, IsFalse};
ghost use Rattle.unit_model.specs.Limits.{segment_chunks};
ghost use Rattle.unit_model.specs.Weights.{is_number};
ghost use Rattle.chunk_map.specs.Looks.{open_seen};
ghost use Rattle.chunk_map.specs.declared.view.MapEvent.{MapEvent};
ghost use Rattle.chunk_map.specs.declared.view.MapEvent.TheVariants.{Gained, Missed, Released, SawOpen, SawWord};

/// A chunk map in a table, with its single atomic steps: each is one load of one word, or one change of one bit, and tells one
/// event. The search for a run and its contract are made of these alone.
pub trait MapSteps {
    /// What a thread steps with.
    type Seat;

    /// What a seat knows.
    ghost View: { Type 0 };

    ghost knows: { Self.Seat → View };

    /// The seat is one of the map's table.
    ghost belongs: { Self.Seat → Self → Type 0 };

    ghost segments: { Self → ℕ };

    /// What a view says of this map, newest first.
    ghost events: { Self → View → List MapEvent };

    /// What an event of this map makes of a view.
    ghost after: { Self → MapEvent → View → View };

    /// What the chunks weigh that the view holds of this map.
    ghost weighs: { Self → (ℕ → ℕ) → View → ℕ };

    /// Chunks may be taken.
    ghost may_take: { Self → View → Type 0 };

    /// Loads how many segments are open.
    fn see_open(&self, seat: &mut Self::Seat) -> u64
        requires own { belongs seat.old self.now }
        ensures own { belongs seat.new self.now }
        ensures count { (1 ≤ result) × (open_seen (events self.now (knows seat.old)) ≤ result)
            × (result ≤ segments self.now) × (segments self.now ≤ 8) }
        ensures view { knows seat.new ≡ after self.now (SawOpen result) (knows seat.old) };

    /// Loads a word of the map.
    fn see_word(&self, seat: &mut Self::Seat, number: usize) -> u64
        requires own { belongs seat.old self.now }
        requires number { number < 10 * segments self.now }
        ensures own { belongs seat.new self.now }
        ensures view { knows seat.new ≡ after self.now (SawWord number result) (knows seat.old) };

    /// Clears the chunk's bit. The chunk is the seat's where the bit was set.
    fn take(&self, seat: &mut Self::Seat, chunk: usize) -> bool
        requires own { belongs seat.old self.now }
        requires chunk { chunk < segment_chunks * segments self.now }
        requires open { chunk < segment_chunks * open_seen (events self.now (knows seat.old)) }
        requires may { may_take self.now (knows seat.old) }
        ensures own { belongs seat.new self.now }
        ensures gained { IsTrue result
            → knows seat.new ≡ after self.now (Gained chunk) (knows seat.old) }
        ensures missed { IsFalse result
            → knows seat.new ≡ after self.now (Missed chunk) (knows seat.old) };

    /// Sets the bit of a chunk that the seat holds.
    fn free(&self, seat: &mut Self::Seat, chunk: usize)
        requires own { belongs seat.old self.now }
        requires held { 0 < weighs self.now (is_number chunk) (knows seat.old) }
        ensures own { belongs seat.new self.now }
        ensures view { knows seat.new ≡ after self.now (Released chunk) (knows seat.old) };

    ghost logs: { (map : Self) (e : MapEvent) (v : View)
        → events map (after map e v) ≡ e ∷ events map v };

    ghost looks: { (map : Self) (f : ℕ → ℕ) (count : ℕ) (v : View)
        → weighs map f (after map (SawOpen count) v) ≡ weighs map f v };

    ghost reads: { (map : Self) (f : ℕ → ℕ) (number : ℕ) (found : ℕ) (v : View)
        → weighs map f (after map (SawWord number found) v) ≡ weighs map f v };

    ghost misses: { (map : Self) (f : ℕ → ℕ) (chunk : ℕ) (v : View)
        → weighs map f (after map (Missed chunk) v) ≡ weighs map f v };

    ghost gains: { (map : Self) (f : ℕ → ℕ) (chunk : ℕ) (v : View)
        → chunk < segment_chunks * segments map
        → weighs map f (after map (Gained chunk) v) ≡ f chunk + weighs map f v };

    ghost frees: { (map : Self) (f : ℕ → ℕ) (chunk : ℕ) (v : View)
        → 0 < weighs map (is_number chunk) v
        → weighs map f (after map (Released chunk) v) + f chunk ≡ weighs map f v };

    ghost keeps_may_take: { (map : Self) (e : MapEvent) (v : View)
        → may_take map v → may_take map (after map e v) };
}
