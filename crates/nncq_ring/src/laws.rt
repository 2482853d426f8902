//! Laws on the words of a ring. Each function does nothing: its contract is the law.
ghost use Rattle.std.specs.Prelude.{◌≡◌, ◌∷◌, List, ℕ, set};
ghost use mathlib.Core.Option.{some};
ghost use lib.ListN.{get_elem?};
ghost use Rattle.nncq_ring.specs.Later.{Later};
ghost use Rattle.nncq_ring.specs.Notes.{Noted, RingPart};
ghost use Rattle.nncq_ring.specs.Words.{IsWellFormed, Words};
ghost use Rattle.nncq_ring.specs.declared.view.RingEvent.{RingEvent};
ghost use Rattle.nncq_ring.specs.LineLaws.{EmptySeen, FullSeen, LookNoted, MayHelp, MayTake, NotesStay, SameWordsStay, Starts, StartsInOrder, EntryExchange, EntryExchangeLater, HeadExchange, HeadExchangeLater, RoomFromOwnership, TailExchange, TailExchangeLater};

/// An entry exchange that is won puts its value last in the line, at the place for which it was read, and makes the words later.
pub fn won_entry_exchange()
    ensures line { EntryExchange }
    ensures later { EntryExchangeLater }
{}

/// A tail exchange that is won, by whoever helps, leaves the line and makes the words later.
pub fn won_tail_exchange()
    ensures line { TailExchange }
    ensures later { TailExchangeLater }
{}

/// A head exchange that is won takes the first of the line and makes the words later.
pub fn won_head_exchange()
    ensures line { HeadExchange }
    ensures later { HeadExchangeLater }
{}

/// Where the line and what is held weigh what all numbers below the size weigh, and something is held, the line isn't full.
pub fn there_is_room()
    ensures { RoomFromOwnership }
{}

/// An entry with the cycle before that of the head shows that the line is empty.
pub fn empty_is_seen()
    ensures { EmptySeen }
{}

/// An entry with the cycle of its place shows that the logical tail is above that place.
pub fn full_is_seen()
    ensures { FullSeen }
{}

/// Where the logical tail is above the tail, the entry at the tail has its cycle, so the tail may move on.
pub fn tail_may_be_helped()
    ensures { MayHelp }
{}

/// A head that is what it was still has the entry that was seen there with its cycle.
pub fn head_may_be_taken()
    ensures { MayTake }
{}

/// A ring whose entries have the cycles of the places before its start is well formed and empty.
pub fn a_ring_starts_empty()
    ensures { Starts }
{}

/// A ring that starts full has all values in ascending order at the places from the start on.
pub fn a_ring_starts_full()
    ensures { StartsInOrder }
{}

/// A step that changes none of a ring's words leaves its line, its logical tail and all notes.
pub fn same_words_stay()
    ensures { SameWordsStay }
{}

/// What was noted of the words stays true as they become later.
pub fn notes_stay_true()
    ensures { NotesStay }
{}

/// An entry that is read now may be noted.
pub fn a_look_is_noted()
    ensures { LookNoted }
{}

/// A ring's part of a rule is kept by a step that makes the words later and notes one event.
pub fn parts_step()
    ensures { (n : ℕ) (w : Words) (views : List (List RingEvent)) (k : ℕ) (v : List RingEvent)
        → get_elem? views k ≡ some v → RingPart n (λ log. log) w views
        → (w' : Words) (e : RingEvent) → Later n w w' → IsWellFormed n w' → Noted n w' e
        → RingPart n (λ log. log) w' (set views k (e ∷ v)) }
{}
