//! Laws on the words of a map, and what the rule says of all seats. Each function does nothing: its contract is the law.
ghost use Rattle.std.specs.Prelude.{◌≡◌, ◌≢◌, ◌+◌, ◌*◌, ◌/◌, ◌<◌, ◌≤◌, List, ℕ, set, slice_index, true};
ghost use Rattle.unit_model.specs.Limits.{segment_chunks};
ghost use mathlib.Core.Option.{some};
ghost use lib.ListN.{get_elem?};
ghost use Rattle.atomic_table.specs.Table.{State};
ghost use Rattle.unit_model.specs.Weights.{weigh, is_number, one_if};
ghost use Rattle.chunk_map.specs.Parts.{OpenPart};
ghost use Rattle.chunk_map.specs.Rule.{MapHolds, map_words};
ghost use Rattle.chunk_map.specs.Views.{held_by, openings_of};
ghost use Rattle.chunk_map.specs.Words.{is_free, free_weight, Takes, Frees, Stays};
ghost use Rattle.chunk_map.specs.declared.view.MapView.{MapView};

/// By any weight, a chunk that is taken weighs what the free ones lose.
pub fn free_weight_falls()
    ensures { (n : ℕ) (word : ℕ → ℕ) (word' : ℕ → ℕ) (chunk : ℕ) → chunk < n
        → Takes n word word' chunk → (f : ℕ → ℕ)
        → free_weight word' n f + f chunk ≡ free_weight word n f }
{}

/// By any weight, a chunk that is given back weighs what the free ones gain.
pub fn free_weight_rises()
    ensures { (n : ℕ) (word : ℕ → ℕ) (word' : ℕ → ℕ) (chunk : ℕ) → chunk < n
        → Frees n word word' chunk → (f : ℕ → ℕ)
        → free_weight word' n f ≡ free_weight word n f + f chunk }
{}

/// Where no chunk changed, the free ones weigh what they did.
pub fn free_weight_stays()
    ensures { (n : ℕ) (word : ℕ → ℕ) (word' : ℕ → ℕ) → Stays n word word' → (f : ℕ → ℕ)
        → free_weight word' n f ≡ free_weight word n f }
{}

/// The part on open segments is kept by a step after which no fewer are open, the seat has seen no more than are open, and
/// each chunk of a closed segment that was free still is.
pub fn open_part_steps()
    ensures { (segments : ℕ) (opened : ℕ) (opened' : ℕ) (word : ℕ → ℕ) (word' : ℕ
        → ℕ) (views : List ℕ) (k : ℕ) (u : ℕ) → opened ≤ opened' → opened' ≤ segments
        → u ≤ opened' → ((chunk : ℕ) → chunk < segment_chunks * segments
        → opened' ≤ chunk / segment_chunks → is_free word chunk ≡ true → is_free word' chunk ≡ true)
        → OpenPart segments (λ v. v) opened word views
        → OpenPart segments (λ v. v) opened' word' (set views k u) }
{}

/// Between any two steps each chunk is free, or with exactly one seat, once.
pub fn each_chunk_is_in_one_place()
    ensures { (n : ℕ) (s : State ℕ MapView) → MapHolds n s → (chunk : ℕ)
        → chunk < segment_chunks * n → one_if (is_free (map_words s.words) chunk) + weigh (held_by (is_number chunk)) s.views
        ≡ 1 }
{}

/// Between any two steps each chunk of a segment that isn't open is free.
pub fn closed_segments_are_free()
    ensures { (n : ℕ) (s : State ℕ MapView) → MapHolds n s → (chunk : ℕ)
        → chunk < segment_chunks * n → slice_index s.words 0 ≤ chunk / segment_chunks
        → is_free (map_words s.words) chunk ≡ true }
{}

/// The number of open segments was 1 at first: each number from 2 up to it was made by exactly one exchange, and no higher one.
pub fn each_segment_is_opened_once()
    ensures opened { (n : ℕ) (s : State ℕ MapView) → MapHolds n s → (count : ℕ) → 2 ≤ count
        → count ≤ slice_index s.words 0 → weigh (openings_of (is_number count)) s.views ≡ 1 }
    ensures closed { (n : ℕ) (s : State ℕ MapView) → MapHolds n s → (count : ℕ)
        → slice_index s.words 0 < count → weigh (openings_of (is_number count)) s.views ≡ 0 }
    ensures some { (n : ℕ) (s : State ℕ MapView) → MapHolds n s → (1 ≤ slice_index s.words 0)
        × (slice_index s.words 0 ≤ n) }
{}
