//! What the rule of the table says of all seats, and what reading gives. Each function does nothing: its contract is the law.
ghost use Rattle.std.specs.Prelude.{ℕ, ◌≡◌, ◌+◌, ◌*◌, ◌<◌, List, length, Option, None, true};
ghost use mathlib.Core.Option.{some};
ghost use lib.ListN.{get_elem?};
ghost use Rattle.atomic_table.specs.Table.{State};
ghost use Rattle.carried_slots.specs.RunSlots.{HasValues};
ghost use Rattle.unit_model.specs.Weights.{weigh, is_number, one_if};
ghost use Rattle.chunk_map.specs.Rule.{map_words};
ghost use Rattle.chunk_map.specs.Views.{held_by};
ghost use Rattle.chunk_map.specs.Words.{is_free};
ghost use Rattle.chunk_map.specs.declared.view.MapView.{MapView};
ghost use Rattle.segment_table.specs.Rule.{SegHolds};

/// Between any two steps each chunk is free, or with exactly one seat, once.
pub fn each_chunk_is_in_one_place<T>()
    ensures { (n : ℕ) (s : State (Option T) MapView) → SegHolds n s → (chunk : ℕ)
        → chunk < 640 * n → one_if (is_free (map_words s.words) chunk)
        + weigh (held_by (is_number chunk)) s.views ≡ 1 }
{}

/// Between any two steps the slot of a free chunk is at home and empty.
pub fn free_chunks_are_empty<T>()
    ensures { (n : ℕ) (s : State (Option T) MapView) → SegHolds n s → (chunk : ℕ)
        → chunk < 640 * n → is_free (map_words s.words) chunk ≡ true
        → get_elem? s.homes chunk ≡ some (some None) }
{}

/// What is read from chunks, as many as were filled, is what was filled into them, in the same order.
pub fn what_was_filled_is_read<T>()
    ensures { (first : ℕ) (filled : List T) (read : List T) (slots : List (ℕ × Option T))
        → HasValues first filled slots → HasValues first read slots
        → length filled ≡ length read → filled ≡ read }
{}
