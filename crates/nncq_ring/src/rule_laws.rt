//! What the rule of a ring says of all seats. Each function does nothing: its contract is the law.
ghost use Rattle.std.specs.Prelude.{◌≡◌, ◌+◌, ◌<◌, ◌≤◌, ◌⊎◌, ℕ};
ghost use Rattle.atomic_table.specs.Table.{State};
ghost use Rattle.unit_model.specs.Weights.{weigh, is_number};
ghost use Rattle.nncq_ring.specs.RingWords.{ring_words, Fresh};
ghost use Rattle.nncq_ring.specs.Rule.{RingHolds};
ghost use Rattle.nncq_ring.specs.Views.{held_by, pops_of, pushes_of};
ghost use Rattle.nncq_ring.specs.Words.{line_of, logical_tail};
ghost use Rattle.nncq_ring.specs.declared.view.RingView.{RingView};

/// Each number below the size is in the line once, or one seat holds it once.
pub fn each_number_is_in_one_place()
    ensures { (key : ℕ × ℕ) (s : State ℕ RingView) → RingHolds key s → (number : ℕ) → number < key.0
        → weigh (λ e. is_number number e.1) (line_of key.0 (ring_words 16 s.words))
        + weigh (held_by (is_number number)) s.views ≡ 1 }
{}

/// What was put was taken, or stands in the line: each pair of a place and a value was put as often as it was taken, and once
/// more for each time that it stands in the line.
pub fn what_was_put_is_taken_or_stands()
    ensures { (key : ℕ × ℕ) (s : State ℕ RingView) → RingHolds key s → (g : ℕ → ℕ → ℕ)
        → weigh (pushes_of g) s.views ≡ weigh (pops_of g) s.views
        + weigh (λ e. g e.0 e.1) (line_of key.0 (ring_words 16 s.words)) }
{}

/// Places are used in order: those from the start up to the logical tail were filled once each, those from the start up to the
/// head were emptied once each, and no other place was filled or emptied.
pub fn places_are_used_in_order()
    ensures filled { (key : ℕ × ℕ) (s : State ℕ RingView) → RingHolds key s → (place : ℕ)
        → key.1 ≤ place → place < logical_tail key.0 (ring_words 16 s.words)
        → weigh (pushes_of (λ p x. is_number place p)) s.views ≡ 1 }
    ensures unfilled { (key : ℕ × ℕ) (s : State ℕ RingView) → RingHolds key s → (place : ℕ)
        → (place < key.1) ⊎ (logical_tail key.0 (ring_words 16 s.words) ≤ place)
        → weigh (pushes_of (λ p x. is_number place p)) s.views ≡ 0 }
    ensures emptied { (key : ℕ × ℕ) (s : State ℕ RingView) → RingHolds key s → (place : ℕ)
        → key.1 ≤ place → place < (ring_words 16 s.words).head
        → weigh (pops_of (λ p x. is_number place p)) s.views ≡ 1 }
    ensures unemptied { (key : ℕ × ℕ) (s : State ℕ RingView) → RingHolds key s → (place : ℕ)
        → (place < key.1) ⊎ ((ring_words 16 s.words).head ≤ place)
        → weigh (pops_of (λ p x. is_number place p)) s.views ≡ 0 }
{}

/// As long as nothing was pushed, the words are those of a ring that was just made: head and tail are the start, and the entries
/// are those of value 0 at the places before it.
pub fn a_ring_is_fresh_until_a_push()
    ensures { (key : ℕ × ℕ) (s : State ℕ RingView) → RingHolds key s
        → weigh (pushes_of (λ place value. 1)) s.views ≡ 0 → Fresh key.0 key.1 16 s.words }
{}
