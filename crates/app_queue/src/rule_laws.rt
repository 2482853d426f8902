//! What the rule of a queue says of all seats. Each function does nothing: its contract is the law.
ghost use Rattle.std.specs.Prelude.{◌≡◌, ◌≢◌, ◌+◌, ◌<◌, ◌≤◌, ◌==◌, ℕ};
ghost use Rattle.atomic_table.specs.Table.{State};
ghost use Rattle.unit_model.specs.Weights.{weigh, is_number, one_if};
ghost use Rattle.nncq_ring.specs.Rule.{line_weight};
ghost use Rattle.tracking_word.specs.Words.{is_pair};
ghost use Rattle.app_queue.specs.declared.layout.Place.TheVariants.{PartOf, RunOf, TagOf};
ghost use Rattle.app_queue.specs.declared.side.Side.TheVariants.{Free, Line};
ghost use Rattle.app_queue.specs.declared.view.QueueView.{QueueView};
ghost use Rattle.app_queue.specs.Layout.{IsLayout, ring_of, word_of};
ghost use Rattle.app_queue.specs.Rule.{QueueHolds};
ghost use Rattle.app_queue.specs.Views.{arms_of, held_by, part_notes_of, run_notes_of, wins_of};

/// The words of a queue stand apart in its table.
pub fn words_stand_apart()
    ensures { (n : ℕ) → IsLayout n }
{}

/// Each item is in the free ring once, or in the line once, or one seat holds it once.
pub fn each_item_is_in_one_place()
    ensures { (key : ℕ × ℕ) (s : State ℕ QueueView) → QueueHolds key s → (item : ℕ) → item < key.0
        → line_weight key.0 (ring_of key.0 s.words Free) (is_number item)
        + line_weight key.0 (ring_of key.0 s.words Line) (is_number item)
        + weigh (held_by (is_number item)) s.views ≡ 1 }
{}

/// For each item and stream, the wins of all seats are as many as the arms, or one fewer where the tag is that stream.
pub fn wins_match_arms()
    ensures { (key : ℕ × ℕ) (s : State ℕ QueueView) → QueueHolds key s → (item : ℕ) (stream : ℕ)
        → item < key.0 → 1 ≤ stream
        → weigh (arms_of 0 (is_pair item stream)) s.views
        ≡ weigh (wins_of 0 (is_pair item stream)) s.views
        + one_if (word_of key.0 s.words (TagOf item) == stream) }
{}

/// The run and the part of an item are 0 at first: each is 0, or some seat noted it.
pub fn words_are_0_until_noted()
    ensures run { (key : ℕ × ℕ) (s : State ℕ QueueView) → QueueHolds key s → (item : ℕ)
        → item < key.0 → word_of key.0 s.words (RunOf item) ≢ 0
        → 0 < weigh (run_notes_of 0 (is_pair item (word_of key.0 s.words (RunOf item)))) s.views }
    ensures part { (key : ℕ × ℕ) (s : State ℕ QueueView) → QueueHolds key s → (item : ℕ)
        → item < key.0 → word_of key.0 s.words (PartOf item) ≢ 0
        → 0 < weigh (part_notes_of 0 (is_pair item (word_of key.0 s.words (PartOf item)))) s.views }
{}
