//! What the rule of tags says of all seats.
ghost use Rattle.std.specs.Prelude.{◌≡◌, ◌+◌, ◌<◌, ◌≤◌, ◌==◌, ℕ, slice_index};
ghost use Rattle.atomic_table.specs.Table.{State};
ghost use Rattle.unit_model.specs.Weights.{weigh, one_if};
ghost use Rattle.tracking_word.specs.Rule.{TagsHold};
ghost use Rattle.tracking_word.specs.Views.{arms_of, wins_of};
ghost use Rattle.tracking_word.specs.Words.{is_pair};
ghost use Rattle.tracking_word.specs.declared.view.TagView.{TagView};

/// For each item and stream, the wins of all seats are as many as the arms, or one fewer where the tag is that stream. This
/// does nothing: its contract is the law.
pub fn wins_match_arms()
    ensures { (n : ℕ) (s : State ℕ TagView) → TagsHold n s → (item : ℕ) (stream : ℕ) → item < n
        → 1 ≤ stream
        → weigh (arms_of (is_pair item stream)) s.views
        ≡ weigh (wins_of (is_pair item stream)) s.views
        + one_if (slice_index s.words item == stream) }
{}
