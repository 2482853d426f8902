//! What holds of the definitions themselves: each function's contract is a law, and its body is empty.
ghost use Rattle.std.specs.Prelude.{◌≡◌, ◌≢◌, ◌∷◌, ◌++◌, ◌⊎◌, List, ℕ, [], All};
ghost use Rattle.unit_types.specs.declared.message.Request.{Request};
ghost use Rattle.path_normal.specs.Path.{normal_path_of, segments_of, joined_segments, IsPlainSegment};
ghost use Rattle.path_normal.specs.Variables.{expansion_of, escaped_expansion_of, escaped, IsVisible, IsInLine};

/// Every normal path begins with `/`.
pub fn normal_path_begins_with_slash()
    ensures { (raw : List ℕ) → (rest : List ℕ) × (normal_path_of raw ≡ 47 ∷ rest) }
{}

/// Between its slashes a normal path has no empty segment, no `.` and no `..`, but for the empty text behind a final
/// `/`.
pub fn normal_path_has_plain_segments()
    ensures { (raw : List ℕ) → (left : List (List ℕ)) × All IsPlainSegment left
        × ((segments_of (normal_path_of raw) ≡ [] ∷ left)
        ⊎ (segments_of (normal_path_of raw) ≡ [] ∷ (left ++ [] ∷ []))) }
{}

/// The segments of a normal path, joined, are that path, also where it has a `%`.
pub fn normal_path_joins_its_segments()
    ensures { (raw : List ℕ)
        → joined_segments (segments_of (normal_path_of raw)) ≡ normal_path_of raw }
{}

/// A normal path without `%` is its own normal path.
pub fn normal_path_stays()
    ensures { (raw : List ℕ) → All (λ b. b ≢ 37) (normal_path_of raw)
        → normal_path_of (normal_path_of raw) ≡ normal_path_of raw }
{}

/// An escaped value has bytes 0x21 to 0x7E alone.
pub fn escaped_values_are_visible()
    ensures { (value : List ℕ) → All IsVisible (escaped value) }
{}

/// An escaped expansion has no NUL, LF and CR where its text has none, whatever the request.
pub fn escaped_expansions_stay_in_line()
    ensures { (text : List ℕ) (request : Request) → All IsInLine text
        → All IsInLine (escaped_expansion_of text request) }
{}

/// A text without `$` expands to itself.
pub fn plain_text_stays()
    ensures { (text : List ℕ) (request : Request) → All (λ b. b ≢ 36) text
        → expansion_of text request ≡ text }
{}
