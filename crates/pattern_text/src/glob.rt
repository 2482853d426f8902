//! One pattern without `!` against the bytes of a text.
ghost use Rattle.std.specs.Prelude.{◌≡◌, ◌≤◌, List, ℕ};
ghost use Rattle.std.specs.Iterator.{AlwaysYields, IsFinite, size};
ghost use Rattle.pattern_text.specs.Case.{folded_all};
ghost use Rattle.pattern_text.specs.TextPattern.{text_matches, some_end};
ghost use Rattle.pattern_text.specs.Glob.{IsFront, IsNearer};

use crate::case::{Case, fold};

/// What is left of a pattern and a text behind the first literal part.
enum Front<'a, I> {
    /// The text doesn't begin with the part, or goes on where the pattern ends.
    Differs,
    /// Both end behind the part.
    Whole,
    /// The pattern behind the star that follows the part, and the text behind the part.
    Star(&'a [u8], I),
}

/// Passes over the first literal part.
fn pass_part<I: Iterator<Item = u8> + Copy>(pattern: &[u8], mut text: I, case: Case) -> Front<'_, I>
    requires can { I.can_next text }
    requires ends { IsFinite (I.remaining text) }
    ensures front { (bytes : List ℕ) → AlwaysYields I.next_gives (λ b. b) text bytes
        → IsFront I.next_gives case pattern.now bytes result }
    ensures nearer { IsNearer I.can_next I.remaining pattern.now text result }
{
    for (at, wanted) in pattern.iter().enumerate() {
        if *wanted == b'*' {
            return Front::Star(&pattern[at + 1..], text);
        }
        let Some(byte) = text.next() else {
            return Front::Differs;
        };
        if fold(case, byte) != fold(case, *wanted) {
            return Front::Differs;
        }
    }
    match text.next() {
        Some(_) => Front::Differs,
        None => Front::Whole,
    }
}

/// Whether the pattern matches some end of the text, as behind a star.
///
/// It looks for each literal part at the first place that has it, since a later place leaves less of the text, so the
/// time is at most the product of the lengths.
fn matches_some_end<I: Iterator<Item = u8> + Copy>(
    mut pattern: &[u8],
    mut text: I,
    case: Case,
) -> bool
    requires can { I.can_next text }
    requires ends { IsFinite (I.remaining text) }
    ensures { (bytes : List ℕ) → AlwaysYields I.next_gives (λ b. b) text bytes
        → result ≡ some_end (text_matches (folded_all case pattern.entry.now))
        (folded_all case bytes) }
{
    while !pattern.is_empty() {
        match pass_part(pattern, text, case) {
            Front::Whole => return true,
            Front::Star(rest, after) => {
                pattern = rest;
                text = after;
            }
            Front::Differs => match text.next() {
                Some(_) => {}
                None => return false,
            },
        }
    }
    true
}

/// Whether the pattern matches the text.
pub(crate) fn matches<I: Iterator<Item = u8> + Copy>(pattern: &[u8], text: I, case: Case) -> bool
    requires can { I.can_next text }
    requires ends { IsFinite (I.remaining text) }
    ensures { (bytes : List ℕ) → AlwaysYields I.next_gives (λ b. b) text bytes
        → result ≡ text_matches (folded_all case pattern.now) (folded_all case bytes) }
{
    match pass_part(pattern, text, case) {
        Front::Whole => true,
        Front::Star(rest, after) => matches_some_end(rest, after, case),
        Front::Differs => false,
    }
}
