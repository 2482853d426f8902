//! Lists of text patterns.
ghost use Rattle.std.specs.Prelude.{◌≡◌, List, ℕ};
ghost use Rattle.std.specs.Iterator.{AlwaysYields, IsFinite};
ghost use Rattle.pattern_text.specs.Case.{list_holds};
ghost use Rattle.pattern_text.specs.TextPattern.{list_matches, list_matches_ignoring_case};

use crate::case::Case;
use crate::pattern::TextPattern;
use crate::subject::{Given, Subject, Whole};
use std::marker::Model;

/// A list of text patterns: some pattern without `!` matches or there is none, and no negated pattern's rest matches.
/// Contracts see the texts that the patterns were made from.
///
/// A text is a slice or an iterator over its bytes that can be copied. Of an iterator the answer is that for the bytes
/// which it gives each time. No call takes memory.
#[derive(Debug, Drop)]
pub struct TextPatterns {
    list: Vec<TextPattern>,
}

impl Model for TextPatterns {
    ghost use Rattle.std.specs.Prelude.{List, ℕ};

    ghost Value = { List (List ℕ) };

    ghost view = { λ p. p.list.items };
}

impl TextPatterns {
    /// The patterns of `list`, without a copy.
    pub fn of(list: Vec<TextPattern>) -> TextPatterns
        ensures { result ≡ list.items }
    {
        TextPatterns { list }
    }

    /// The patterns as a slice.
    pub fn as_slice(&self) -> &[TextPattern]
        ensures { result.now ≡ self.now }
    {
        self.list.as_slice()
    }

    /// Whether the list matches the text.
    pub fn matches(&self, text: &[u8]) -> bool
        ensures { result ≡ list_matches self.now text.now }
    {
        self.holds(Whole { text }, Case::Exact)
    }

    /// Whether the list matches the text, all in lower case.
    pub fn matches_ignoring_case(&self, text: &[u8]) -> bool
        ensures { result ≡ list_matches_ignoring_case self.now text.now }
    {
        self.holds(Whole { text }, Case::Ignored)
    }

    /// Whether the list matches the text of these bytes.
    pub fn matches_bytes<I: Iterator<Item = u8> + Copy>(&self, text: I) -> bool
        requires can { I.can_next text }
        requires ends { IsFinite (I.remaining text) }
        ensures { (bytes : List ℕ) → AlwaysYields I.next_gives (λ b. b) text bytes
            → result ≡ list_matches self.now bytes }
    {
        self.holds(Given { text }, Case::Exact)
    }

    /// Whether the list matches the text of these bytes, all in lower case.
    pub fn matches_bytes_ignoring_case<I: Iterator<Item = u8> + Copy>(&self, text: I) -> bool
        requires can { I.can_next text }
        requires ends { IsFinite (I.remaining text) }
        ensures { (bytes : List ℕ) → AlwaysYields I.next_gives (λ b. b) text bytes
            → result ≡ list_matches_ignoring_case self.now bytes }
    {
        self.holds(Given { text }, Case::Ignored)
    }

    /// Whether the list matches the text, in one pass over the list.
    fn holds<T: Subject>(&self, text: T, case: Case) -> bool
        requires { T.is_readable text }
        ensures { (bytes : List ℕ) → T.has text bytes → result ≡ list_holds case self.now bytes }
    {
        let mut has_plain = false;
        let mut plain_holds = false;
        for pattern in &self.list {
            if !pattern.is_negated() {
                has_plain = true;
                plain_holds = plain_holds || text.meets(pattern, case);
            } else if text.meets(pattern, case) {
                return false;
            }
        }
        plain_holds || !has_plain
    }
}
