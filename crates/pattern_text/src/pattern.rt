//! Text patterns.
ghost use Rattle.std.specs.Prelude.{◌≡◌, List, ℕ, IfOk, ◌∷◌, []};
ghost use Rattle.std.specs.Iterator.{AlwaysYields, IsFinite};
ghost use Rattle.pattern_text.specs.Case.{holds_of};
ghost use Rattle.pattern_text.specs.TextPattern.{is_negated, plain_part, list_matches};

use crate::case::{Case, is_same};
use crate::glob::matches;
use std::alloc::{AllocError, Global};
use std::marker::Model;
use unit_types::{Bytes, SliceBytes};

/// A pattern of a text: `!` or not, then literal parts with `*` between them, each of which stands for any bytes, also
/// none. Contracts see the text that it was made from.
#[derive(Debug, Drop)]
pub struct TextPattern {
    text: Bytes,
    /// Whether a `*` stands in the text.
    has_star: bool,
}

impl Model for TextPattern {
    ghost use Rattle.std.specs.Prelude.{List, ℕ, ◌≡◌};
    ghost use Rattle.std.specs.Coded.{coded_list, coded_ℕ};
    ghost use Rattle.pattern_text.specs.TextPattern.{contains_star};

    ghost Value = { List ℕ };

    ghost coded = { coded_list coded_ℕ };

    ghost view = { λ p. p.text };

    ghost invariant = { λ p. p.has_star ≡ contains_star p.text };
}

impl TextPattern {
    /// The pattern that `text` says. Each text is one.
    ///
    /// Fails for want of memory alone.
    pub fn parse(alloc: Global, text: &[u8]) -> Result<TextPattern, AllocError>
        ensures { IfOk result (λ p. p ≡ text.now) }
    {
        Ok(TextPattern {
            text: Bytes::copy_of(alloc, text)?,
            has_star: text.contains(&b'*'),
        })
    }

    /// The text that the pattern was made from.
    pub fn as_slice(&self) -> &[u8]
        ensures { result.now ≡ self.now }
    {
        self.text.as_slice()
    }

    /// Whether a list of this pattern alone matches the text.
    pub fn matches(&self, text: &[u8]) -> bool
        ensures { result ≡ list_matches (self.now ∷ []) text.now }
    {
        self.holds_slice(text, Case::Exact) != self.is_negated()
    }

    /// Whether the pattern begins with `!`.
    pub(crate) fn is_negated(&self) -> bool
        ensures { result ≡ is_negated self.now }
    {
        self.text.as_slice().starts_with(b"!")
    }

    /// The pattern without its `!`.
    fn plain(&self) -> &[u8]
        ensures { result.now ≡ plain_part self.now }
    {
        let pattern = self.text.as_slice();
        if pattern.starts_with(b"!") {
            &pattern[1..]
        } else {
            pattern
        }
    }

    /// Whether the pattern without its `!` matches the text. Without a star they are compared as slices.
    pub(crate) fn holds_slice(&self, text: &[u8], case: Case) -> bool
        ensures { result ≡ holds_of case self.now text.now }
    {
        if self.has_star {
            return self.holds(SliceBytes::of(text), case);
        }
        is_same(text, self.plain(), case)
    }

    /// Whether the pattern without its `!` matches the text.
    pub(crate) fn holds<I: Iterator<Item = u8> + Copy>(&self, text: I, case: Case) -> bool
        requires can { I.can_next text }
        requires ends { IsFinite (I.remaining text) }
        ensures { (bytes : List ℕ) → AlwaysYields I.next_gives (λ b. b) text bytes
            → result ≡ holds_of case self.now bytes }
    {
        matches(self.plain(), text, case)
    }
}
