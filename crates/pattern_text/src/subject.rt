//! The texts that patterns are held against.
ghost use Rattle.std.specs.Prelude.{◌≡◌, List, ℕ};
ghost use Rattle.pattern_text.specs.Case.{holds_of};

use crate::case::Case;
use crate::pattern::TextPattern;

/// A text that patterns can be held against again and again.
pub(crate) trait Subject: Copy {
    /// Its bytes can be read to their end.
    ghost is_readable: { Self → Type 0 };

    /// It has these bytes.
    ghost has: { Self → List ℕ → Type 0 };

    /// Whether the pattern without its `!` matches the text.
    fn meets(self, pattern: &TextPattern, case: Case) -> bool
        requires { is_readable self }
        ensures { (bytes : List ℕ) → has self bytes → result ≡ holds_of case pattern.now bytes };
}

/// A text that is there as a slice.
#[derive(Clone, Copy, Drop)]
pub(crate) struct Whole<'a> {
    pub(crate) text: &'a [u8],
}

impl Subject for Whole<'_> {
    ghost is_readable = { λ whole. Unit {0} };

    ghost has = { λ whole bytes. whole.text.now ≡ bytes };

    fn meets(self, pattern: &TextPattern, case: Case) -> bool {
        pattern.holds_slice(self.text, case)
    }
}

/// A text that an iterator gives byte by byte.
#[derive(Clone, Copy, Drop)]
pub(crate) struct Given<I> {
    pub(crate) text: I,
}

impl<I: Iterator<Item = u8> + Copy> Subject for Given<I> {
    ghost use Rattle.std.specs.Iterator.{AlwaysYields, IsFinite};

    ghost is_readable = { λ given. I.can_next given.text × IsFinite (I.remaining given.text) };

    ghost has = { λ given bytes. AlwaysYields I.next_gives (λ b. b) given.text bytes };

    fn meets(self, pattern: &TextPattern, case: Case) -> bool {
        pattern.holds(self.text, case)
    }
}
