//! Text patterns of a configuration, and which texts a list of them matches, also where the case of letters doesn't
//! count. A text is a slice or an iterator over its bytes that can be copied, so that a decoded text needs no memory.
#![tactic(auto)]

mod case;
mod glob;
mod pattern;
mod patterns;
mod subject;

ghost use Rattle.std.specs.Prelude.{◌≡◌, ◌↔◌, List, ℕ, true};
ghost use Rattle.pattern_text.specs.TextPattern.{TextMatches, text_matches};

pub use pattern::TextPattern;
pub use patterns::TextPatterns;

/// A pattern without `!` matches exactly the texts that can be cut into its literal parts, in order, with any bytes,
/// also none, at each star.
pub fn matches_where_cut()
    ensures { (pattern text : List ℕ)
        → (text_matches pattern text ≡ true) ↔ TextMatches pattern text }
{}

#[cfg(test)]
mod tests;
