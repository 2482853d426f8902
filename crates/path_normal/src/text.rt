//! The bytes of a name or a value, one by one.
ghost use Rattle.std.specs.Prelude.{◌≡◌, ◌≤◌, ◌∷◌, ℕ, List, [], IfOk, IfNone, IfSome, MatchOption, length, drop, map};
ghost use Rattle.std.specs.Str.{bytes_eq};
ghost use Rattle.percent_encoding.specs.Percent.{KeepsFirst};
ghost use Rattle.path_normal.specs.Pairs.{query_text, spaced};

use std::alloc::{AllocError, Global};
use unit_types::Bytes;

/// How a text is spelled.
#[derive(Clone, Copy, Debug, Drop)]
enum Spelling {
    /// As it is.
    Plain,
    /// As in a query: `+` for a space, and `%XX`.
    Query,
}

/// The bytes of a name or a value, decoded one by one. A copy gives the same bytes, and no call takes memory but
/// `to_bytes`.
#[derive(Clone, Copy, Debug, Drop)]
pub struct TextBytes<'a> {
    rest: &'a [u8],
    spelling: Spelling,
}

impl<'a> TextBytes<'a> {
    ghost use Rattle.path_normal.specs.Text.{text_left};

    /// The bytes as they are.
    pub fn plain(text: &'a [u8]) -> TextBytes<'a>
        ensures { text_left result ≡ text.now }
    {
        TextBytes {
            rest: text,
            spelling: Spelling::Plain,
        }
    }

    /// The bytes that a part of a query spells.
    pub(crate) fn query(text: &'a [u8]) -> TextBytes<'a>
        ensures { text_left result ≡ query_text text.now }
    {
        TextBytes {
            rest: text,
            spelling: Spelling::Query,
        }
    }

    /// Whether these are the bytes of `other`.
    pub fn is(self, other: &[u8]) -> bool
        ensures { result ≡ bytes_eq (text_left self.entry) other.now }
    {
        self.cmp(other.iter().copied()).is_eq()
    }

    /// The bytes, collected.
    ///
    /// Fails for want of memory alone.
    pub fn to_bytes(self, alloc: Global) -> Result<Bytes, AllocError>
        ensures { IfOk result (λ bytes. bytes ≡ text_left self.entry) }
    {
        let mut bytes = Vec::with_capacity(alloc, self.rest.len())?;
        for byte in self {
            bytes.push(byte)?;
        }
        Ok(Bytes::of(bytes))
    }
}

impl Iterator for TextBytes<'_> {
    ghost use Rattle.std.specs.Iterator.{YieldsFirst, item_count};
    ghost use Rattle.path_normal.specs.Text.{text_left};

    type Item = u8;

    ghost next_gives = { YieldsFirst text_left };

    ghost remaining = { item_count text_left };

    fn next(&mut self) -> Option<u8> {
        match self.spelling {
            Spelling::Plain => {
                let (first, rest) = self.rest.split_first()?;
                self.rest = rest;
                Some(*first)
            }
            Spelling::Query => {
                let (byte, rest) = next_decoded(self.rest)?;
                self.rest = rest;
                Some(byte)
            }
        }
    }
}

/// The first byte that a part of a query spells, and the part behind its spelling.
fn next_decoded(text: &[u8]) -> Option<(u8, &[u8])>
    ensures { MatchOption result (text.now ≡ [])
        (λ x. query_text text.now ≡ x.0 ∷ query_text x.1.now) }
{
    if let Some(byte) = escape_at(text) {
        return Some((byte, &text[3..]));
    }
    let (first, rest) = text.split_first()?;
    if *first == b'+' {
        return Some((b' ', rest));
    }
    Some((*first, rest))
}

/// The byte of the escape that the text begins with, where it begins with one.
fn escape_at(text: &[u8]) -> Option<u8>
    ensures none { IfNone result (KeepsFirst (map spaced text.now)) }
    ensures some { IfSome result (λ byte. (3 ≤ length text.now)
        × (query_text text.now ≡ byte ∷ query_text (drop 3 text.now))) }
{
    let [b'%', high, low, ..] = text else {
        return None;
    };
    let high = char::from(*high).to_digit(16)?;
    let low = char::from(*low).to_digit(16)?;
    Some((high * 16 + low) as u8)
}
