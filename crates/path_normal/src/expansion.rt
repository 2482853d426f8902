//! The expansion of a text in a request: each variable's value in its place.
ghost use Rattle.std.specs.Prelude.{◌≡◌, ◌++◌, IfOk, OnOk, if◌then◌else◌};
ghost use Rattle.std.specs.Ordering.{nat_cmp};
ghost use Rattle.std.specs.Cmp.Lexicographic.{slice_cmp};
ghost use Rattle.std.specs.Str.{bytes_eq};
ghost use Rattle.path_normal.specs.Variables.{expansion_of, escaped_expansion_of, escaped_byte, shown};
ghost use Rattle.path_normal.specs.ExpansionLeft.{expansion_left};
ghost use Rattle.path_normal.specs.Value.{value_left};

use crate::pieces::{Piece, Pieces, pieces_in};
use crate::text::TextBytes;
use crate::value::{Value, value_of};
use percent_encoding::percent_encode_byte;
use std::alloc::{AllocError, Global};
use std::cmp::Ordering;
use unit_types::{Bytes, Request};

/// The bytes of a text's expansion, one by one. A copy gives the same bytes, and no call takes memory.
#[derive(Clone, Copy, Debug, Drop)]
pub struct Expansion<'a> {
    pieces: Pieces<'a>,
    value: Value<'a>,
    request: &'a Request,
}

/// The expansion of `text` in `request`: the value of each variable stands in its place, and a stray `$` stays. A
/// variable that isn't of the set has no value.
pub fn expansion_in<'a>(text: &'a [u8], request: &'a Request) -> Expansion<'a>
    ensures { expansion_left result ≡ expansion_of text.now request.now }
{
    Expansion {
        pieces: pieces_in(text),
        value: Value::Text(TextBytes::plain(b"")),
        request,
    }
}

impl Expansion<'_> {
    /// Whether these are the bytes of `other`.
    pub fn is(self, other: &[u8]) -> bool
        ensures { result ≡ bytes_eq (expansion_left self.entry) other.now }
    {
        self.compare(other).is_eq()
    }

    /// How these bytes stand to those of `other` in the order of bytes.
    pub fn compare(self, other: &[u8]) -> Ordering
        ensures { result ≡ slice_cmp nat_cmp (expansion_left self.entry) other.now }
    {
        self.cmp(other.iter().copied())
    }
}

impl Iterator for Expansion<'_> {
    ghost use Rattle.std.specs.Iterator.{YieldsFirst, item_count};

    type Item = u8;

    ghost next_gives = { YieldsFirst expansion_left };

    ghost remaining = { item_count expansion_left };

    fn next(&mut self) -> Option<u8> {
        loop {
            if let Some(byte) = self.value.next() {
                return Some(byte);
            }
            match self.pieces.next()? {
                Piece::Byte(byte) => return Some(byte),
                Piece::Variable(name) => self.value = value_of(name, self.request),
                Piece::Stray => return Some(b'$'),
            }
        }
    }
}

/// The expansion of `text` in `request`, collected. Where `escapes`, each byte of a value outside 0x21 to 0x7E is
/// written `%XX` with capital digits.
///
/// Fails for want of memory alone.
pub fn expand(
    alloc: Global,
    text: &[u8],
    request: &Request,
    escapes: bool,
) -> Result<Bytes, AllocError>
    ensures { IfOk result (λ bytes. bytes ≡ (if escapes
        then escaped_expansion_of text.now request.now
        else expansion_of text.now request.now)) }
{
    let mut out = Vec::with_capacity(alloc, text.len())?;
    for piece in pieces_in(text) {
        match piece {
            Piece::Byte(byte) => out.push(byte)?,
            Piece::Variable(name) => append_value(&mut out, value_of(name, request), escapes)?,
            Piece::Stray => out.push(b'$')?,
        }
    }
    Ok(Bytes::of(out))
}

/// Puts a value behind the bytes.
fn append_value(out: &mut Vec<u8>, value: Value<'_>, escapes: bool) -> Result<(), AllocError>
    ensures { OnOk result
        (out.new.items ≡ out.old.items ++ shown escapes (value_left value.entry)) }
{
    for byte in value {
        if escapes {
            append_escaped(out, byte)?;
        } else {
            out.push(byte)?;
        }
    }
    Ok(())
}

/// Puts a byte behind the bytes, written `%XX` where it is outside 0x21 to 0x7E.
fn append_escaped(out: &mut Vec<u8>, byte: u8) -> Result<(), AllocError>
    ensures { OnOk result (out.new.items ≡ out.old.items ++ escaped_byte byte) }
{
    if byte < 0x21 || byte > 0x7E {
        return out.extend_from_slice(percent_encode_byte(byte).as_bytes());
    }
    out.push(byte)?;
    Ok(())
}
