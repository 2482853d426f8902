//! The arguments of a query and the cookies of a request.
ghost use Rattle.std.specs.Prelude.{◌≡◌, IfOk};
ghost use Rattle.path_normal.specs.Pairs.{arguments_of, argument_of, cookies_of, cookie_of, without_outer_spaces, without_end_spaces, is_cookie_field};
ghost use Rattle.path_normal.specs.PairsLeft.{pair_text, arguments_left, cookies_left};

use crate::cut::cut;
use crate::text::TextBytes;
use std::alloc::{AllocError, Global};
use unit_types::{Field, Fields};

/// A name and a value.
#[derive(Clone, Copy, Debug, Drop)]
pub struct Pair<'a> {
    /// The bytes of the name.
    pub name: TextBytes<'a>,
    /// The bytes of the value.
    pub value: TextBytes<'a>,
}

impl Pair<'_> {
    /// The name and the value, collected.
    ///
    /// Fails for want of memory alone.
    pub fn to_field(self, alloc: Global) -> Result<Field, AllocError>
        ensures { IfOk result (λ field. field ≡ pair_text self.entry) }
    {
        Ok(Field {
            name: self.name.to_bytes(alloc)?,
            value: self.value.to_bytes(alloc)?,
        })
    }
}

/// The arguments of a query, one by one.
#[derive(Clone, Copy, Debug, Drop)]
pub struct QueryArguments<'a> {
    rest: Option<&'a [u8]>,
}

impl<'a> Iterator for QueryArguments<'a> {
    ghost use Rattle.std.specs.Iterator.{YieldsFirstBy, item_count};

    type Item = Pair<'a>;

    ghost next_gives = { YieldsFirstBy pair_text arguments_left };

    ghost remaining = { item_count arguments_left };

    fn next(&mut self) -> Option<Pair<'a>> {
        while let Some(text) = self.rest {
            let (piece, behind) = cut(text, b'&');
            self.rest = behind;
            if !piece.is_empty() {
                return Some(argument_of(piece));
            }
        }
        None
    }
}

/// The argument that a piece of a query says.
fn argument_of(piece: &[u8]) -> Pair<'_>
    ensures { pair_text result ≡ argument_of piece.now }
{
    let (name, value) = cut(piece, b'=');
    Pair {
        name: TextBytes::query(name),
        value: TextBytes::query(value.unwrap_or(b"")),
    }
}

/// The arguments of a query: its pieces between `&` without the empty ones, each cut at its first `=`, with a space
/// for each `+`, then decoded. A piece without `=` is a name with an empty value.
pub fn arguments_in(query: &[u8]) -> QueryArguments<'_>
    ensures { arguments_left result ≡ arguments_of query.now }
{
    QueryArguments { rest: Some(query) }
}

/// The arguments of a query, collected, as `arguments_in` gives them.
///
/// Fails for want of memory alone.
pub fn arguments(alloc: Global, query: &[u8]) -> Result<Fields, AllocError>
    ensures { IfOk result (λ fields. fields ≡ arguments_of query.now) }
{
    let mut list = Vec::new(alloc);
    for pair in arguments_in(query) {
        list.push(pair.to_field(alloc)?)?;
    }
    Ok(Fields::of(list))
}

/// The cookies of some fields, one by one.
#[derive(Clone, Copy, Debug, Drop)]
pub struct FieldCookies<'a> {
    fields: &'a [Field],
    rest: Option<&'a [u8]>,
}

impl<'a> Iterator for FieldCookies<'a> {
    ghost use Rattle.std.specs.Iterator.{YieldsFirstBy, item_count};

    type Item = Pair<'a>;

    ghost next_gives = { YieldsFirstBy pair_text cookies_left };

    ghost remaining = { item_count cookies_left };

    fn next(&mut self) -> Option<Pair<'a>> {
        loop {
            if let Some(text) = self.rest {
                let (piece, behind) = cut(text, b';');
                self.rest = behind;
                return Some(cookie_of(piece));
            }
            let (field, fields) = self.fields.split_first()?;
            self.fields = fields;
            if is_cookie_field(field) {
                self.rest = Some(field.value.as_slice());
            }
        }
    }
}

/// The cookie that a piece of a Cookie value says.
fn cookie_of(piece: &[u8]) -> Pair<'_>
    ensures { pair_text result ≡ cookie_of piece.now }
{
    let (name, value) = cut(without_outer_spaces(piece), b'=');
    Pair {
        name: TextBytes::plain(name),
        value: TextBytes::plain(value.unwrap_or(b"")),
    }
}

/// The text without the spaces at both its ends.
fn without_outer_spaces(mut text: &[u8]) -> &[u8]
    ensures { result.now ≡ without_outer_spaces text.entry.now }
{
    while let [b' ', rest @ ..] = text {
        text = rest;
    }
    without_end_spaces(text)
}

/// The text without the spaces at its end.
fn without_end_spaces(mut text: &[u8]) -> &[u8]
    ensures { result.now ≡ without_end_spaces text.entry.now }
{
    while let [rest @ .., b' '] = text {
        text = rest;
    }
    text
}

/// Whether the field is a Cookie field.
fn is_cookie_field(field: &Field) -> bool
    ensures { result ≡ is_cookie_field field.now }
{
    field.name.as_slice().eq_ignore_ascii_case(b"cookie")
}

/// The cookies of some fields: the pieces between `;` of each Cookie field's value (RFC 6265, section 4.2), without the
/// spaces at their ends, cut at the first `=`. Nothing is decoded. A piece without `=` is a name with an empty value.
pub fn cookies_in(fields: &Fields) -> FieldCookies<'_>
    ensures { cookies_left result ≡ cookies_of fields.now }
{
    FieldCookies {
        fields: fields.as_slice(),
        rest: None,
    }
}

/// The cookies of some fields, collected, as `cookies_in` gives them.
///
/// Fails for want of memory alone.
pub fn cookies(alloc: Global, fields: &Fields) -> Result<Fields, AllocError>
    ensures { IfOk result (λ cookies. cookies ≡ cookies_of fields.now) }
{
    let mut list = Vec::new(alloc);
    for pair in cookies_in(fields) {
        list.push(pair.to_field(alloc)?)?;
    }
    Ok(Fields::of(list))
}
