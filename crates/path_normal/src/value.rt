//! The value of a variable, byte by byte.
ghost use Rattle.std.specs.Prelude.{◌≡◌, ◌==◌, map};
ghost use Rattle.std.specs.Str.{bytes_eq, str_to_ascii_lowercase};
ghost use Rattle.path_normal.specs.Pairs.{arguments_of, cookies_of};
ghost use Rattle.path_normal.specs.Text.{text_left};
ghost use Rattle.path_normal.specs.Value.{value_left};
ghost use Rattle.path_normal.specs.Variables.{variable_value, listed_value, first_value, first_field, underscored};

use crate::address::AddressBytes;
use crate::pairs::{arguments_in, cookies_in};
use crate::text::TextBytes;
use unit_types::{Field, Fields, Request};

/// The bytes of a value, one by one. A copy gives the same bytes, and no call takes memory.
#[derive(Clone, Copy, Debug, Drop)]
pub enum Value<'a> {
    /// A text of the request.
    Text(TextBytes<'a>),
    /// An address.
    Address(AddressBytes),
}

impl Iterator for Value<'_> {
    ghost use Rattle.std.specs.Iterator.{YieldsFirst, item_count};

    type Item = u8;

    ghost next_gives = { YieldsFirst value_left };

    ghost remaining = { item_count value_left };

    fn next(&mut self) -> Option<u8> {
        match *self {
            Value::Text(mut text) => {
                let byte = text.next();
                *self = Value::Text(text);
                byte
            }
            Value::Address(mut address) => {
                let byte = address.next();
                *self = Value::Address(address);
                byte
            }
        }
    }
}

/// The value of the variable of that name in the request; nothing where the request has none, or no variable has the
/// name.
pub fn value_of<'a>(name: &[u8], request: &'a Request) -> Value<'a>
    ensures { value_left result ≡ variable_value request.now name.now }
{
    if name == b"host".as_slice() {
        return Value::Text(TextBytes::plain(request.host.as_slice()));
    }
    if name == b"method".as_slice() {
        return Value::Text(TextBytes::plain(request.method.as_slice()));
    }
    if name == b"uri".as_slice() {
        return Value::Text(TextBytes::plain(request.path.as_slice()));
    }
    if name == b"request_uri".as_slice() {
        return Value::Text(TextBytes::plain(request.target.as_slice()));
    }
    if name == b"remote_addr".as_slice() {
        return Value::Address(AddressBytes::of(request.from.ip));
    }
    if name == b"dollar".as_slice() {
        return Value::Text(TextBytes::plain(b"$"));
    }
    Value::Text(listed_value(name, request))
}

/// The value of an argument, a cookie or a field.
fn listed_value<'a>(name: &[u8], request: &'a Request) -> TextBytes<'a>
    ensures { text_left result ≡ listed_value request.now name.now }
{
    if let Some(wanted) = name.strip_prefix(b"arg_") {
        return argument_value(wanted, request.query.as_slice());
    }
    if let Some(wanted) = name.strip_prefix(b"cookie_") {
        return cookie_value(wanted, &request.fields);
    }
    if let Some(wanted) = name.strip_prefix(b"header_") {
        return field_value(wanted, request.fields.as_slice());
    }
    TextBytes::plain(b"")
}

/// The value of the first argument of that name.
fn argument_value<'a>(name: &[u8], query: &'a [u8]) -> TextBytes<'a>
    ensures { text_left result ≡ first_value name.now (arguments_of query.now) }
{
    for pair in arguments_in(query) {
        if pair.name.is(name) {
            return pair.value;
        }
    }
    TextBytes::plain(b"")
}

/// The value of the first cookie of that name.
fn cookie_value<'a>(name: &[u8], fields: &'a Fields) -> TextBytes<'a>
    ensures { text_left result ≡ first_value name.now (cookies_of fields.now) }
{
    for cookie in cookies_in(fields) {
        if cookie.name.is(name) {
            return cookie.value;
        }
    }
    TextBytes::plain(b"")
}

/// The value of the first field of that name, with `-` for `_`.
fn field_value<'a>(name: &[u8], fields: &'a [Field]) -> TextBytes<'a>
    ensures { text_left result ≡ first_field name.now fields.now }
{
    for field in fields {
        if is_named(field.name.as_slice(), name) {
            return TextBytes::plain(field.value.as_slice());
        }
    }
    TextBytes::plain(b"")
}

/// Whether the field's name, with `_` for `-`, is this name in lower case.
fn is_named(field: &[u8], name: &[u8]) -> bool
    ensures { result ≡ bytes_eq (map underscored field.now) (str_to_ascii_lowercase name.now) }
{
    if field.len() != name.len() {
        return false;
    }
    for (at, byte) in field.iter().enumerate() {
        if underscored(*byte) != name[at].to_ascii_lowercase() {
            return false;
        }
    }
    true
}

/// The byte, or `_` for `-`.
fn underscored(byte: u8) -> u8
    ensures { result ≡ underscored byte }
{
    if byte == b'-' { b'_' } else { byte }
}
