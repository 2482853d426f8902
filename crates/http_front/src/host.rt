//! The host that a request is for (RFC 9110, section 7.2).
ghost use Rattle.std.specs.Prelude.{◌≡◌, IfOk};
ghost use Rattle.http_front.specs.Message as spec;

use crate::fields::value_of;
use crate::target::{authority_of, has_scheme};
use std::alloc::{AllocError, Global};
use unit_types::{Bytes, Field, lowercase};

/// The host of a request with this target and these fields.
pub(crate) fn host_of(alloc: Global, target: &[u8], fields: &[Field]) -> Result<Bytes, AllocError>
    ensures { IfOk result (λ host. host ≡ spec.host_of target.now fields.now) }
{
    lowercase(alloc, without_period(without_port(host_in(target, fields))))
}

// the authority of a target in absolute-form, or else the value of the first Host field
fn host_in<'a>(target: &'a [u8], fields: &'a [Field]) -> &'a [u8]
    ensures { result.now ≡ spec.host_in target.now fields.now }
{
    if has_scheme(target) {
        authority_of(target)
    } else {
        value_of(fields, b"host")
    }
}

fn without_port(text: &[u8]) -> &[u8]
    ensures { result.now ≡ spec.without_port text.now }
{
    let name = without_digits(text);
    if ends_in(b':', name) {
        without_last(name)
    } else {
        text
    }
}

fn without_period(text: &[u8]) -> &[u8]
    ensures { result.now ≡ spec.without_period text.now }
{
    if ends_in(b'.', text) {
        without_last(text)
    } else {
        text
    }
}

fn without_digits(text: &[u8]) -> &[u8]
    ensures { result.now ≡ spec.without_digits text.now }
{
    let mut rest = text;
    while let [front @ .., last] = rest
        && last.is_ascii_digit()
    {
        rest = front;
    }
    rest
}

fn ends_in(byte: u8, text: &[u8]) -> bool
    ensures { result ≡ spec.ends_in byte text.now }
{
    !text.is_empty() && text[text.len() - 1] == byte
}

fn without_last(text: &[u8]) -> &[u8]
    ensures { result.now ≡ spec.without_last text.now }
{
    if text.is_empty() {
        text
    } else {
        &text[..text.len() - 1]
    }
}
