//! The checks of a head, in their order (RFC 9112, sections 3 and 6; RFC 9110, section 15.5).
ghost use Rattle.std.specs.Prelude.{◌≡◌};
ghost use Rattle.http_front.specs.Checks as spec;

use crate::fields::count_of;
use crate::framing::{has_coding, has_length, is_chunked, length_text};
use crate::number::number_within;
use crate::target::is_faulty_target;
use unit_types::{Field, Request};

/// The status of the first check that refuses a request, given the largest content that is taken.
pub(crate) fn refusal_of(request: &Request, max_body: u64) -> Option<u16>
    ensures { result
        ≡ spec.refusal_of max_body request.now.minor request.now.target request.now.fields }
{
    let fields = request.fields.as_slice();
    if is_faulty_target(request.target.as_slice()) {
        Some(400)
    } else if lacks_host(request.minor, fields) {
        Some(400)
    } else if is_ambiguous(request.minor, fields) {
        Some(400)
    } else if has_other_coding(fields) {
        Some(501)
    } else if has_faulty_length(fields) {
        Some(400)
    } else if is_too_long(fields, max_body) {
        Some(413)
    } else {
        None
    }
}

fn lacks_host(minor: u8, fields: &[Field]) -> bool
    ensures { result ≡ spec.lacks_host minor fields.now }
{
    let hosts = count_of(fields, b"host");
    if minor == 1 { hosts != 1 } else { hosts > 1 }
}

fn is_ambiguous(minor: u8, fields: &[Field]) -> bool
    ensures { result ≡ spec.is_ambiguous minor fields.now }
{
    has_coding(fields) && (has_length(fields) || minor == 0)
}

fn has_other_coding(fields: &[Field]) -> bool
    ensures { result ≡ spec.has_other_coding fields.now }
{
    has_coding(fields) && !is_chunked(fields)
}

fn has_faulty_length(fields: &[Field]) -> bool
    ensures { result ≡ spec.has_faulty_length fields.now }
{
    has_length(fields)
        && !(count_of(fields, b"content-length") == 1 && is_length_text(length_text(fields)))
}

fn is_length_text(text: &[u8]) -> bool
    ensures { result ≡ spec.is_length_text text.now }
{
    !text.is_empty() && text.len() < 20 && has_digits(text)
}

fn has_digits(text: &[u8]) -> bool
    ensures { result ≡ spec.has_digits text.now }
{
    text.iter().all(|b| b.is_ascii_digit())
}

fn is_too_long(fields: &[Field], max_body: u64) -> bool
    ensures { result ≡ spec.is_too_long max_body fields.now }
{
    number_within(length_text(fields), max_body).is_none()
}
