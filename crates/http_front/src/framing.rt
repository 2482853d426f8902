//! How the content behind a head is framed by its fields (RFC 9112, section 6).
ghost use Rattle.std.specs.Prelude.{◌≡◌, ◌<◌, IfSome, IfNone};
ghost use Rattle.http_front.specs.Framing as spec;
ghost use Rattle.http_front.specs.Framing.{content_length};

use crate::fields::{count_of, value_of};
use crate::number::number_within;
use unit_types::Field;

/// How the content behind a head is framed (RFC 9112, section 6).
#[derive(Clone, Copy, Debug, PartialEq, Eq, Drop)]
pub(crate) enum Framing {
    /// It has so many bytes.
    Length(u64),
    /// It comes in chunks, of which at most so many bytes are taken.
    Chunks(u64),
}

/// Whether Content-Length stands there.
pub(crate) fn has_length(fields: &[Field]) -> bool
    ensures { result ≡ spec.has_length fields.now }
{
    count_of(fields, b"content-length") > 0
}

/// Whether Transfer-Encoding stands there.
pub(crate) fn has_coding(fields: &[Field]) -> bool
    ensures { result ≡ spec.has_coding fields.now }
{
    count_of(fields, b"transfer-encoding") > 0
}

/// Whether the content comes in chunks.
pub(crate) fn is_chunked(fields: &[Field]) -> bool
    ensures { result ≡ spec.is_chunked fields.now }
{
    count_of(fields, b"transfer-encoding") == 1
        && value_of(fields, b"transfer-encoding").eq_ignore_ascii_case(b"chunked")
}

/// The value of Content-Length, or nothing.
pub(crate) fn length_text(fields: &[Field]) -> &[u8]
    ensures { result.now ≡ spec.length_text fields.now }
{
    value_of(fields, b"content-length")
}

/// The framing of a content by these fields, where it says no length above the largest that is taken.
pub(crate) fn framing_of(max_body: u64, fields: &[Field]) -> Option<Framing>
    ensures is { IfSome result (λ framing. framing ≡ spec.framing_of max_body fields.now) }
    ensures none { IfNone result (max_body < content_length fields.now) }
{
    if is_chunked(fields) {
        return Some(Framing::Chunks(max_body));
    }
    match number_within(length_text(fields), max_body) {
        Some(len) => Some(Framing::Length(len)),
        None => None,
    }
}
