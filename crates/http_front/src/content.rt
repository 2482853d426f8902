//! The content behind a head (RFC 9112, sections 6.3 and 7.1).
ghost use Rattle.std.specs.Prelude.{◌≡◌};
ghost use Rattle.http_front.specs.Content as spec;

use crate::framing::{is_chunked, length_text};
use crate::number::number_within;
use unit_types::{Bytes, Field, Request};

/// The content at the front of some bytes. It stands in definitions alone.
#[derive(Debug, Drop)]
pub(crate) enum Content {
    /// The whole content, and how many bytes it takes.
    Whole(Bytes, usize),
    /// The bytes are refused with that status.
    Refused(u16),
    /// More bytes are needed.
    Open,
}

/// Whether the client waits for `100 Continue` before it sends the content.
pub(crate) fn is_continue_due(request: &Request) -> bool
    ensures { result ≡ spec.is_continue_due request.now.minor request.now.fields }
{
    let fields = request.fields.as_slice();
    request.minor == 1 && expects_continue(fields) && has_content(fields)
}

fn has_content(fields: &[Field]) -> bool
    ensures { result ≡ spec.has_content fields.now }
{
    number_within(length_text(fields), 0).is_none() || is_chunked(fields)
}

fn expects_continue(fields: &[Field]) -> bool
    ensures { result ≡ spec.expects_continue fields.now }
{
    fields.iter().any(|field| is_expectation(field))
}

fn is_expectation(field: &Field) -> bool
    ensures { result ≡ spec.is_expectation field.now }
{
    field.name.as_slice() == b"expect".as_slice()
        && field.value.as_slice().eq_ignore_ascii_case(b"100-continue")
}
