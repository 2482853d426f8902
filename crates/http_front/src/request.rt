//! A request out of its head (RFC 9110, section 7; RFC 9112, section 3).
ghost use Rattle.std.specs.Prelude.{◌≡◌, ◌≤◌, [], length, map, All, IfOk};
ghost use Rattle.httparse.specs.Spans.{IsRequestAt, IsRequestWithin, IsHeaderWithin};
ghost use Rattle.http_front.specs.Head.{head_in};
ghost use Rattle.http_front.specs.Message as spec;

use crate::host::host_of;
use crate::target::{query_of, raw_path_of};
use httparse::spans::{HeaderSpan, RequestSpans};
use path_normal::normal_path;
use std::alloc::{AllocError, Global};
use unit_types::{Addr, Bytes, Field, Fields, Request, lowercase};

/// The request, without content, of a head whose parts stand at these places of its block.
pub(crate) fn request_of(
    alloc: Global,
    from: Addr,
    to: Addr,
    block: &[u8],
    spans: &RequestSpans,
    headers: &[HeaderSpan],
) -> Result<Request, AllocError>
    requires at { IsRequestAt block.now headers.now spans.now (head_in block.now) }
    requires within { IsRequestWithin block.now headers.now spans.now }
    ensures { IfOk result
        (λ r. r ≡ spec.request_of from to (spec.message_of (head_in block.now) [])) }
{
    let target = spans.path.of(block);
    let fields = fields_of(alloc, block, &headers[..spans.headers])?;
    Ok(Request {
        method: Bytes::copy_of(alloc, spans.method.of(block))?,
        target: Bytes::copy_of(alloc, target)?,
        path: normal_path(alloc, raw_path_of(target))?,
        query: Bytes::copy_of(alloc, query_of(target))?,
        host: host_of(alloc, target, fields.as_slice())?,
        minor: spans.version,
        fields,
        from,
        to,
        body: Bytes::of(Vec::new(alloc)),
    })
}

fn fields_of(alloc: Global, block: &[u8], headers: &[HeaderSpan]) -> Result<Fields, AllocError>
    requires { All (IsHeaderWithin (length block.now)) headers.now }
    ensures { IfOk result (λ fields. fields ≡ map (spec.field_at block.now) headers.now) }
{
    let mut fields = Vec::with_capacity(alloc, headers.len())?;
    for header in headers {
        fields.push(field_at(alloc, block, *header)?)?;
    }
    Ok(Fields::of(fields))
}

fn field_at(alloc: Global, block: &[u8], header: HeaderSpan) -> Result<Field, AllocError>
    requires { IsHeaderWithin (length block.now) header }
    ensures { IfOk result (λ field. field ≡ spec.field_at block.now header) }
{
    Ok(Field {
        name: lowercase(alloc, header.name.of(block))?,
        value: Bytes::copy_of(alloc, header.value.of(block))?,
    })
}
