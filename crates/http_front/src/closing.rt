//! What a request asks of its connection (RFC 9112, section 9).
ghost use Rattle.std.specs.Prelude.{◌≡◌, ◌<◌, length, position, reverse, IfSome};
ghost use Rattle.httparse.specs.Grammar.{skip_ows};
ghost use Rattle.http_front.specs.Message as spec;

use httparse::is_space_or_tab;
use unit_types::{Field, Request};

/// Whether the method is HEAD, to which a reply has no content (RFC 9110, section 9.3.2).
pub fn is_head_request(request: &Request) -> bool
    ensures { result ≡ spec.is_head_request request.now }
{
    request.method.as_slice() == b"HEAD".as_slice()
}

/// Whether the connection ends with that request: it is of HTTP/1.0, or a Connection field has the element `close`.
pub fn is_last_request(request: &Request) -> bool
    ensures { result ≡ spec.is_last_request request.now }
{
    request.minor == 0 || some_asks_close(request.fields.as_slice())
}

fn some_asks_close(fields: &[Field]) -> bool
    ensures { result ≡ spec.some_asks_close fields.now }
{
    fields.iter().any(|field| asks_close(field))
}

fn asks_close(field: &Field) -> bool
    ensures { result ≡ spec.asks_close field.now }
{
    field.name.as_slice() == b"connection".as_slice() && lists_close(field.value.as_slice())
}

fn lists_close(value: &[u8]) -> bool
    ensures { result ≡ spec.lists_close value.now }
{
    let mut start = 0;
    while let Some(len) = comma_place(&value[start..]) {
        if is_close(&value[start..start + len]) {
            return true;
        }
        start += len + 1;
    }
    is_close(&value[start..])
}

// where the first comma stands
fn comma_place(value: &[u8]) -> Option<usize>
    ensures place { result ≡ position spec.is_comma value.now }
    ensures within { IfSome result (λ at. at < length value.now) }
{
    value.iter().position(|b| *b == b',')
}

fn is_close(element: &[u8]) -> bool
    ensures { result ≡ spec.is_close element.now }
{
    trim_white_space(element).eq_ignore_ascii_case(b"close")
}

// the text without the spaces and tabs at its ends
fn trim_white_space(text: &[u8]) -> &[u8]
    ensures { result.now ≡ spec.trimmed text.now }
{
    trim_behind(trim_before(text))
}

fn trim_before(text: &[u8]) -> &[u8]
    ensures { result.now ≡ skip_ows text.now }
{
    let mut rest = text;
    while let [first, tail @ ..] = rest
        && is_space_or_tab(*first)
    {
        rest = tail;
    }
    rest
}

fn trim_behind(text: &[u8]) -> &[u8]
    ensures { result.now ≡ reverse (skip_ows (reverse text.now)) }
{
    let mut rest = text;
    while let [front @ .., last] = rest
        && is_space_or_tab(*last)
    {
        rest = front;
    }
    rest
}
