//! Replies as the bytes of HTTP/1.1 (RFC 9112, sections 4 to 6).
ghost use Rattle.std.specs.Prelude.{◌≡◌, ◌++◌, ◌<◌, true, [], flat_map, length, IfOk, OnOk, OnErr};
ghost use Rattle.http_front.specs.Written as spec;

use itoa::Buffer;
use std::alloc::{AllocError, Global};
use std::mem::replace;
use unit_types::{Bytes, Field, Fields, Reply, frames_message};

/// Puts the bytes of a reply behind `out`: without content where `head`, the request's method, is HEAD, and with
/// `Connection: close` where the connection closes behind it.
///
/// Fails for want of memory alone; `out` is then as before.
pub fn write_http(
    alloc: Global,
    reply: &Reply,
    head: bool,
    close: bool,
    out: &mut Bytes,
) -> Result<(), AllocError>
    requires { reply.now.status < 1000 }
    ensures ok { OnOk result (out.new ≡ out.old ++ spec.http_bytes reply.now head close) }
    ensures err { OnErr result (out.new ≡ out.old) }
{
    put_reply(alloc, reply, close, content_of(reply, head), out)
}

// puts the head of a reply and this content behind `out`, or nothing. Where nothing stands there, they are written into its
// own room, and nothing is copied again.
fn put_reply(
    alloc: Global,
    reply: &Reply,
    close: bool,
    content: &[u8],
    out: &mut Bytes,
) -> Result<(), AllocError>
    requires { reply.now.status < 1000 }
    ensures ok { OnOk result
        (out.new ≡ out.old ++ (spec.head_text reply.now close ++ content.now)) }
    ensures err { OnErr result (out.new ≡ out.old) }
{
    if out.as_slice().is_empty() {
        let room = replace(out, Bytes::of(Vec::new(alloc))).into_vec();
        let mut text = head_text(room, reply, close, content.len())?;
        text.extend_from_slice(content)?;
        *out = Bytes::of(text);
        return Ok(());
    }
    let text = head_text(Vec::new(alloc), reply, close, 0)?;
    append_both(alloc, out, text.as_slice(), content)
}

// puts both texts behind `out`, or none
fn append_both(
    alloc: Global,
    out: &mut Bytes,
    first: &[u8],
    second: &[u8],
) -> Result<(), AllocError>
    ensures ok { OnOk result (out.new ≡ out.old ++ (first.now ++ second.now)) }
    ensures err { OnErr result (out.new ≡ out.old) }
{
    let mut items = replace(out, Bytes::of(Vec::new(alloc))).into_vec();
    let extended = extend_by_both(&mut items, first, second);
    *out = Bytes::of(items);
    extended
}

fn extend_by_both(items: &mut Vec<u8>, first: &[u8], second: &[u8]) -> Result<(), AllocError>
    ensures ok { OnOk result (items.new.items ≡ items.old.items ++ (first.now ++ second.now)) }
    ensures err { OnErr result (items.new.items ≡ items.old.items) }
{
    let len = items.len();
    items.reserve(first.len().saturating_add(second.len()))?;
    items.extend_from_slice(first)?;
    let extended = items.extend_from_slice(second);
    if extended.is_err() {
        items.truncate(len);
    }
    extended
}

/// The length of the content that `write_http` writes: none where `head`, the request's method, is HEAD, and none for a
/// status that has no content (204 and 304; RFC 9110, sections 15.3.5 and 15.4.5).
pub fn content_len(reply: &Reply, head: bool) -> usize
    ensures { result ≡ length (spec.written_content reply.now head) }
{
    content_of(reply, head).len()
}

// the content that is written: none for a HEAD request
fn content_of(reply: &Reply, head: bool) -> &[u8]
    ensures { result.now ≡ spec.written_content reply.now head }
{
    if head || has_no_content(reply.status) {
        b"".as_slice()
    } else {
        reply.body.as_slice()
    }
}

// the bytes of a reply up to its content, in the room of an empty text, with more for so many bytes behind them
fn head_text(room: Vec<u8>, reply: &Reply, close: bool, more: usize) -> Result<Vec<u8>, AllocError>
    requires status { reply.now.status < 1000 }
    requires empty { room.items ≡ [] }
    ensures { IfOk result (λ text. text.items ≡ spec.head_text reply.now close) }
{
    let mut text = room;
    text.reserve(more.saturating_add(head_room(reply.fields.as_slice())))?;
    put_status_line(&mut text, reply.status)?;
    put_kept_lines(&mut text, reply.fields.as_slice())?;
    put_length_line(
        &mut text,
        has_no_content(reply.status),
        reply.body.as_slice().len(),
    )?;
    put_close_line(&mut text, close)?;
    text.extend_from_slice(b"\r\n")?;
    Ok(text)
}

/// As many bytes as the lines of a head have that aren't the reply's own fields.
const OWN_LINES: usize = 128;

/// Bytes of a field line beside its name and its value.
const LINE_MARKS: usize = 4;

// for how many bytes a head takes room at once
fn head_room(fields: &[Field]) -> usize {
    let mut room = OWN_LINES;
    for field in fields {
        let texts = field
            .name
            .as_slice()
            .len()
            .saturating_add(field.value.as_slice().len());
        room = room.saturating_add(texts).saturating_add(LINE_MARKS);
    }
    room
}

fn has_no_content(status: u16) -> bool
    ensures { result ≡ spec.has_no_content status }
{
    status == 204 || status == 304
}

fn put_status_line(text: &mut Vec<u8>, status: u16) -> Result<(), AllocError>
    requires { status < 1000 }
    ensures { OnOk result (text.new.items ≡ text.old.items ++ spec.status_line status) }
{
    text.extend_from_slice(b"HTTP/1.1 ")?;
    text.extend_from_slice(&three_digits(status))?;
    text.extend_from_slice(b" ")?;
    text.extend_from_slice(phrase_of(status).as_bytes())?;
    text.extend_from_slice(b"\r\n")?;
    Ok(())
}

fn three_digits(status: u16) -> [u8; 3]
    requires { status < 1000 }
    ensures { result ≡ spec.three_digits status }
{
    [
        b'0' + (status / 100) as u8,
        b'0' + (status / 10 % 10) as u8,
        b'0' + (status % 10) as u8,
    ]
}

fn put_kept_lines(text: &mut Vec<u8>, fields: &[Field]) -> Result<(), AllocError>
    ensures { OnOk result (text.new.items ≡ text.old.items ++ flat_map spec.kept_line fields.now) }
{
    for field in fields {
        put_kept_line(text, field)?;
    }
    Ok(())
}

fn put_kept_line(text: &mut Vec<u8>, field: &Field) -> Result<(), AllocError>
    ensures { OnOk result (text.new.items ≡ text.old.items ++ spec.kept_line field.now) }
{
    if frames_message(field.name.as_slice()) {
        return Ok(());
    }
    put_line(text, field.name.as_slice(), field.value.as_slice())
}

fn put_length_line(text: &mut Vec<u8>, lacks_content: bool, len: usize) -> Result<(), AllocError>
    ensures { OnOk result (text.new.items ≡ text.old.items ++ spec.length_line lacks_content len) }
{
    if lacks_content {
        return Ok(());
    }
    let mut digits = Buffer::new();
    put_line(text, b"Content-Length", digits.format(len).as_bytes())
}

fn put_close_line(text: &mut Vec<u8>, close: bool) -> Result<(), AllocError>
    ensures { OnOk result (text.new.items ≡ text.old.items ++ spec.close_line close) }
{
    if !close {
        return Ok(());
    }
    put_line(text, b"Connection", b"close")
}

fn put_line(text: &mut Vec<u8>, name: &[u8], value: &[u8]) -> Result<(), AllocError>
    ensures { OnOk result (text.new.items ≡ text.old.items ++ spec.field_line name.now value.now) }
{
    text.extend_from_slice(name)?;
    text.extend_from_slice(b": ")?;
    text.extend_from_slice(value)?;
    text.extend_from_slice(b"\r\n")?;
    Ok(())
}

fn phrase_of(status: u16) -> &'static str
    ensures { result.now ≡ spec.phrase_of status }
{
    match status {
        100 => "Continue",
        200 => "OK",
        201 => "Created",
        202 => "Accepted",
        204 => "No Content",
        206 => "Partial Content",
        301 => "Moved Permanently",
        302 => "Found",
        303 => "See Other",
        304 => "Not Modified",
        307 => "Temporary Redirect",
        308 => "Permanent Redirect",
        400 => "Bad Request",
        401 => "Unauthorized",
        403 => "Forbidden",
        404 => "Not Found",
        405 => "Method Not Allowed",
        409 => "Conflict",
        410 => "Gone",
        413 => "Content Too Large",
        414 => "URI Too Long",
        429 => "Too Many Requests",
        431 => "Request Header Fields Too Large",
        500 => "Internal Server Error",
        501 => "Not Implemented",
        502 => "Bad Gateway",
        503 => "Service Unavailable",
        504 => "Gateway Timeout",
        _ => "",
    }
}

/// The interim reply that asks for the content of a request (RFC 9110, section 15.2.1).
pub fn continue_reply() -> &'static [u8]
    ensures { result.now ≡ spec.continue_bytes true }
{
    b"HTTP/1.1 100 Continue\r\n\r\n"
}

/// The error reply of a status: its number in words of plain text.
///
/// Fails for want of memory alone.
pub fn error_reply(alloc: Global, status: u16) -> Result<Reply, AllocError>
    requires { status < 1000 }
    ensures { IfOk result (λ reply. reply ≡ spec.error_reply status) }
{
    let mut fields = Vec::new(alloc);
    fields.push(Field {
        name: Bytes::copy_of(alloc, b"Content-Type")?,
        value: Bytes::copy_of(alloc, b"text/plain")?,
    })?;
    let mut body = Bytes::copy_of(alloc, b"Error ")?;
    body.append(&three_digits(status))?;
    body.append(b".\r\n")?;
    Ok(Reply {
        status,
        fields: Fields::of(fields),
        body,
    })
}

#[cfg(test)]
mod tests {
    use super::*;

    #[test]
    fn writes_a_reply(rt: HostRuntime) {
        let mut fields = Vec::new(rt.alloc());
        for (name, value) in [
            (b"Content-Type".as_slice(), b"text/plain".as_slice()),
            (b"content-LENGTH".as_slice(), b"7".as_slice()),
        ] {
            let field = Field {
                name: Bytes::copy_of(rt.alloc(), name).expect(&rt, "copied"),
                value: Bytes::copy_of(rt.alloc(), value).expect(&rt, "copied"),
            };
            fields.push(field).expect(&rt, "pushed");
        }
        let reply = Reply {
            status: 200,
            fields: Fields::of(fields),
            body: Bytes::copy_of(rt.alloc(), b"Hello, world!\n").expect(&rt, "copied"),
        };
        let mut out = Bytes::copy_of(rt.alloc(), b"").expect(&rt, "copied");
        write_http(rt.alloc(), &reply, false, false, &mut out).expect(&rt, "written");
        assert!(rt;
            out.as_slice()
                == b"HTTP/1.1 200 OK\r\nContent-Type: text/plain\r\nContent-Length: 14\r\n\r\nHello, world!\n".as_slice()
        );
    }

    #[test]
    fn writes_an_error(rt: HostRuntime) {
        let reply = error_reply(rt.alloc(), 400).expect(&rt, "made");
        let mut out = Bytes::copy_of(rt.alloc(), b"").expect(&rt, "copied");
        write_http(rt.alloc(), &reply, false, true, &mut out).expect(&rt, "written");
        assert!(rt;
            out.as_slice()
                == b"HTTP/1.1 400 Bad Request\r\nContent-Type: text/plain\r\nContent-Length: 12\r\nConnection: close\r\n\r\nError 400.\r\n".as_slice()
        );
    }
}
