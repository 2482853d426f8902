//! The values of a line, as they are written.
ghost use Rattle.std.specs.Prelude.{◌≡◌, ◌<◌, true, option_map};
ghost use Rattle.std.specs.Fmt.{digit_glyph};
ghost use Rattle.path_normal.specs.Value.{value_left};
ghost use Rattle.path_normal.specs.Variables.{decimal, dotted};
ghost use Rattle.access_log.specs.Buffer.{Appends};
ghost use Rattle.access_log.specs.Line.{is_plain, log_value, logged, logged_byte, logged_bytes, protocol_of, request_line_of, three_digits, value_in_request};

use crate::buffer::LineBuffer;
use itoa::Buffer;
use path_normal::{Value, value_of};
use unit_types::{Addr, Request};

/// What a line tells of.
#[derive(Clone, Copy, Drop)]
pub(crate) struct Exchange<'a> {
    /// The client's address.
    pub(crate) from: Addr,
    /// The request as it came, if one was read.
    pub(crate) request: Option<&'a Request>,
    /// The status of the reply.
    pub(crate) status: u16,
    /// The length of the content that was written, in bytes.
    pub(crate) body: u64,
}

/// Puts the value of a variable behind the line.
pub(crate) fn append_value(buffer: &mut LineBuffer, name: &[u8], exchange: &Exchange<'_>)
    requires { exchange.now.status < 1000 }
    ensures { Appends (logged (log_value exchange.now.from
        (option_map (λ r. r.now) exchange.now.request) exchange.now.status exchange.now.body
        name.now)) buffer.old buffer.new }
{
    if name == b"remote_addr".as_slice() {
        return append_address(buffer, exchange.from.ip);
    }
    if name == b"dollar".as_slice() {
        return buffer.push(b'$');
    }
    if name == b"status".as_slice() {
        return append_text(buffer, &digits_of(exchange.status));
    }
    if name == b"body_bytes_sent".as_slice() {
        let mut digits = Buffer::new();
        let number = digits.format(exchange.body);
        return append_text(buffer, number.as_bytes());
    }
    match exchange.request {
        Some(request) => append_request_value(buffer, name, request),
        None => buffer.push(b'-'),
    }
}

/// Puts what a variable tells of the request behind the line.
fn append_request_value(buffer: &mut LineBuffer, name: &[u8], request: &Request)
    ensures { Appends (logged (value_in_request request.now name.now)) buffer.old buffer.new }
{
    if name == b"request_line".as_slice() {
        return append_request_line(buffer, request);
    }
    append_logged(buffer, value_of(name, request))
}

/// Puts the method, the target and the protocol behind the line.
fn append_request_line(buffer: &mut LineBuffer, request: &Request)
    ensures { Appends (logged (request_line_of request.now)) buffer.old buffer.new }
{
    append_bytes(buffer, request.method.as_slice());
    buffer.push(b' ');
    append_bytes(buffer, request.target.as_slice());
    buffer.push(b' ');
    append_bytes(buffer, protocol_of(request.minor));
}

/// The protocol's name and version.
fn protocol_of(minor: u8) -> &'static [u8]
    ensures { result.now ≡ protocol_of minor }
{
    if minor == 0 { b"HTTP/1.0" } else { b"HTTP/1.1" }
}

/// The status in three digits.
fn digits_of(status: u16) -> [u8; 3]
    requires { status < 1000 }
    ensures { result ≡ three_digits status }
{
    [
        b'0' + (status / 100) as u8,
        b'0' + (status / 10 % 10) as u8,
        b'0' + (status % 10) as u8,
    ]
}

/// Puts an address behind the line: four decimal numbers with periods between them.
fn append_address(buffer: &mut LineBuffer, ip: u32)
    ensures { Appends (logged (dotted ip)) buffer.old buffer.new }
{
    append_number(buffer, ip / 0x100_0000 % 0x100);
    buffer.push(b'.');
    append_number(buffer, ip / 0x1_0000 % 0x100);
    buffer.push(b'.');
    append_number(buffer, ip / 0x100 % 0x100);
    buffer.push(b'.');
    append_number(buffer, ip % 0x100);
}

/// Puts a number behind the line.
fn append_number(buffer: &mut LineBuffer, number: u32)
    requires { number < 256 }
    ensures { Appends (decimal number) buffer.old buffer.new }
{
    if number < 10 {
        return buffer.push(b'0' + number as u8);
    }
    if number < 100 {
        buffer.push(b'0' + (number / 10) as u8);
        return buffer.push(b'0' + (number % 10) as u8);
    }
    buffer.push(b'0' + (number / 100) as u8);
    buffer.push(b'0' + (number / 10 % 10) as u8);
    buffer.push(b'0' + (number % 10) as u8);
}

/// Puts a value behind the line; an empty one is `-`.
fn append_logged(buffer: &mut LineBuffer, value: Value<'_>)
    ensures { Appends (logged (value_left value.entry)) buffer.old buffer.new }
{
    let mut rest = value;
    match rest.next() {
        Some(first) => {
            append_byte(buffer, first);
            append_rest(buffer, rest);
        }
        None => buffer.push(b'-'),
    }
}

/// Puts what is left of a value behind the line.
fn append_rest(buffer: &mut LineBuffer, rest: Value<'_>)
    ensures { Appends (logged_bytes (value_left rest.entry)) buffer.old buffer.new }
{
    for byte in rest {
        append_byte(buffer, byte);
    }
}

/// Puts a text behind the line as a value is written; an empty one is `-`.
fn append_text(buffer: &mut LineBuffer, text: &[u8])
    ensures { Appends (logged text.now) buffer.old buffer.new }
{
    if text.is_empty() {
        buffer.push(b'-');
    } else {
        append_bytes(buffer, text);
    }
}

/// The same, nothing where it is empty.
fn append_bytes(buffer: &mut LineBuffer, text: &[u8])
    ensures { Appends (logged_bytes text.now) buffer.old buffer.new }
{
    for byte in text {
        append_byte(buffer, *byte);
    }
}

/// Puts a byte of a value behind the line, written `\xHH` where it isn't plain.
fn append_byte(buffer: &mut LineBuffer, byte: u8)
    ensures { Appends (logged_byte byte) buffer.old buffer.new }
{
    if is_plain(byte) {
        return buffer.push(byte);
    }
    buffer.push(b'\\');
    buffer.push(b'x');
    buffer.push(capital_digit(byte / 16));
    buffer.push(capital_digit(byte % 16));
}

/// Whether the byte is 0x20 to 0x7E, and neither `"` nor `\`.
fn is_plain(byte: u8) -> bool
    ensures { result ≡ is_plain byte }
{
    byte >= 0x20 && (byte <= 0x7E && (!(byte == b'"') && !(byte == b'\\')))
}

/// The hexadecimal digit of a number below 16.
fn capital_digit(number: u8) -> u8
    requires { number < 16 }
    ensures { result ≡ digit_glyph true number }
{
    if number < 10 {
        b'0' + number
    } else {
        b'A' + (number - 10)
    }
}
