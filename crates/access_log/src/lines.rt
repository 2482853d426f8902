//! Lines of the access log.
ghost use Rattle.std.specs.Prelude.{◌≡◌, ◌<◌, ◌++◌, option_map, OnOk, OnErr};
ghost use Rattle.access_log.specs.Buffer.{Appends};
ghost use Rattle.access_log.specs.Line.{log_line, log_text};

use crate::buffer::LineBuffer;
use crate::format::Format;
use crate::values::{Exchange, append_value};
use path_normal::{Piece, pieces_in};
use std::alloc::AllocError;
use unit_types::{Addr, Bytes, Request};

/// Puts the line of a request behind `out`: the format with each value in its variable's place, cut to its first 1,023
/// bytes, and LF. Of a value, each byte outside 0x20 to 0x7E, each `"` and each `\` is written `\xHH` with capital
/// digits, and an empty value is `-`.
///
/// `from` is the client's address, `request` the request as it came, if one was read, `status` that of the reply, and
/// `body` the length of the content that was written, in bytes. Without a request all its values are empty but
/// `remote_addr` and `dollar`.
///
/// Fails for want of memory alone; `out` is then as before.
pub fn line(
    format: &Format,
    from: Addr,
    request: Option<&Request>,
    status: u16,
    body: u64,
    out: &mut Bytes,
) -> Result<(), AllocError>
    requires { status < 1000 }
    ensures ok { OnOk result (out.new ≡ out.old
        ++ log_line format.now from (option_map (λ r. r.now) request.entry) status body) }
    ensures err { OnErr result (out.new ≡ out.old) }
{
    let exchange = Exchange {
        from,
        request,
        status,
        body,
    };
    let mut buffer = LineBuffer::new();
    append_text(&mut buffer, format.text(), &exchange);
    buffer.append_to(out)
}

/// Puts the text of a format behind the line, each value in its variable's place.
fn append_text(buffer: &mut LineBuffer, format: &[u8], exchange: &Exchange<'_>)
    requires { exchange.now.status < 1000 }
    ensures { Appends (log_text format.now exchange.now.from
        (option_map (λ r. r.now) exchange.now.request) exchange.now.status exchange.now.body)
        buffer.old buffer.new }
{
    for piece in pieces_in(format) {
        match piece {
            Piece::Byte(byte) => buffer.push(byte),
            Piece::Variable(name) => append_value(buffer, name, exchange),
            Piece::Stray => buffer.push(b'$'),
        }
    }
}
