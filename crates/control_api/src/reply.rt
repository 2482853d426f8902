//! The bytes of replies.
ghost use Rattle.std.specs.Prelude.{◌≡◌, ◌++◌, ◌<◌, IfOk, OnErr, OnOk, IsUtf8};
ghost use Rattle.control_api.specs.Plans.{IsSoundRefusal};
ghost use Rattle.control_api.specs.Replies as spec;

use crate::refusal::Refusal;
use conf_tree::{Tree, write_tree};
use conf_validate::Invalid;
use http_front::write_http;
use itoa::Buffer;
use std::alloc::{AllocError, Global};
use unit_types::{Bytes, Field, Fields, Reply};

/// The content behind an accepted change.
pub(crate) const DONE: &[u8] = b"{\"success\":\"Reconfiguration done.\"}";

/// Puts a reply with this content behind `out`; the content is left out where `head`: the request's method is HEAD.
///
/// Fails for want of memory alone; `out` is then as before.
pub fn put_reply(
    alloc: Global,
    head: bool,
    status: u16,
    body: Bytes,
    out: &mut Bytes,
) -> Result<(), AllocError>
    requires { status < 1000 }
    ensures ok { OnOk result (out.new ≡ out.old ++ spec.reply_bytes head status body) }
    ensures err { OnErr result (out.new ≡ out.old) }
{
    let reply = json_reply(alloc, status, body)?;
    write_http(alloc, &reply, head, true, out)
}

fn json_reply(alloc: Global, status: u16, body: Bytes) -> Result<Reply, AllocError>
    ensures { IfOk result (λ reply. reply ≡ spec.json_reply status body) }
{
    let mut fields = Vec::with_capacity(alloc, 1)?;
    fields.push(Field {
        name: Bytes::copy_of(alloc, b"Content-Type")?,
        value: Bytes::copy_of(alloc, b"application/json")?,
    })?;
    Ok(Reply {
        status,
        fields: Fields::of(fields),
        body,
    })
}

/// Puts the reply of a refusal behind `out`, without its content where `head`.
///
/// Fails for want of memory alone; `out` is then as before.
pub fn put_refusal(
    alloc: Global,
    head: bool,
    refusal: Refusal,
    out: &mut Bytes,
) -> Result<(), AllocError>
    requires { IsSoundRefusal refusal }
    ensures ok { OnOk result (out.new ≡ out.old ++ spec.refusal_bytes head refusal) }
    ensures err { OnErr result (out.new ≡ out.old) }
{
    let status = status_of(&refusal);
    let text = text_of(alloc, refusal)?;
    put_reply(alloc, head, status, text, out)
}

fn status_of(refusal: &Refusal) -> u16
    requires { IsSoundRefusal refusal.now }
    ensures is { result ≡ spec.status_of refusal.now }
    ensures short { result < 1000 }
{
    match refusal {
        Refusal::BadRequest(status) => *status,
        Refusal::NotFound => 404,
        Refusal::BadMethod => 405,
        Refusal::NoDocument => 400,
        Refusal::TooManyChanges => 503,
        Refusal::Broken(_) => 400,
    }
}

fn text_of(alloc: Global, refusal: Refusal) -> Result<Bytes, AllocError>
    requires { IsSoundRefusal refusal }
    ensures { IfOk result (λ text. text ≡ spec.text_of refusal) }
{
    match refusal {
        Refusal::BadRequest(_) => Bytes::copy_of(alloc, b"{\"error\":\"Invalid request.\"}"),
        Refusal::NotFound => Bytes::copy_of(alloc, b"{\"error\":\"Value doesn't exist.\"}"),
        Refusal::BadMethod => Bytes::copy_of(alloc, b"{\"error\":\"Invalid method.\"}"),
        Refusal::NoDocument => Bytes::copy_of(alloc, b"{\"error\":\"Invalid JSON.\"}"),
        Refusal::TooManyChanges => Bytes::copy_of(alloc, b"{\"error\":\"Too many changes.\"}"),
        Refusal::Broken(fault) => text_of_fault(alloc, fault),
    }
}

fn text_of_fault(alloc: Global, fault: Invalid) -> Result<Bytes, AllocError>
    requires { IsUtf8 fault.path }
    ensures { IfOk result (λ text. text ≡ spec.fault_text fault) }
{
    let rule = fault.rule;
    let path = write_tree(alloc, &Tree::Text(fault.path))?;
    let mut digits = Buffer::new();
    let mut text = Bytes::copy_of(alloc, b"{\"error\":\"Invalid configuration.\",\"path\":")?;
    text.append(path.as_slice())?;
    text.append(b",\"rule\":")?;
    text.append(digits.format(rule).as_bytes())?;
    text.append(b"}")?;
    Ok(text)
}
