//! The handlers that are asked.
ghost use Rattle.std.specs.Prelude.{◌≡◌, [], IfOk, take};
ghost use Rattle.conn_bench.specs.Replies.{greeting, text_reply};

use std::alloc::{AllocError, Global};
use unit_types::{Bytes, Field, Fields, Handlers, Reply, Request};

/// The most content that a reply gives back.
const CONTENT: usize = 10_000_000;

/// Handlers of which `hello` greets, and each other gives the content of the request back.
#[derive(Drop)]
pub struct Measured;

// A reply in plain text.
fn text_reply(alloc: Global, body: Bytes) -> Result<Reply, AllocError>
    ensures { IfOk result (λ reply. reply ≡ text_reply body) }
{
    let mut fields = Vec::with_capacity(alloc, 1)?;
    fields.push(Field {
        name: Bytes::copy_of(alloc, b"Content-Type")?,
        value: Bytes::copy_of(alloc, b"text/plain")?,
    })?;
    Ok(Reply {
        status: 200,
        fields: Fields::of(fields),
        body,
    })
}

// What `hello` says.
fn greeting(alloc: Global) -> Result<Bytes, AllocError>
    ensures { IfOk result (λ body. body ≡ greeting) }
{
    Bytes::copy_of(alloc, b"Hello, world!\n")
}

// As much of a content as is given back.
fn echoed(alloc: Global, content: &[u8]) -> Result<Bytes, AllocError>
    ensures { IfOk result (λ body. body ≡ take 10000000 content.now) }
{
    if content.len() <= CONTENT {
        return Bytes::copy_of(alloc, content);
    }
    Bytes::copy_of(alloc, &content[..CONTENT])
}

impl Handlers for Measured {
    ghost use Rattle.conn_bench.specs.Replies.{measured_reply, replies_fit, no_names_fit};

    ghost reply_of = { measured_reply };

    ghost listed = { λ _. [] };

    ghost names_fit = { λ _. no_names_fit };

    ghost replies_fit = { replies_fit };

    fn names(&self) -> &[Bytes] {
        &[]
    }

    fn reply(&self, alloc: Global, name: &[u8], request: &Request) -> Result<Reply, AllocError> {
        let body = if name == b"hello".as_slice() {
            greeting(alloc)?
        } else {
            echoed(alloc, request.body.as_slice())?
        };
        text_reply(alloc, body)
    }
}
