//! Handlers whose replies are as long as a measurement asks.
ghost use Rattle.std.specs.Prelude.{◌≡◌, ◌*◌, [], min, length, replicate, IfOk};

use std::alloc::{AllocError, Global};
use unit_types::{Bytes, Fields, Handlers, Reply, Request};

/// How many bytes of reply a byte of the request asks for.
const LETTERS: usize = 1_000_000;

/// The most bytes that ask.
const MOST: usize = 20;

/// Handlers that reply to each byte of the request's content, of which twenty count at most, with a million letters.
#[derive(Drop)]
pub struct Letters;

// As many letters as these bytes ask for.
fn many_letters(alloc: Global, asking: &[u8]) -> Result<Bytes, AllocError>
    ensures { IfOk result (λ letters. letters
        ≡ replicate (1000000 * min 20 (length asking.now)) 120) }
{
    let letters = vec![in alloc; b'x'; LETTERS * MOST.min(asking.len())]?;
    Ok(Bytes::of(letters))
}

impl Handlers for Letters {
    ghost use Rattle.timed_sides.specs.Letters.{letters_reply, letters_fit, no_names_fit};

    ghost reply_of = { letters_reply };

    ghost listed = { λ _. [] };

    ghost names_fit = { λ _. no_names_fit };

    ghost replies_fit = { letters_fit };

    fn names(&self) -> &[Bytes] {
        &[]
    }

    fn reply(&self, alloc: Global, _name: &[u8], request: &Request) -> Result<Reply, AllocError> {
        Ok(Reply {
            status: 200,
            fields: Fields::of(Vec::new(alloc)),
            body: many_letters(alloc, request.body.as_slice())?,
        })
    }
}
