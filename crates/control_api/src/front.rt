//! The request at the front of the bytes.
ghost use Rattle.std.specs.Prelude.{◌≡◌, true, IfOk};
ghost use Rattle.control_api.specs.Control.{content_limit};
ghost use Rattle.control_api.specs.Plans.{IsSoundNext, nowhere};
ghost use Rattle.http_front.specs.NextUnit.{next_unit};
ghost use Rattle.http_front.specs.Reading.{answer_at};

use http_front::{Next, Reader, laws_of_units};
use std::alloc::{AllocError, Global};
use unit_types::{Addr, Bytes};

/// Bytes of a control request's content. A longer one is refused with 413 (RFC 9110, section 15.5.14).
const CONTENT_LIMIT: u64 = 1_048_576;

/// What stands at the front of a control connection's bytes, and whether `100 Continue` is due before its reply.
#[derive(Debug, Drop)]
pub struct Front {
    /// Whether `100 Continue` is due.
    pub is_due: bool,
    /// The request, or why there is none.
    pub next: Next,
}

/// The front of the bytes of a control connection, which end there.
///
/// Fails for want of memory alone.
pub fn front_of(alloc: Global, bytes: &[u8]) -> Result<Front, AllocError>
    ensures due { IfOk result (λ front. front.is_due
        ≡ (next_unit bytes.now true content_limit).continue_due) }
    ensures next { IfOk result (λ front. front.next
        ≡ answer_at nowhere nowhere (next_unit bytes.now true content_limit).found) }
    ensures sound { IfOk result (λ front. IsSoundNext front.next) }
{
    laws_of_units();
    let nowhere = Addr { ip: 0, port: 0 };
    let mut reader = Reader::over(Bytes::copy_of(alloc, bytes)?, nowhere, nowhere);
    reader.end();
    match reader.next(alloc, CONTENT_LIMIT)? {
        Next::Continue => Ok(Front {
            is_due: true,
            next: reader.next(alloc, CONTENT_LIMIT)?,
        }),
        next => Ok(Front {
            is_due: false,
            next,
        }),
    }
}
