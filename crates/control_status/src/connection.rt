//! One control connection.
ghost use Rattle.std.specs.Prelude.{◌≡◌, ◌++◌, true, IfOk, OnErr};
ghost use Rattle.conf_book.specs.Books.{documents_of};
ghost use Rattle.control_status.specs.Status.{control_status_of, status_bytes, status_next, status_outcome};
ghost use Rattle.control_status.specs.Status as spec;
ghost use Rattle.control_api.specs.Plans.{IsSoundNext};
ghost use Rattle.http_front.specs.Written.{continue_bytes};

use crate::text::status_text;
use conf_book::Book;
use control_api::{
    Front, Refusal, continue_of, control_at, front_of, put_refusal, put_reply, without_final_slash,
};
use http_front::{Next, is_head_request, raw_path_of};
use status_book::Looks;
use std::alloc::{AllocError, Global};
use unit_types::{Bytes, Request};

/// The reply to one control connection, whose bytes are `request` and end there, with what was looked at. An accepted change is
/// published in the book.
///
/// The reply and the documents are those of `control_status_of`; what is refused leaves the documents. Fails for want of memory
/// alone; the book is then as before.
#[tactic(auto, using(crate::proofs::Outcomes::reply_told, crate::proofs::Outcomes::documents_told))]
pub fn control_status(
    alloc: Global,
    book: &mut Book,
    looks: &Looks,
    request: &[u8],
) -> Result<Bytes, AllocError>
    ensures reply { IfOk result (λ reply. reply ≡ (control_status_of (documents_of book.old)
        book.old.names looks.now.counts request.now true).reply) }
    ensures documents { IfOk result (λ _. documents_of book.new
        ≡ (control_status_of (documents_of book.old) book.old.names looks.now.counts request.now
        true).documents) }
    ensures names { book.new.names ≡ book.old.names }
    ensures err { OnErr result (book.new ≡ book.old) }
{
    let front = front_of(alloc, request)?;
    reply_to(alloc, book, looks, front)
}

/// The reply to what stands at the front.
#[tactic(auto, using(crate::proofs::Outcomes::others_told))]
fn reply_to(
    alloc: Global,
    book: &mut Book,
    looks: &Looks,
    front: Front,
) -> Result<Bytes, AllocError>
    requires { IsSoundNext front.next }
    ensures reply { IfOk result (λ bytes. bytes ≡ continue_bytes front.is_due
        ++ (status_next (documents_of book.old) book.old.names looks.now.counts front.next).reply) }
    ensures documents { IfOk result (λ _. documents_of book.new
        ≡ (status_next (documents_of book.old) book.old.names looks.now.counts
        front.next).documents) }
    ensures names { book.new.names ≡ book.old.names }
    ensures err { OnErr result (book.new ≡ book.old) }
{
    let Front { is_due, next } = front;
    match next {
        Next::Request(request) => reply_to_request(alloc, book, looks, is_due, request),
        next => control_at(alloc, book, Front { is_due, next }),
    }
}

fn reply_to_request(
    alloc: Global,
    book: &mut Book,
    looks: &Looks,
    is_due: bool,
    request: Request,
) -> Result<Bytes, AllocError>
    ensures reply { IfOk result (λ bytes. bytes ≡ continue_bytes is_due
        ++ (status_outcome (documents_of book.old) book.old.names looks.now.counts request.method
        request.target request.body).reply) }
    ensures documents { IfOk result (λ _. documents_of book.new
        ≡ (status_outcome (documents_of book.old) book.old.names looks.now.counts request.method
        request.target request.body).documents) }
    ensures names { book.new.names ≡ book.old.names }
    ensures err { OnErr result (book.new ≡ book.old) }
{
    if is_status(request.target.as_slice()) {
        status_reply(alloc, looks, is_due, &request)
    } else {
        let next = Next::Request(request);
        control_at(alloc, book, Front { is_due, next })
    }
}

fn is_status(target: &[u8]) -> bool
    ensures { result ≡ spec.is_status target.now }
{
    without_final_slash(raw_path_of(target)) == b"/status".as_slice()
}

/// The reply to a request for the status.
fn status_reply(
    alloc: Global,
    looks: &Looks,
    is_due: bool,
    request: &Request,
) -> Result<Bytes, AllocError>
    ensures { IfOk result (λ bytes. bytes ≡ continue_bytes is_due
        ++ status_bytes looks.now.counts request.now.method) }
{
    let head = is_head_request(request);
    let mut reply = continue_of(alloc, is_due)?;
    if request.method.as_slice() == b"GET".as_slice() {
        put_reply(alloc, head, 200, status_text(alloc, looks)?, &mut reply)?;
    } else {
        put_refusal(alloc, head, Refusal::BadMethod, &mut reply)?;
    }
    Ok(reply)
}
