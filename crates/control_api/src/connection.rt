//! One control connection.
ghost use Rattle.std.specs.Prelude.{◌≡◌, ◌++◌, ◌∷◌, [], true, IfOk, OnErr};
ghost use Rattle.conf_book.specs.Books.{documents_of};
ghost use Rattle.conf_tree.specs.Document.{IsDocument};
ghost use Rattle.conf_tree.specs.View.{data_of};
ghost use Rattle.conf_validate.specs.Answers.{IsConfiguration};
ghost use Rattle.control_api.specs.Control.{answer_outcome, control_reply, request_outcome};
ghost use Rattle.control_api.specs.Plans.{answer_in, IsSoundNext, IsSoundPlan, next_outcome};
ghost use Rattle.control_api.specs.Replies.{done_text, reply_bytes};
ghost use Rattle.http_front.specs.Written.{continue_bytes};

use crate::front::{Front, front_of};
use crate::plan::{Plan, plan_for};
use crate::refusal::Refusal;
use crate::reply::{DONE, put_refusal, put_reply};
use conf_book::Book;
use conf_tree::Tree;
use conf_validate::Conf;
use http_front::{Next, continue_reply, is_head_request};
use std::alloc::{AllocError, Global};
use unit_types::{Bytes, Request};

/// The reply to one control connection, whose bytes are `request` and end there. An accepted change is published in the
/// book.
///
/// The reply and the documents are those of `control_reply`; what is refused leaves the documents. Fails for want of memory
/// alone; the book is then as before.
pub fn control(alloc: Global, book: &mut Book, request: &[u8]) -> Result<Bytes, AllocError>
    ensures reply { IfOk result (λ reply. reply
        ≡ (control_reply (documents_of book.old) book.old.names request.now true).reply) }
    ensures documents { IfOk result (λ _. documents_of book.new
        ≡ (control_reply (documents_of book.old) book.old.names request.now true).documents) }
    ensures names { book.new.names ≡ book.old.names }
    ensures err { OnErr result (book.new ≡ book.old) }
{
    let front = front_of(alloc, request)?;
    control_at(alloc, book, front)
}

/// The reply to what stands at the front of a control connection's bytes. An accepted change is published in the book.
///
/// Fails for want of memory alone; the book is then as before.
pub fn control_at(alloc: Global, book: &mut Book, front: Front) -> Result<Bytes, AllocError>
    requires { IsSoundNext front.next }
    ensures reply { IfOk result (λ reply. reply ≡ continue_bytes front.is_due
        ++ (next_outcome (documents_of book.old) book.old.names front.next).reply) }
    ensures documents { IfOk result (λ _. documents_of book.new
        ≡ (next_outcome (documents_of book.old) book.old.names front.next).documents) }
    ensures names { book.new.names ≡ book.old.names }
    ensures err { OnErr result (book.new ≡ book.old) }
{
    let Front { is_due, next } = front;
    let due = continue_of(alloc, is_due)?;
    reply_to(alloc, book, next, due)
}

/// `100 Continue` where it is due, or nothing.
///
/// Fails for want of memory alone.
pub fn continue_of(alloc: Global, is_due: bool) -> Result<Bytes, AllocError>
    ensures { IfOk result (λ bytes. bytes ≡ continue_bytes is_due) }
{
    Bytes::copy_of(alloc, continue_text(is_due))
}

fn continue_text(is_due: bool) -> &'static [u8]
    ensures { result.now ≡ continue_bytes is_due }
{
    if is_due {
        continue_reply()
    } else {
        b"".as_slice()
    }
}

/// The reply to what stands at the front, behind the bytes so far.
fn reply_to(
    alloc: Global,
    book: &mut Book,
    next: Next,
    mut reply: Bytes,
) -> Result<Bytes, AllocError>
    requires { IsSoundNext next }
    ensures reply { IfOk result (λ bytes. bytes ≡ reply
        ++ (next_outcome (documents_of book.old) book.old.names next).reply) }
    ensures documents { IfOk result (λ _. documents_of book.new
        ≡ (next_outcome (documents_of book.old) book.old.names next).documents) }
    ensures names { book.new.names ≡ book.old.names }
    ensures err { OnErr result (book.new ≡ book.old) }
{
    match next {
        Next::Request(request) => reply_to_request(alloc, book, &request, reply),
        Next::Bad(status) => {
            put_refusal(alloc, false, Refusal::BadRequest(status), &mut reply)?;
            Ok(reply)
        }
        Next::Continue => Ok(reply),
        Next::NeedMore => Ok(reply),
        Next::End => Ok(reply),
        Next::Cut => Ok(reply),
    }
}

fn reply_to_request(
    alloc: Global,
    book: &mut Book,
    request: &Request,
    reply: Bytes,
) -> Result<Bytes, AllocError>
    ensures reply { IfOk result (λ bytes. bytes ≡ reply
        ++ (request_outcome (documents_of book.old) book.old.names request.now.method
        request.now.target request.now.body).reply) }
    ensures documents { IfOk result (λ _. documents_of book.new
        ≡ (request_outcome (documents_of book.old) book.old.names request.now.method
        request.now.target request.now.body).documents) }
    ensures names { book.new.names ≡ book.old.names }
    ensures err { OnErr result (book.new ≡ book.old) }
{
    let head = is_head_request(request);
    let plan = plan_for(alloc, book, request)?;
    follow(alloc, book, plan, head, reply)
}

/// Does what is planned.
fn follow(
    alloc: Global,
    book: &mut Book,
    plan: Plan,
    head: bool,
    mut reply: Bytes,
) -> Result<Bytes, AllocError>
    requires { IsSoundPlan book.old.names plan }
    ensures reply { IfOk result (λ bytes. bytes ≡ reply
        ++ (answer_outcome (documents_of book.old) head (answer_in plan)).reply) }
    ensures documents { IfOk result (λ _. documents_of book.new
        ≡ (answer_outcome (documents_of book.old) head (answer_in plan)).documents) }
    ensures names { book.new.names ≡ book.old.names }
    ensures err { OnErr result (book.new ≡ book.old) }
{
    match plan {
        Plan::Show(text) => {
            put_reply(alloc, head, 200, text, &mut reply)?;
            Ok(reply)
        }
        Plan::Refuse(refusal) => {
            put_refusal(alloc, head, refusal, &mut reply)?;
            Ok(reply)
        }
        Plan::Accept(document, conf) => accept(alloc, book, document, conf, head, reply),
    }
}

/// Writes the reply of an accepted change, and then publishes it, so that nothing is published without a reply.
fn accept(
    alloc: Global,
    book: &mut Book,
    document: Tree,
    conf: Conf,
    head: bool,
    mut reply: Bytes,
) -> Result<Bytes, AllocError>
    requires document { IsDocument (data_of document) }
    requires said { IsConfiguration (data_of document) book.old.names conf }
    ensures reply { IfOk result (λ bytes. bytes ≡ reply ++ reply_bytes head 200 done_text) }
    ensures documents { IfOk result (λ _. documents_of book.new
        ≡ documents_of book.old ++ data_of document ∷ []) }
    ensures names { book.new.names ≡ book.old.names }
    ensures err { OnErr result (book.new ≡ book.old) }
{
    put_reply(alloc, head, 200, Bytes::copy_of(alloc, DONE)?, &mut reply)?;
    book.publish(alloc, document, conf)?;
    Ok(reply)
}
