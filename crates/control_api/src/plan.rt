//! What a request is answered, before anything is changed.
ghost use Rattle.std.specs.Prelude.{◌≡◌, IfOk};
ghost use Rattle.conf_book.specs.Books.{documents_of, newest_document};
ghost use Rattle.conf_tree.specs.Document.{IsDocument};
ghost use Rattle.conf_tree.specs.Paths as paths;
ghost use Rattle.conf_tree.specs.Text.{document_of};
ghost use Rattle.conf_tree.specs.View.{data_of};
ghost use Rattle.conf_validate.specs.Valid.{fault_of};
ghost use Rattle.control_api.specs.Control.{answer_of, body_answer, change_answer, change_at, method_answer, shown_or_absent, valid_answer, value_at};
ghost use Rattle.control_api.specs.Plans.{answer_in, change_of, IsSoundChange, IsSoundPlan};
ghost use Rattle.control_api.specs.declared.method.Method.TheVariants.{Get};
ghost use Rattle.control_api.specs.Control as spec;

use crate::change::{Change, append_at, put_at, remove_at};
use crate::keys::{keys_of, path_of};
use crate::method::{Method, method_of};
use crate::refusal::Refusal;
use conf_book::Book;
use conf_tree::{Tree, get, read_tree, write_tree};
use conf_validate::{Conf, ConfFault, paths_of_faults_are_texts, validate};
use std::alloc::{AllocError, Global};
use unit_types::{Bytes, Request};

/// Changes that are accepted. A further one is refused with 503 (RFC 9110, section 15.6.4).
const CHANGE_LIMIT: usize = 1_000;

/// What a request is answered.
#[derive(Drop)]
pub(crate) enum Plan {
    /// This text of a value.
    Show(Bytes),
    /// That this document is accepted, which says this.
    Accept(Tree, Conf),
    /// A refusal.
    Refuse(Refusal),
}

/// The plan for a request.
///
/// Fails for want of memory alone.
pub(crate) fn plan_for(alloc: Global, book: &Book, request: &Request) -> Result<Plan, AllocError>
    ensures is { IfOk result (λ plan. answer_in plan
        ≡ answer_of (documents_of book.now) book.now.names request.now.method request.now.target
        request.now.body) }
    ensures sound { IfOk result (IsSoundPlan book.now.names) }
{
    match keys_of(alloc, request.target.as_slice())? {
        Some(keys) => plan_at(alloc, book, keys, request),
        None => Ok(Plan::Refuse(Refusal::NotFound)),
    }
}

fn plan_at(
    alloc: Global,
    book: &Book,
    keys: Vec<Bytes>,
    request: &Request,
) -> Result<Plan, AllocError>
    ensures is { IfOk result (λ plan. answer_in plan
        ≡ method_answer (documents_of book.now) book.now.names keys.items request.now.body
        (spec.method_of request.now.method)) }
    ensures sound { IfOk result (IsSoundPlan book.now.names) }
{
    let body = request.body.as_slice();
    match method_of(request.method.as_slice()) {
        Some(Method::Get) => plan_get(alloc, book, keys),
        Some(Method::Put) => plan_put(alloc, book, keys, body),
        Some(Method::Post) => plan_post(alloc, book, keys, body),
        Some(Method::Delete) => plan_delete(alloc, book, keys),
        None => Ok(Plan::Refuse(Refusal::BadMethod)),
    }
}

fn plan_get(alloc: Global, book: &Book, keys: Vec<Bytes>) -> Result<Plan, AllocError>
    ensures is { IfOk result (λ plan. answer_in plan
        ≡ shown_or_absent (value_at keys.items (newest_document (documents_of book.now)))) }
    ensures sound { IfOk result (IsSoundPlan book.now.names) }
{
    let Some(path) = path_of(keys) else {
        return Ok(Plan::Refuse(Refusal::NotFound));
    };
    match get(book.newest_document(), &path) {
        Some(value) => Ok(Plan::Show(write_tree(alloc, value)?)),
        None => Ok(Plan::Refuse(Refusal::NotFound)),
    }
}

fn plan_put(alloc: Global, book: &Book, keys: Vec<Bytes>, body: &[u8]) -> Result<Plan, AllocError>
    ensures is { IfOk result (λ plan. answer_in plan
        ≡ body_answer (documents_of book.now) book.now.names keys.items (λ value.
        paths.put keys.items value (newest_document (documents_of book.now))) (document_of
        body.now)) }
    ensures sound { IfOk result (IsSoundPlan book.now.names) }
{
    match read_tree(alloc, body)? {
        Some(value) => plan_change(
            alloc,
            book,
            put_at(alloc, book.newest_document(), keys, value)?,
        ),
        None => Ok(Plan::Refuse(Refusal::NoDocument)),
    }
}

fn plan_post(alloc: Global, book: &Book, keys: Vec<Bytes>, body: &[u8]) -> Result<Plan, AllocError>
    ensures is { IfOk result (λ plan. answer_in plan
        ≡ body_answer (documents_of book.now) book.now.names keys.items (λ value.
        paths.append keys.items value (newest_document (documents_of book.now))) (document_of
        body.now)) }
    ensures sound { IfOk result (IsSoundPlan book.now.names) }
{
    match read_tree(alloc, body)? {
        Some(value) => plan_change(
            alloc,
            book,
            append_at(alloc, book.newest_document(), keys, value)?,
        ),
        None => Ok(Plan::Refuse(Refusal::NoDocument)),
    }
}

fn plan_delete(alloc: Global, book: &Book, keys: Vec<Bytes>) -> Result<Plan, AllocError>
    ensures is { IfOk result (λ plan. answer_in plan
        ≡ change_answer (documents_of book.now) book.now.names (change_at keys.items (paths.remove
        keys.items (newest_document (documents_of book.now))))) }
    ensures sound { IfOk result (IsSoundPlan book.now.names) }
{
    let change = remove_at(alloc, book.newest_document(), keys)?;
    plan_change(alloc, book, change)
}

/// The plan for a change of the newest document.
fn plan_change(alloc: Global, book: &Book, change: Change) -> Result<Plan, AllocError>
    requires { IsSoundChange change }
    ensures is { IfOk result (λ plan. answer_in plan
        ≡ change_answer (documents_of book.now) book.now.names (change_of change)) }
    ensures sound { IfOk result (IsSoundPlan book.now.names) }
{
    match change {
        Change::Changed(document) => {
            if CHANGE_LIMIT < book.documents().len() {
                return Ok(Plan::Refuse(Refusal::TooManyChanges));
            }
            plan_document(alloc, book, document)
        }
        Change::Absent => Ok(Plan::Refuse(Refusal::NotFound)),
        Change::NoArray => Ok(Plan::Refuse(Refusal::BadMethod)),
    }
}

/// The plan for a document: it is accepted unless it breaks a rule.
fn plan_document(alloc: Global, book: &Book, document: Tree) -> Result<Plan, AllocError>
    requires { IsDocument (data_of document) }
    ensures is { IfOk result (λ plan. answer_in plan
        ≡ valid_answer (data_of document) (fault_of (data_of document) book.now.names)) }
    ensures sound { IfOk result (IsSoundPlan book.now.names) }
{
    book.is_book();
    paths_of_faults_are_texts();
    match validate(alloc, &document, book.names()) {
        Ok(conf) => Ok(Plan::Accept(document, conf)),
        Err(fault) => match fault {
            ConfFault::Invalid(broken) => Ok(Plan::Refuse(Refusal::Broken(broken))),
            ConfFault::Memory => Err(AllocError),
        },
    }
}
