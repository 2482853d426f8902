//! The replies that the server gives itself, and behind which answers a connection closes.
ghost use Rattle.std.specs.Prelude.{◌≡◌, ◌<◌, IfOk, IfSome, option_map};
ghost use Rattle.route_match.specs.There.{IsOutcome};
ghost use Rattle.conn_machine.specs.Answers as spec;

use conf_validate::Conf;
use header_rewrite::fielded;
use http_front::{error_reply, is_last_request};
use route_match::{Outcome, Target, location_of};
use std::alloc::{AllocError, Global};
use unit_types::{Bytes, Field, Fields, Reply, Request};

/// The least status of an error (RFC 9110, section 15.5).
const LEAST_ERROR: u16 = 400;

/// The reply of a step that returns a status: below 400 its location, expanded with the request, and no content; from 400
/// on the error reply.
///
/// Fails for want of memory alone.
pub fn return_reply(
    alloc: Global,
    conf: &Conf,
    step: usize,
    status: u16,
    request: &Request,
) -> Result<Reply, AllocError>
    requires { status < 1000 }
    ensures { IfOk result (λ reply. reply ≡ spec.return_reply conf.now step status request.now) }
{
    if status < LEAST_ERROR {
        let location = location_of(alloc, conf, step, request)?;
        Ok(Reply {
            status,
            fields: location_fields(alloc, location)?,
            body: Bytes::of(Vec::new(alloc)),
        })
    } else {
        error_reply(alloc, status)
    }
}

/// The Location field (RFC 9110, section 10.2.2) of a return that has a location.
fn location_fields(alloc: Global, location: Option<Bytes>) -> Result<Fields, AllocError>
    ensures { IfOk result (λ fields. fields ≡ spec.location_fields location) }
{
    let mut list = Vec::new(alloc);
    if let Some(value) = location {
        let name = Bytes::copy_of(alloc, b"Location")?;
        list.push(Field { name, value })?;
    }
    Ok(Fields::of(list))
}

/// The reply that the server gives itself to a request that came by this outcome; None where it goes to an application.
///
/// Fails for want of memory alone.
pub(crate) fn own_reply(
    alloc: Global,
    conf: &Conf,
    outcome: Outcome,
    request: &Request,
) -> Result<Option<Reply>, AllocError>
    requires { IsOutcome conf.now request.now outcome }
    ensures reply { IfOk result (λ reply. reply ≡ spec.own_reply conf.now outcome request.now) }
    ensures status { IfOk result (λ reply. IfSome reply (λ r. r.status < 1000)) }
{
    // Each configuration keeps the ranges of its numbers.
    conf.is_kept();
    match outcome.target {
        Target::App { .. } => Ok(None),
        Target::Return { step, status } => {
            let reply = return_reply(alloc, conf, step, status, request)?;
            Ok(Some(fielded(alloc, conf, outcome.step, request, &reply)?))
        }
        Target::Status(status) => Ok(Some(error_reply(alloc, status)?)),
    }
}

/// Whether the connection closes behind the answer to a request, of which `left` may come with this one, or behind the
/// answer to bytes that are refused, where no request was read.
pub fn closes(request: Option<&Request>, left: u64) -> bool
    ensures { result ≡ spec.closes (option_map (λ r. r.now) request.entry) left }
{
    match request {
        Some(request) => is_last_request(request) || left.saturating_sub(1) == 0,
        None => true,
    }
}
