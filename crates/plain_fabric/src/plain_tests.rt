//! Requests through a fabric on one thread.
ghost use Rattle.std.specs.Prelude.{◌≡◌, ◌≤◌, [], take, IfOk};
ghost use Rattle.request_context.specs.Echoing.{echo_fields};
ghost use Rattle.request_context.specs.Record.{request_record_size};

use crate::Plain;
use crate::tests::{plain, tell, two_requests};
use request_context::{Asked, read_record, request_record_length, short_requests_can_be_written};
use std::alloc::{AllocError, Global};
use std::test::*;
use unit_model::{Core, Looks, Step, run_core};
use unit_types::{Bytes, Field, Fields, Handlers, Reply, Request};

// The most content that a reply gives back.
const CONTENT: usize = 10_000_000;

// So many streams and no more are drawn here.
const MOST_DRAWN: u64 = 1 << 48;

// The fields of each reply.
fn reply_fields(alloc: Global) -> Result<Fields, AllocError>
    ensures { IfOk result (λ fields. fields ≡ echo_fields) }
{
    let mut fields = Vec::new(alloc);
    fields.push(Field {
        name: Bytes::copy_of(alloc, b"Content-Type")?,
        value: Bytes::copy_of(alloc, b"application/octet-stream")?,
    })?;
    Ok(Fields::of(fields))
}

// The content of a reply.
fn content(alloc: Global, posted: &[u8]) -> Result<Bytes, AllocError>
    ensures { IfOk result (λ content. content ≡ take 10000000 posted.now) }
{
    if posted.len() <= CONTENT {
        return Bytes::copy_of(alloc, posted);
    }
    Bytes::copy_of(alloc, &posted[..CONTENT])
}

// Handlers that give the request's content back.
#[derive(Drop)]
struct Echo;

impl Handlers for Echo {
    ghost use Rattle.request_context.specs.Echoing.{echo_reply, echo_fits, no_names_fit};

    ghost reply_of = { echo_reply };

    ghost listed = { λ _. [] };

    ghost names_fit = { λ _. no_names_fit };

    ghost replies_fit = { echo_fits };

    fn names(&self) -> &[Bytes] {
        &[]
    }

    fn reply(&self, alloc: Global, _name: &[u8], request: &Request) -> Result<Reply, AllocError> {
        Ok(Reply {
            status: 200,
            fields: reply_fields(alloc)?,
            body: content(alloc, request.body.as_slice())?,
        })
    }
}

// A request that has a record of at most 10,485,760 bytes, under any stream.
#[derive(Drop)]
struct Posted {
    asked: Asked,
    ghost minor: { asked.request.minor ≤ 1 },
    ghost short: { request_record_size asked ≤ 10485760 },
}

// The request of this record.
fn request_of(alloc: Global, record: &[u8]) -> Result<Option<Posted>, AllocError> {
    request_record_length();
    if record.len() > 10_485_760 {
        return Ok(None);
    }
    match read_record(alloc, record)? {
        Some(asked) => Ok(Some(Posted { asked })),
        None => Ok(None),
    }
}

// The reply to a request that goes through the fabric, if that may be asked.
fn ask(
    alloc: Global,
    fabric: &mut Plain<Echo>,
    posted: &Posted,
) -> Result<Option<Reply>, AllocError> {
    request_record_length();
    short_requests_can_be_written();
    if fabric.failed() || fabric.drawn() >= MOST_DRAWN {
        return Ok(None);
    }
    let name = posted.asked.name.as_slice();
    Ok(Some(fabric.ask(alloc, &Echo, name, &posted.asked.request)?))
}

// Whether a request was posted and cancelled.
fn ask_gone(alloc: Global, fabric: &mut Plain<Echo>, posted: &Posted) -> Result<bool, AllocError> {
    request_record_length();
    short_requests_can_be_written();
    if fabric.failed() || fabric.drawn() >= MOST_DRAWN {
        return Ok(false);
    }
    let name = posted.asked.name.as_slice();
    fabric.ask_gone(alloc, name, &posted.asked.request)?;
    Ok(true)
}

// The record of `GET /` for the handler `hello`.
fn greeting() -> &'static [u8] {
    b"\0\0\0\0\0\0\0\x01\0\0\0\x05hello\x01\0\0\0\x03GET\0\0\0\x01/\0\0\0\x01/\0\0\0\0\0\0\0\x01a\x7f\0\0\x01\x9c\x40\x0a\0\0\x01\x1f\x90\0\0\0\x01\0\0\0\x04host\0\0\0\x01a\0\0\0\0"
}

// What stands in front of 300,000 bytes of content in the record of `POST /` for the handler `echo`.
fn upload_head() -> &'static [u8] {
    b"\0\0\0\0\0\0\0\x01\0\0\0\x04echo\x01\0\0\0\x04POST\0\0\0\x01/\0\0\0\x01/\0\0\0\0\0\0\0\x01a\x7f\0\0\x01\x9c\x40\x0a\0\0\x01\x1f\x90\0\0\0\x02\0\0\0\x04host\0\0\0\x01a\0\0\0\x0econtent-length\0\0\0\x06300000\0\x04\x93\xe0"
}

// One request is posted and cancelled, and the same is answered: 32 steps.
#[test]
fn a_request_gone_and_one_answered(rt: HostRuntime) -> Result<(), Fail> {
    let alloc = rt.alloc();
    let mut fabric = Plain::<Echo>::open(alloc, &plain())?;
    let get = request_of(alloc, greeting())?.expect(&rt, "a record");
    assert!(rt; ask_gone(alloc, &mut fabric, &get)?);
    let reply = ask(alloc, &mut fabric, &get)?.expect(&rt, "asked");
    assert!(rt; reply.status == 200 && reply.body.as_slice().is_empty());
    assert!(rt; !fabric.failed() && fabric.drawn() == 2);
    let mut text = Bytes::of(Vec::new(alloc));
    tell(alloc, fabric.trace(), &mut text)?;
    assert!(rt; text.as_slice() == two_requests());
    fabric.forget_trace();
    assert!(rt; fabric.trace().is_empty() && fabric.drawn() == 2);
    Ok(())
}

// 300,000 bytes come back: 19 chunks of the request, 16 and 3 of the two parts of the reply.
#[test]
fn content_of_many_chunks_comes_back(rt: HostRuntime) -> Result<(), Fail> {
    let alloc = rt.alloc();
    let mut fabric = Plain::<Echo>::open(alloc, &plain())?;
    let mut record = Vec::new(alloc);
    record.extend_from_slice(upload_head())?;
    for place in 0..300_000u32 {
        record.push((place % 251) as u8)?;
    }
    let post = request_of(alloc, record.as_slice())?.expect(&rt, "a record");
    let reply = ask(alloc, &mut fabric, &post)?.expect(&rt, "asked");
    assert!(rt; reply.body.is_equal(&post.asked.request.body));
    assert!(rt; fabric.trace().len() == 101);
    let mut sizes = Vec::new(alloc);
    for step in fabric.trace() {
        if let Step::SetRun { run, .. } = *step {
            sizes.push(run.size)?;
        }
    }
    assert!(rt; sizes.as_slice() == [300_105, 262_144, 37_910].as_slice());
    Ok(())
}

// The items and the places of the rings come round, while the trace is forgotten.
#[test]
fn many_requests(rt: HostRuntime) -> Result<(), Fail> {
    let alloc = rt.alloc();
    let mut fabric = Plain::<Echo>::open(alloc, &plain())?;
    let mut core = Core::open(alloc, &plain())?;
    let get = request_of(alloc, greeting())?.expect(&rt, "a record");
    for _ in 0..40 {
        let reply = ask(alloc, &mut fabric, &get)?.expect(&rt, "asked");
        assert!(rt; reply.body.is_equal(&get.asked.request.body));
        assert!(rt; ask_gone(alloc, &mut fabric, &get)?);
        assert!(rt; run_core(&mut core, fabric.trace()).is_ok());
        fabric.forget_trace();
    }
    assert!(rt; core.next_stream() == 81 && fabric.drawn() == 80);
    Ok(())
}
