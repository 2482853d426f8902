//! Requests and replies that go in parcels and come back whole.
ghost use Rattle.std.specs.Prelude.{◌≡◌, [], take, IfOk};
ghost use Rattle.request_context.specs.Echoing.{echo_fields};

use super::*;
use crate::tests::request_bytes;
use std::alloc::{AllocError, Global};
use std::process::Abort;
use std::sync::Arc;
use std::test::*;
use unit_types::{Bytes, Field, Fields, Handlers, Reply, Request};

// The most content that a reply gives back.
const CONTENT: usize = 10_000_000;

// The fields of each reply.
fn fields(alloc: Global) -> Result<Fields, AllocError>
    ensures { IfOk result (λ fields. fields ≡ echo_fields) }
{
    let mut fields = Vec::new(alloc);
    fields.push(Field {
        name: Bytes::copy_of(alloc, b"Content-Type")?,
        value: Bytes::copy_of(alloc, b"application/octet-stream")?,
    })?;
    Ok(Fields::of(fields))
}

// The content of a reply.
fn content(alloc: Global, posted: &[u8]) -> Result<Bytes, AllocError>
    ensures { IfOk result (λ content. content ≡ take 10000000 posted.now) }
{
    if posted.len() <= CONTENT {
        return Bytes::copy_of(alloc, posted);
    }
    Bytes::copy_of(alloc, &posted[..CONTENT])
}

// Handlers that give the request's content back.
#[derive(Drop)]
struct Echo;

impl Handlers for Echo {
    ghost use Rattle.request_context.specs.Echoing.{echo_reply, echo_fits, no_names_fit};

    ghost reply_of = { echo_reply };

    ghost listed = { λ _. [] };

    ghost names_fit = { λ _. no_names_fit };

    ghost replies_fit = { echo_fits };

    fn names(&self) -> &[Bytes] {
        &[]
    }

    fn reply(&self, alloc: Global, _name: &[u8], request: &Request) -> Result<Reply, AllocError> {
        Ok(Reply {
            status: 200,
            fields: fields(alloc)?,
            body: content(alloc, request.body.as_slice())?,
        })
    }
}

// What stands between the stream and 300,000 bytes of content in the record of `POST /` for the handler `echo`.
fn upload_head() -> &'static [u8] {
    b"\0\0\0\x04echo\x01\0\0\0\x04POST\0\0\0\x01/\0\0\0\x01/\0\0\0\0\0\0\0\x01a\x7f\0\0\x01\x9c\x40\x0a\0\0\x01\x1f\x90\0\0\0\x02\0\0\0\x04host\0\0\0\x01a\0\0\0\x0econtent-length\0\0\0\x06300000\0\x04\x93\xe0"
}

// That record under a stream; the last byte of the content is given.
fn upload(alloc: Global, stream: u8, last: u8) -> Result<Bytes, AllocError> {
    let mut bytes = vec![in alloc; 0u8; 7]?;
    bytes.push(stream)?;
    bytes.extend_from_slice(upload_head())?;
    bytes.resize(300_104, b'x')?;
    bytes.push(last)?;
    Ok(Bytes::of(bytes))
}

// The parts of the reply to a request, and the stream under which this was posted.
#[derive(Drop)]
struct Sent {
    stream: u64,
    parts: Parts<Echo>,
    ghost under: { parts.asked.stream ≡ stream },
}

// The reply to the request of this record, in parts.
fn send(alloc: Global, posted: &[u8]) -> Result<Option<Sent>, AllocError> {
    let Some(asked) = read_record(alloc, posted)? else {
        return Ok(None);
    };
    let reply = Echo.reply(alloc, asked.name.as_slice(), &asked.request)?;
    let stream = asked.stream;
    let asked = Arc::new(alloc, asked)?;
    let parts = parts(alloc, &asked, &reply)?;
    Ok(Some(Sent { stream, parts }))
}

// The next part's part word, and how many bytes it has.
fn next_shape(sent: &mut Sent) -> Option<(u64, usize)> {
    let (number, last, mut pieces) = sent.parts.next()?;
    let mut size = 0usize;
    for _ in 0..pieces.len() {
        if let Some(parcel) = pieces.pop() {
            size = size.saturating_add(parcel.as_slice().len());
        }
    }
    Some((number as u64 * 2 + last as u64, size))
}

#[test]
fn records_go_in_pieces_and_parts(rt: HostRuntime) -> Result<(), Fail> {
    let alloc = rt.alloc();
    let posted = upload(alloc, 1, b'x')?;
    let mut pieces = ask_pieces::<Echo>(alloc, &posted)?;
    assert_eq!(rt; (pieces.len(), posted.as_slice().len()), (19, 300_105));
    assert!(rt; ask_bytes(alloc, &mut pieces)?.is_equal(&posted));
    assert_eq!(rt; pieces.len(), 0);
    let mut large = send(alloc, posted.as_slice())?.expect(&rt, "a record");
    assert_eq!(rt; next_shape(&mut large), Some((0, 262_144)));
    assert_eq!(rt; next_shape(&mut large), Some((3, 37_910)));
    assert_eq!(rt; next_shape(&mut large), None);
    let mut small = send(alloc, request_bytes())?.expect(&rt, "a record");
    assert_eq!(rt; next_shape(&mut small), Some((1, 54)));
    assert_eq!(rt; next_shape(&mut small), None);
    Ok(())
}

// A collector of the reply to the request of this record, which it keeps as it is.
fn collector_over(alloc: Global, posted: Bytes) -> Result<Option<Collector<Echo>>, AllocError> {
    match read_record(alloc, posted.as_slice())? {
        Some(_asked) => Ok(Some(Collector::over(alloc, posted))),
        None => Ok(None),
    }
}

// A collector of the reply to the request of this record.
fn collector_of(alloc: Global, posted: &[u8]) -> Result<Option<Collector<Echo>>, AllocError> {
    match read_record(alloc, posted)? {
        Some(asked) => Ok(Some(Collector::open(alloc, &asked)?)),
        None => Ok(None),
    }
}

// What the collector makes of the next part.
fn give(
    alloc: Global,
    collector: &mut Collector<Echo>,
    sent: &mut Sent,
) -> Result<Option<Part>, AllocError> {
    let stream = sent.stream;
    let Some((number, last, mut pieces)) = sent.parts.next() else {
        return Ok(None);
    };
    let answer = collector.accept(alloc, stream, number, last, &mut pieces)?;
    Ok(Some(answer))
}

// How much content the whole reply has, where this is the answer.
fn whole_length(answer: Option<Part>) -> Option<usize> {
    match answer {
        Some(Part::Whole(reply)) => Some(reply.body.as_slice().len()),
        _ => None,
    }
}

// The stream or part number that a collector waits for and the one that it found, where this is the answer.
fn stray_numbers(answer: Option<Part>) -> Option<(u64, u64)> {
    match answer {
        Some(Part::Stranger(Stray::Stream { kept, found })) => Some((kept, found)),
        Some(Part::Stranger(Stray::Part { kept, found })) => Some((kept as u64, found as u64)),
        _ => None,
    }
}

// Gives a collector for stream 2 a part of another stream, its own first part twice, and a part of another request.
fn meets_strangers(
    rt: &impl Abort,
    alloc: Global,
    collector: &mut Collector<Echo>,
) -> Result<(), Fail> {
    let mut strange = send(alloc, upload(alloc, 1, b'x')?.as_slice())?.expect(rt, "a record");
    let mut own = send(alloc, upload(alloc, 2, b'x')?.as_slice())?.expect(rt, "a record");
    let mut again = send(alloc, upload(alloc, 2, b'x')?.as_slice())?.expect(rt, "a record");
    let mut other = send(alloc, upload(alloc, 2, b'y')?.as_slice())?.expect(rt, "a record");
    let answer = give(alloc, collector, &mut strange)?;
    assert_eq!(rt; stray_numbers(answer), Some((2, 1)));
    assert!(rt; matches!(give(alloc, collector, &mut own)?, Some(Part::More)));
    let answer = give(alloc, collector, &mut again)?;
    assert_eq!(rt; stray_numbers(answer), Some((1, 0)));
    assert_eq!(rt; next_shape(&mut other), Some((0, 262_144)));
    let answer = give(alloc, collector, &mut other)?;
    assert!(rt; matches!(answer, Some(Part::Stranger(Stray::Request { kept: 2, .. }))));
    let answer = give(alloc, collector, &mut own)?;
    assert_eq!(rt; whole_length(answer), Some(300_000));
    Ok(())
}

#[test]
fn a_collector_takes_its_own_parts(rt: HostRuntime) -> Result<(), Fail> {
    let posted = upload(rt.alloc(), 2, b'x')?;
    let opened = collector_of(rt.alloc(), posted.as_slice())?;
    meets_strangers(&rt, rt.alloc(), &mut opened.expect(&rt, "a record"))?;
    let over = collector_over(rt.alloc(), posted)?;
    meets_strangers(&rt, rt.alloc(), &mut over.expect(&rt, "a record"))
}
