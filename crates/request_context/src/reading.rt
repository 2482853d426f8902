//! Records to values.
ghost use Rattle.std.specs.Prelude.{◌≡◌, List, IfOk};
ghost use Rattle.request_context.specs.Record.{IsRecordOf, IsReplyRecordOf};
ghost use Rattle.request_context.specs.Reading.{Gives, text_at, addr_at, field_at, fields_at, field_list_at, head_at, asked_at, reply_at, make_request};
ghost use Rattle.request_context.specs.declared.reading.ReadError.TheVariants.{Memory};

use crate::asked::Asked;
use crate::fronts::{minor_at, text_at, u16_at, u32_at, u64_at};
use std::alloc::{AllocError, AllocFailed, Global};
use unit_types::{Addr, Bytes, Field, Fields, Reply, Request};

// Why nothing was read.
#[derive(Debug, Drop)]
enum ReadError {
    Memory,
    NoRecord,
}

impl From<AllocError> for ReadError {
    ghost from_gives = { λ _ e. e ≡ Memory };

    fn from(_e: AllocError) -> ReadError {
        ReadError::Memory
    }
}

impl<T: Drop> From<AllocFailed<T>> for ReadError {
    ghost from_gives = { λ _ e. e ≡ Memory };

    fn from(_e: AllocFailed<T>) -> ReadError {
        ReadError::Memory
    }
}

// What a request record has before the addresses.
#[derive(Debug, Drop)]
struct Head {
    minor: u8,
    method: Bytes,
    target: Bytes,
    path: Bytes,
    query: Bytes,
    host: Bytes,
}

fn text_of(alloc: Global, bytes: &[u8]) -> Result<(Bytes, &[u8]), ReadError>
    ensures { Gives (λ x. (x.0, x.1.now)) result (text_at bytes.now) }
{
    let (text, rest) = text_at(bytes).ok_or(ReadError::NoRecord)?;
    Ok((Bytes::copy_of(alloc, text)?, rest))
}

#[tactic(auto, unfolding(crate::specs::Reading::addr_at))]
fn addr_of(bytes: &[u8]) -> Result<(Addr, &[u8]), ReadError>
    ensures { Gives (λ x. (x.0, x.1.now)) result (addr_at bytes.now) }
{
    let (ip, rest) = u32_at(bytes).ok_or(ReadError::NoRecord)?;
    let (port, rest) = u16_at(rest).ok_or(ReadError::NoRecord)?;
    Ok((Addr { ip, port }, rest))
}

#[tactic(auto, unfolding(crate::specs::Reading::field_at))]
fn field_of(alloc: Global, bytes: &[u8]) -> Result<(Field, &[u8]), ReadError>
    ensures { Gives (λ x. (x.0, x.1.now)) result (field_at bytes.now) }
{
    let (name, rest) = text_of(alloc, bytes)?;
    let (value, rest) = text_of(alloc, rest)?;
    Ok((Field { name, value }, rest))
}

// The next `count` fields. Each has at least eight bytes, so a list with room for one of each eight bytes never moves.
fn fields_of(alloc: Global, count: u32, bytes: &[u8]) -> Result<(Vec<Field>, &[u8]), ReadError>
    ensures { Gives (λ x. (x.0.items, x.1.now)) result (fields_at count bytes.now) }
{
    let mut fields = Vec::with_capacity(alloc, (count as usize).min(bytes.len() / 8))?;
    let mut rest = bytes;
    for _ in 0..count {
        let (field, after) = field_of(alloc, rest)?;
        fields.push(field)?;
        rest = after;
    }
    Ok((fields, rest))
}

#[tactic(auto, unfolding(crate::specs::Reading::field_list_at))]
fn field_list_of(alloc: Global, bytes: &[u8]) -> Result<(Fields, &[u8]), ReadError>
    ensures { Gives (λ x. (x.0, x.1.now)) result (field_list_at bytes.now) }
{
    let (count, rest) = u32_at(bytes).ok_or(ReadError::NoRecord)?;
    let (fields, rest) = fields_of(alloc, count, rest)?;
    Ok((Fields::of(fields), rest))
}

#[tactic(auto, unfolding(crate::specs::Reading::head_at))]
fn head_of(alloc: Global, bytes: &[u8]) -> Result<(Head, &[u8]), ReadError>
    ensures { Gives (λ x. (x.0, x.1.now)) result (head_at bytes.now) }
{
    let (minor, rest) = minor_at(bytes).ok_or(ReadError::NoRecord)?;
    let (method, rest) = text_of(alloc, rest)?;
    let (target, rest) = text_of(alloc, rest)?;
    let (path, rest) = text_of(alloc, rest)?;
    let (query, rest) = text_of(alloc, rest)?;
    let (host, rest) = text_of(alloc, rest)?;
    Ok((
        Head {
            minor,
            method,
            target,
            path,
            query,
            host,
        },
        rest,
    ))
}

fn request_of(head: Head, from: Addr, to: Addr, fields: Fields, body: Bytes) -> Request
    ensures { result ≡ make_request head from to fields body }
{
    Request {
        method: head.method,
        target: head.target,
        path: head.path,
        query: head.query,
        host: head.host,
        minor: head.minor,
        fields,
        from,
        to,
        body,
    }
}

#[tactic(auto, unfolding(crate::specs::Reading::asked_at))]
fn asked_of(alloc: Global, bytes: &[u8]) -> Result<(Asked, &[u8]), ReadError>
    ensures { Gives (λ x. (x.0, x.1.now)) result (asked_at bytes.now) }
{
    let (stream, rest) = u64_at(bytes).ok_or(ReadError::NoRecord)?;
    let (name, rest) = text_of(alloc, rest)?;
    let (head, rest) = head_of(alloc, rest)?;
    let (from, rest) = addr_of(rest)?;
    let (to, rest) = addr_of(rest)?;
    let (fields, rest) = field_list_of(alloc, rest)?;
    let (body, rest) = text_of(alloc, rest)?;
    let request = request_of(head, from, to, fields, body);
    Ok((
        Asked {
            stream,
            name,
            request,
        },
        rest,
    ))
}

#[tactic(auto, unfolding(crate::specs::Reading::reply_at))]
fn reply_of(alloc: Global, bytes: &[u8]) -> Result<(Reply, &[u8]), ReadError>
    ensures { Gives (λ x. (x.0, x.1.now)) result (reply_at bytes.now) }
{
    let (status, rest) = u16_at(bytes).ok_or(ReadError::NoRecord)?;
    let (fields, rest) = field_list_of(alloc, rest)?;
    let (body, rest) = text_of(alloc, rest)?;
    Ok((
        Reply {
            status,
            fields,
            body,
        },
        rest,
    ))
}

/// The request of which `bytes` are the record, all of them; `None` where they are the record of none.
///
/// Fails for want of memory alone.
pub fn read_record(alloc: Global, bytes: &[u8]) -> Result<Option<Asked>, AllocError>
    ensures { IfOk result (IsRecordOf bytes.now) }
{
    match asked_of(alloc, bytes) {
        Ok((asked, rest)) => {
            if !rest.is_empty() {
                return Ok(None);
            }
            Ok(Some(asked))
        }
        Err(ReadError::NoRecord) => Ok(None),
        Err(ReadError::Memory) => Err(AllocError),
    }
}

/// The reply of which `bytes` are the record, all of them; `None` where they are the record of none.
///
/// Fails for want of memory alone.
pub fn read_reply(alloc: Global, bytes: &[u8]) -> Result<Option<Reply>, AllocError>
    ensures { IfOk result (IsReplyRecordOf bytes.now) }
{
    match reply_of(alloc, bytes) {
        Ok((reply, rest)) => {
            if !rest.is_empty() {
                return Ok(None);
            }
            Ok(Some(reply))
        }
        Err(ReadError::NoRecord) => Ok(None),
        Err(ReadError::Memory) => Err(AllocError),
    }
}
