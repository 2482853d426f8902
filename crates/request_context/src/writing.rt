//! Values to records.
ghost use Rattle.std.specs.Prelude.{◌≡◌, ◌<◌, ◌≤◌, ◌^◌, ◌+◌, ◌++◌, ◌-◌, length, min, OnOk, IfOk};
ghost use Rattle.std.specs.Int.{w8, w16, w32, w64};
ghost use Rattle.unit_types.specs.Record.{number, length_prefixed, field_bytes, field_list_bytes, reply_record};
ghost use Rattle.request_context.specs.Record.{IsShort, IsShortField, AreShortFields, IsRecordable, IsRecordableReply, asked_with, addr_bytes, head_bytes, request_record, field_size, field_list_size, request_size, request_record_size, reply_record_size};

use crate::asked::Asked;
use byteorder::{BigEndian, ByteOrder};
use std::alloc::{AllocError, Global};
use unit_types::{Addr, Bytes, Field, Reply, Request};

#[tactic(auto, unfolding(unit_types::specs::Record::number))]
fn put_u16(out: &mut Vec<u8>, n: u16) -> Result<(), AllocError>
    ensures { OnOk result (out.new.items ≡ out.old.items ++ number w16 n) }
{
    let mut bytes = [0; 2];
    BigEndian::write_u16(&mut bytes, n);
    out.extend_from_slice(&bytes)
}

#[tactic(auto, unfolding(unit_types::specs::Record::number))]
fn put_u32(out: &mut Vec<u8>, n: u32) -> Result<(), AllocError>
    ensures { OnOk result (out.new.items ≡ out.old.items ++ number w32 n) }
{
    let mut bytes = [0; 4];
    BigEndian::write_u32(&mut bytes, n);
    out.extend_from_slice(&bytes)
}

#[tactic(auto, unfolding(unit_types::specs::Record::number))]
fn put_u64(out: &mut Vec<u8>, n: u64) -> Result<(), AllocError>
    ensures { OnOk result (out.new.items ≡ out.old.items ++ number w64 n) }
{
    let mut bytes = [0; 8];
    BigEndian::write_u64(&mut bytes, n);
    out.extend_from_slice(&bytes)
}

#[tactic(auto, unfolding(unit_types::specs::Record::number))]
fn put_u8(out: &mut Vec<u8>, n: u8) -> Result<(), AllocError>
    ensures { OnOk result (out.new.items ≡ out.old.items ++ number w8 n) }
{
    out.extend_from_slice(&[n])
}

#[tactic(auto, unfolding(unit_types::specs::Record::length_prefixed))]
fn put_text(out: &mut Vec<u8>, text: &[u8]) -> Result<(), AllocError>
    requires { IsShort text.now }
    ensures { OnOk result (out.new.items ≡ out.old.items ++ length_prefixed text.now) }
{
    put_u32(out, text.len() as u32)?;
    out.extend_from_slice(text)
}

#[tactic(auto, unfolding(crate::specs::Record::addr_bytes))]
fn put_addr(out: &mut Vec<u8>, addr: &Addr) -> Result<(), AllocError>
    ensures { OnOk result (out.new.items ≡ out.old.items ++ addr_bytes addr.now) }
{
    put_u32(out, addr.ip)?;
    put_u16(out, addr.port)
}

#[tactic(auto, unfolding(unit_types::specs::Record::field_bytes))]
fn put_field(out: &mut Vec<u8>, field: &Field) -> Result<(), AllocError>
    requires { IsShortField field.now }
    ensures { OnOk result (out.new.items ≡ out.old.items ++ field_bytes field.now) }
{
    put_text(out, field.name.as_slice())?;
    put_text(out, field.value.as_slice())
}

#[tactic(auto, unfolding(unit_types::specs::Record::field_list_bytes))]
fn put_fields(out: &mut Vec<u8>, fields: &[Field]) -> Result<(), AllocError>
    requires { AreShortFields fields.now }
    ensures { OnOk result (out.new.items ≡ out.old.items ++ field_list_bytes fields.now) }
{
    put_u32(out, fields.len() as u32)?;
    for field in fields {
        put_field(out, field)?;
    }
    Ok(())
}

#[tactic(auto, unfolding(crate::specs::Record::head_bytes))]
fn put_head(out: &mut Vec<u8>, request: &Request) -> Result<(), AllocError>
    requires method { IsShort request.now.method }
    requires target { IsShort request.now.target }
    requires path { IsShort request.now.path }
    requires query { IsShort request.now.query }
    requires host { IsShort request.now.host }
    ensures { OnOk result (out.new.items ≡ out.old.items ++ head_bytes request.now) }
{
    put_u8(out, request.minor)?;
    put_text(out, request.method.as_slice())?;
    put_text(out, request.target.as_slice())?;
    put_text(out, request.path.as_slice())?;
    put_text(out, request.query.as_slice())?;
    put_text(out, request.host.as_slice())
}

// The sum of sizes, or the greatest number where it is past that: there is no memory of such a size then.
fn size_of_fields(fields: &[Field]) -> usize
    ensures { result ≡ min (field_list_size fields.now) (2 ^ 64 - 1) }
{
    let mut size = 4usize;
    for field in fields {
        size = size
            .saturating_add(8)
            .saturating_add(field.name.as_slice().len())
            .saturating_add(field.value.as_slice().len());
    }
    size
}

fn size_of_request(request: &Request) -> usize
    ensures { result ≡ min (request_size request.now) (2 ^ 64 - 1) }
{
    33usize
        .saturating_add(request.method.as_slice().len())
        .saturating_add(request.target.as_slice().len())
        .saturating_add(request.path.as_slice().len())
        .saturating_add(request.query.as_slice().len())
        .saturating_add(request.host.as_slice().len())
        .saturating_add(size_of_fields(request.fields.as_slice()))
        .saturating_add(4)
        .saturating_add(request.body.as_slice().len())
}

fn size_of_record(name: &[u8], request: &Request) -> usize
    ensures { result ≡ min (12 + length name.now + request_size request.now) (2 ^ 64 - 1) }
{
    size_of_request(request)
        .saturating_add(12)
        .saturating_add(name.len())
}

fn size_of_reply(reply: &Reply) -> usize
    ensures { result ≡ min (length (reply_record reply.now)) (2 ^ 64 - 1) }
{
    size_of_fields(reply.fields.as_slice())
        .saturating_add(6)
        .saturating_add(reply.body.as_slice().len())
}

/// The record of a request under its stream, for the handler of that name.
///
/// The minor version is 0 or 1, and each length and the number of fields are below 2^32. Fails for want of memory
/// alone.
#[tactic(auto, unfolding(crate::specs::Record::request_record))]
pub fn record_of(
    alloc: Global,
    stream: u64,
    name: &[u8],
    request: &Request,
) -> Result<Bytes, AllocError>
    requires { IsRecordable (asked_with stream name.now request.now) }
    ensures { IfOk result (λ bytes. bytes
        ≡ request_record (asked_with stream name.now request.now)) }
{
    let mut out = Vec::with_capacity(alloc, size_of_record(name, request))?;
    put_u64(&mut out, stream)?;
    put_text(&mut out, name)?;
    put_head(&mut out, request)?;
    put_addr(&mut out, &request.from)?;
    put_addr(&mut out, &request.to)?;
    put_fields(&mut out, request.fields.as_slice())?;
    put_text(&mut out, request.body.as_slice())?;
    Ok(Bytes::of(out))
}

/// The record of a request.
///
/// The minor version is 0 or 1, and each length and the number of fields are below 2^32. Fails for want of memory
/// alone.
pub fn write_record(alloc: Global, asked: &Asked) -> Result<Bytes, AllocError>
    requires { IsRecordable asked.now }
    ensures { IfOk result (λ bytes. bytes ≡ request_record asked.now) }
{
    record_of(alloc, asked.stream, asked.name.as_slice(), &asked.request)
}

/// The record of a reply.
///
/// Each length and the number of fields are below 2^32. Fails for want of memory alone.
#[tactic(auto, unfolding(unit_types::specs::Record::reply_record))]
pub fn write_reply(alloc: Global, reply: &Reply) -> Result<Bytes, AllocError>
    requires { IsRecordableReply reply.now }
    ensures { IfOk result (λ bytes. bytes ≡ reply_record reply.now) }
{
    let mut out = Vec::with_capacity(alloc, size_of_reply(reply))?;
    put_u16(&mut out, reply.status)?;
    put_fields(&mut out, reply.fields.as_slice())?;
    put_text(&mut out, reply.body.as_slice())?;
    Ok(Bytes::of(out))
}
