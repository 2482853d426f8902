//! Records against values, without memory: each function gives what stands behind a value that the bytes begin with, and
//! nothing where they begin with another one.
ghost use Rattle.std.specs.Prelude.{◌≡◌, ◌↔◌, [], length, Some, IsTrue};
ghost use Rattle.std.specs.Int.{w16, w32, w64};
ghost use Rattle.std.specs.Option.{option_copied};
ghost use Rattle.request_context.specs.Reading.{asked_at};
ghost use Rattle.request_context.specs.Comparing.{after_number, after_minor, after_text, after_addr, after_field, after_fields, after_field_list, after_head, after_asked};

use crate::asked::Asked;
use crate::fronts::{minor_at, text_at, u16_at, u32_at, u64_at};
use unit_types::{Addr, Field, Request};

fn after_u16(bytes: Option<&[u8]>, number: u16) -> Option<&[u8]>
    ensures { option_copied result ≡ after_number w16 number (option_copied bytes.entry) }
{
    let (found, rest) = u16_at(bytes?)?;
    if found == number { Some(rest) } else { None }
}

// The number may be greater than four bytes hold.
fn after_u32(bytes: Option<&[u8]>, number: u64) -> Option<&[u8]>
    ensures { option_copied result ≡ after_number w32 number (option_copied bytes.entry) }
{
    let (found, rest) = u32_at(bytes?)?;
    if found as u64 == number {
        Some(rest)
    } else {
        None
    }
}

fn after_u64(bytes: Option<&[u8]>, number: u64) -> Option<&[u8]>
    ensures { option_copied result ≡ after_number w64 number (option_copied bytes.entry) }
{
    let (found, rest) = u64_at(bytes?)?;
    if found == number { Some(rest) } else { None }
}

fn after_minor(bytes: Option<&[u8]>, minor: u8) -> Option<&[u8]>
    ensures { option_copied result ≡ after_minor minor (option_copied bytes.entry) }
{
    let (found, rest) = minor_at(bytes?)?;
    if found == minor { Some(rest) } else { None }
}

fn after_text<'a>(bytes: Option<&'a [u8]>, text: &[u8]) -> Option<&'a [u8]>
    ensures { option_copied result ≡ after_text text.now (option_copied bytes.entry) }
{
    let (found, rest) = text_at(bytes?)?;
    if found == text { Some(rest) } else { None }
}

#[tactic(auto, unfolding(crate::specs::Comparing::after_addr))]
fn after_addr<'a>(bytes: Option<&'a [u8]>, addr: &Addr) -> Option<&'a [u8]>
    ensures { option_copied result ≡ after_addr addr.now (option_copied bytes.entry) }
{
    let rest = after_u32(bytes, addr.ip as u64);
    after_u16(rest, addr.port)
}

#[tactic(auto, unfolding(crate::specs::Comparing::after_field))]
fn after_field<'a>(bytes: Option<&'a [u8]>, field: &Field) -> Option<&'a [u8]>
    ensures { option_copied result ≡ after_field field.now (option_copied bytes.entry) }
{
    let rest = after_text(bytes, field.name.as_slice());
    after_text(rest, field.value.as_slice())
}

#[tactic(auto, unfolding(crate::specs::Comparing::after_fields))]
fn after_fields<'a>(bytes: Option<&'a [u8]>, fields: &[Field]) -> Option<&'a [u8]>
    ensures { option_copied result ≡ after_fields fields.now (option_copied bytes.entry) }
{
    let mut rest = bytes;
    for field in fields {
        rest = after_field(rest, field);
    }
    rest
}

#[tactic(auto, unfolding(crate::specs::Comparing::after_field_list))]
fn after_field_list<'a>(bytes: Option<&'a [u8]>, fields: &[Field]) -> Option<&'a [u8]>
    ensures { option_copied result ≡ after_field_list fields.now (option_copied bytes.entry) }
{
    let rest = after_u32(bytes, fields.len() as u64);
    after_fields(rest, fields)
}

#[tactic(auto, unfolding(crate::specs::Comparing::after_head))]
fn after_head<'a>(bytes: Option<&'a [u8]>, request: &Request) -> Option<&'a [u8]>
    ensures { option_copied result ≡ after_head request.now (option_copied bytes.entry) }
{
    let rest = after_minor(bytes, request.minor);
    let rest = after_text(rest, request.method.as_slice());
    let rest = after_text(rest, request.target.as_slice());
    let rest = after_text(rest, request.path.as_slice());
    let rest = after_text(rest, request.query.as_slice());
    after_text(rest, request.host.as_slice())
}

#[tactic(auto, unfolding(crate::specs::Comparing::after_asked))]
fn after_asked<'a>(bytes: Option<&'a [u8]>, asked: &Asked) -> Option<&'a [u8]>
    ensures { option_copied result ≡ after_asked asked.now (option_copied bytes.entry) }
{
    let rest = after_u64(bytes, asked.stream);
    let rest = after_text(rest, asked.name.as_slice());
    let rest = after_head(rest, &asked.request);
    let rest = after_addr(rest, &asked.request.from);
    let rest = after_addr(rest, &asked.request.to);
    let rest = after_field_list(rest, asked.request.fields.as_slice());
    after_text(rest, asked.request.body.as_slice())
}

// Whether the bytes are read as this request, all of them.
pub(crate) fn is_record_of(bytes: &[u8], asked: &Asked) -> bool
    ensures { IsTrue result ↔ (asked_at bytes.now ≡ Some (asked.now, [])) }
{
    match after_asked(Some(bytes), asked) {
        Some(rest) => rest.is_empty(),
        None => false,
    }
}
