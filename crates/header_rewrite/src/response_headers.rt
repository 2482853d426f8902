//! Changed header fields.
ghost use Rattle.std.specs.Prelude.{◌≡◌, IfOk, OnOk};
ghost use Rattle.std.specs.Option.{unwrap_or};
ghost use Rattle.header_rewrite.specs.ResponseHeaders.{all_changed, changed, changes_of_step, fielded_of, fields_of, is_named};

use conf_validate::Conf;
use path_normal::expand;
use std::alloc::{AllocError, Global};
use unit_types::{Bytes, Field, Fields, Reply, Request};

/// The reply as this step changes it. For each member of the step's `response_headers`, in ascending byte order of their
/// names, all fields of that name in any case are dropped, and where it is a text it stands behind the others as a field
/// of that name, expanded with the request as it came: each byte of a value outside 0x21 to 0x7E is written `%XX`. All
/// else stays. It is the same reply where there is no step or the step has no such member.
///
/// Fails for want of memory alone.
pub fn fielded(
    alloc: Global,
    conf: &Conf,
    step: Option<usize>,
    request: &Request,
    reply: &Reply,
) -> Result<Reply, AllocError>
    ensures { IfOk result (λ new. new ≡ fielded_of conf.now step request.now reply.now) }
{
    Ok(Reply {
        status: reply.status,
        fields: changed_fields(alloc, conf, step, request, &reply.fields)?,
        body: Bytes::copy_of(alloc, reply.body.as_slice())?,
    })
}

/// The reply as `fielded` tells it, where the step has changes. None where it has none: the reply stays, and isn't copied.
///
/// Fails for want of memory alone.
pub fn fielded_if_changed(
    alloc: Global,
    conf: &Conf,
    step: Option<usize>,
    request: &Request,
    reply: &Reply,
) -> Result<Option<Reply>, AllocError>
    ensures { IfOk result (λ new. unwrap_or new reply.now
        ≡ fielded_of conf.now step request.now reply.now) }
{
    if changes_of_step(conf, step).is_empty() {
        return Ok(None);
    }
    Ok(Some(fielded(alloc, conf, step, request, reply)?))
}

/// The fields of a reply as this step changes them, as `fielded` tells; the content isn't copied.
///
/// Fails for want of memory alone.
pub fn changed_fields(
    alloc: Global,
    conf: &Conf,
    step: Option<usize>,
    request: &Request,
    fields: &Fields,
) -> Result<Fields, AllocError>
    ensures { IfOk result (λ new. new ≡ fields_of conf.now step request.now fields.now) }
{
    let list = fields.another(alloc)?.into_vec();
    let changes = changes_of_step(conf, step);
    Ok(Fields::of(all_changed(alloc, list, changes, request)?))
}

/// The changes of this step; none where there is no step.
fn changes_of_step(conf: &Conf, step: Option<usize>) -> &[(Bytes, Option<Bytes>)]
    ensures { result.now ≡ changes_of_step conf.now step }
{
    match step {
        Some(step) => conf.changes(step),
        None => &[],
    }
}

/// The fields once all changes are made, one after the other.
fn all_changed(
    alloc: Global,
    fields: Vec<Field>,
    changes: &[(Bytes, Option<Bytes>)],
    request: &Request,
) -> Result<Vec<Field>, AllocError>
    ensures { IfOk result (λ new. new.items ≡ all_changed request.now changes.now fields.items) }
{
    let mut list = fields;
    for change in changes {
        make_change(alloc, &mut list, change, request)?;
    }
    Ok(list)
}

/// Drops the fields of a change's name, and puts its new one behind the others.
fn make_change(
    alloc: Global,
    list: &mut Vec<Field>,
    change: &(Bytes, Option<Bytes>),
    request: &Request,
) -> Result<(), AllocError>
    ensures { OnOk result (list.new.items ≡ changed request.now list.old.items change.now) }
{
    let name = change.0.as_slice();
    list.retain(|field| !is_named(name, field));
    if let Some(text) = &change.1 {
        let name = Bytes::copy_of(alloc, name)?;
        let value = expand(alloc, text.as_slice(), request, true)?;
        list.push(Field { name, value })?;
    }
    Ok(())
}

/// Whether the field has this name, in any case.
fn is_named(name: &[u8], field: &Field) -> bool
    ensures { result ≡ is_named name.now field.now }
{
    field.name.as_slice().eq_ignore_ascii_case(name)
}
