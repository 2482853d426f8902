//! Changes of a document, on a copy of it.
ghost use Rattle.std.specs.Prelude.{◌≡◌, IfOk};
ghost use Rattle.conf_tree.specs.Document.{IsDocument};
ghost use Rattle.conf_tree.specs.Paths as paths;
ghost use Rattle.conf_tree.specs.View.{data_of};
ghost use Rattle.control_api.specs.Control.{change_at};
ghost use Rattle.control_api.specs.Plans.{change_of, IsSoundChange};

use crate::keys::path_of;
use conf_tree::{Append, Put, Remove, Tree, TreeMap, append, put, remove};
use std::alloc::{AllocError, Global};
use unit_types::Bytes;

/// What a change makes of a document.
#[derive(Drop)]
pub(crate) enum Change {
    /// The changed document.
    Changed(Tree),
    /// There is no such value or parent, or a key is no text.
    Absent,
    /// A value is appended to what is no array.
    NoArray,
}

/// The document with this value at the keys. It is copied, unless the whole is replaced.
///
/// Fails for want of memory alone.
pub(crate) fn put_at(
    alloc: Global,
    document: &Tree,
    keys: Vec<Bytes>,
    value: Tree,
) -> Result<Change, AllocError>
    requires document { IsDocument (data_of document.now) }
    requires value { IsDocument (data_of value) }
    ensures is { IfOk result (λ change. change_of change
        ≡ change_at keys.items (paths.put keys.items (data_of value) (data_of document.now))) }
    ensures sound { IfOk result IsSoundChange }
{
    if keys.is_empty() {
        return Ok(Change::Changed(value));
    }
    let Some(path) = path_of(keys) else {
        return Ok(Change::Absent);
    };
    let mut changed = document.copy(alloc)?;
    match put(alloc, &mut changed, &path, value)? {
        Put::Done => Ok(Change::Changed(changed)),
        Put::Absent => Ok(Change::Absent),
    }
}

/// A copy of the document with this value behind the items of the array at the keys.
///
/// Fails for want of memory alone.
pub(crate) fn append_at(
    alloc: Global,
    document: &Tree,
    keys: Vec<Bytes>,
    value: Tree,
) -> Result<Change, AllocError>
    requires document { IsDocument (data_of document.now) }
    requires value { IsDocument (data_of value) }
    ensures is { IfOk result (λ change. change_of change
        ≡ change_at keys.items (paths.append keys.items (data_of value) (data_of document.now))) }
    ensures sound { IfOk result IsSoundChange }
{
    let Some(path) = path_of(keys) else {
        return Ok(Change::Absent);
    };
    let mut changed = document.copy(alloc)?;
    match append(&mut changed, &path, value)? {
        Append::Done => Ok(Change::Changed(changed)),
        Append::Absent => Ok(Change::Absent),
        Append::NoArray => Ok(Change::NoArray),
    }
}

/// The document without the value at the keys; `{}` where the whole is removed. It is copied, unless that is so.
///
/// Fails for want of memory alone.
pub(crate) fn remove_at(
    alloc: Global,
    document: &Tree,
    keys: Vec<Bytes>,
) -> Result<Change, AllocError>
    requires { IsDocument (data_of document.now) }
    ensures is { IfOk result (λ change. change_of change
        ≡ change_at keys.items (paths.remove keys.items (data_of document.now))) }
    ensures sound { IfOk result IsSoundChange }
{
    if keys.is_empty() {
        return Ok(Change::Changed(Tree::Object(TreeMap::new(alloc))));
    }
    let Some(path) = path_of(keys) else {
        return Ok(Change::Absent);
    };
    let mut changed = document.copy(alloc)?;
    match remove(&mut changed, &path) {
        Remove::Done => Ok(Change::Changed(changed)),
        Remove::Absent => Ok(Change::Absent),
    }
}
