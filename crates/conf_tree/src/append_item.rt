//! A value is put behind the items of an array.
ghost use Rattle.std.specs.Prelude.{◌≡◌, ◌∷◌, IfOk, OnErr};
ghost use Rattle.conf_tree.specs.Answers.{Appends};
ghost use Rattle.conf_tree.specs.Document.{AreDocuments, AreMembers, IsDocument};
ghost use Rattle.conf_tree.specs.Paths.{append as append_by_path, append_item};
ghost use Rattle.conf_tree.specs.View.{data_of, list_data, map_data};
ghost use Rattle.serde_json.specs.Data.{array, object};

use crate::index::index_below;
use crate::outcomes::Append;
use crate::path::Path;
use crate::tree::{Tree, TreeList, TreeMap};
use std::alloc::AllocError;
use unit_types::Bytes;

/// Puts a value behind the items of the array at a path.
///
/// `Absent` exactly where there is no value at the path, `NoArray` exactly where that value is no array.
/// Fails for want of memory alone. After each answer but `Done`, and after an error, the tree is as before.
pub fn append(tree: &mut Tree, path: &Path, value: Tree) -> Result<Append, AllocError>
    requires tree { IsDocument (data_of tree.old) }
    requires value { IsDocument (data_of value) }
    ensures ok { IfOk result (λ answer. Appends answer
        (append_by_path path.now (data_of value) (data_of tree.old)) (data_of tree.old)
        (data_of tree.new)) }
    ensures err { OnErr result (data_of tree.new ≡ data_of tree.old) }
    ensures document { IsDocument (data_of tree.new) }
{
    append_along(tree, path.as_slice(), value)
}

#[cycle(append_along)]
fn append_along(tree: &mut Tree, keys: &[Bytes], value: Tree) -> Result<Append, AllocError>
    requires { IsDocument (data_of tree.old) }
    ensures ok { IfOk result (λ answer. Appends answer
        (append_by_path keys.now (data_of value) (data_of tree.old)) (data_of tree.old)
        (data_of tree.new)) }
    ensures err { OnErr result (data_of tree.new ≡ data_of tree.old) }
{
    let Some((key, rest)) = keys.split_first() else {
        return push_item(tree, value);
    };
    match tree {
        Tree::List(items) => append_in_list(items, key, rest, value),
        Tree::Object(members) => append_in_map(members, key, rest, value),
        _ => Ok(Append::Absent),
    }
}

#[cycle(append_along)]
fn append_in_list(
    items: &mut TreeList,
    key: &Bytes,
    rest: &[Bytes],
    value: Tree,
) -> Result<Append, AllocError>
    requires { AreDocuments (list_data items.old.items) }
    ensures ok { IfOk result (λ answer. Appends answer
        (append_by_path (key.now ∷ rest.now) (data_of value) (array (list_data items.old.items)))
        (array (list_data items.old.items)) (array (list_data items.new.items))) }
    ensures err { OnErr result (list_data items.new.items ≡ list_data items.old.items) }
{
    match index_below(key.as_slice(), items.len()) {
        Some(index) => append_along(&mut items[index], rest, value),
        None => Ok(Append::Absent),
    }
}

#[cycle(append_along)]
fn append_in_map(
    members: &mut TreeMap,
    key: &Bytes,
    rest: &[Bytes],
    value: Tree,
) -> Result<Append, AllocError>
    requires { AreMembers (map_data members.old) }
    ensures ok { IfOk result (λ answer. Appends answer
        (append_by_path (key.now ∷ rest.now) (data_of value) (object (map_data members.old)))
        (object (map_data members.old)) (object (map_data members.new))) }
    ensures err { OnErr result (map_data members.new ≡ map_data members.old) }
{
    match members.find(key.as_slice()) {
        Ok(index) => append_along(&mut members.members[index].value, rest, value),
        Err(_) => Ok(Append::Absent),
    }
}

/// Puts a value behind the items of this one.
fn push_item(tree: &mut Tree, value: Tree) -> Result<Append, AllocError>
    ensures ok { IfOk result (λ answer. Appends answer
        (append_item (data_of value) (data_of tree.old)) (data_of tree.old) (data_of tree.new)) }
    ensures err { OnErr result (data_of tree.new ≡ data_of tree.old) }
{
    match tree {
        Tree::List(items) => push(items, value),
        _ => Ok(Append::NoArray),
    }
}

fn push(items: &mut TreeList, value: Tree) -> Result<Append, AllocError>
    ensures ok { IfOk result (λ answer. Appends answer
        (append_item (data_of value) (array (list_data items.old.items)))
        (array (list_data items.old.items)) (array (list_data items.new.items))) }
    ensures err { OnErr result (list_data items.new.items ≡ list_data items.old.items) }
{
    items.push(value)?;
    Ok(Append::Done)
}
