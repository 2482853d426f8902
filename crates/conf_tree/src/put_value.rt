//! A value is put at a path.
ghost use Rattle.std.specs.Prelude.{◌≡◌, ◌∷◌, map, IfOk, OnErr};
ghost use Rattle.conf_tree.specs.Answers.{Puts};
ghost use Rattle.conf_tree.specs.Document.{IsDocument, AreDocuments, AreMembers};
ghost use Rattle.conf_tree.specs.Paths.{changed, put as put_by_path};
ghost use Rattle.conf_tree.specs.Places.{IsGapAt};
ghost use Rattle.conf_tree.specs.View.{data_of, list_data, map_data, named};
ghost use Rattle.conf_tree.specs.declared.tree.TreeMap.{out-TreeMap};
ghost use Rattle.serde_json.specs.Data.{array, object, put as put_member};

use crate::index::index_below;
use crate::outcomes::Put;
use crate::path::Path;
use crate::tree::{Member, Tree, TreeList, TreeMap};
use std::alloc::{AllocError, Global};
use unit_types::Bytes;

/// Puts a value at a path: in an object it adds or replaces a member, in an array it replaces an item,
/// and at the empty path it replaces the whole.
///
/// `Absent` exactly where the parent isn't there, or is an array without that item.
/// Fails for want of memory alone. After `Absent` and after an error the tree is as before.
pub fn put(alloc: Global, tree: &mut Tree, path: &Path, value: Tree) -> Result<Put, AllocError>
    requires tree { IsDocument (data_of tree.old) }
    requires value { IsDocument (data_of value) }
    ensures ok { IfOk result (λ answer. Puts answer
        (put_by_path path.now (data_of value) (data_of tree.old)) (data_of tree.old)
        (data_of tree.new)) }
    ensures err { OnErr result (data_of tree.new ≡ data_of tree.old) }
    ensures document { IsDocument (data_of tree.new) }
{
    put_along(alloc, tree, path.as_slice(), value)
}

#[cycle(put_along)]
fn put_along(alloc: Global, tree: &mut Tree, keys: &[Bytes], value: Tree) -> Result<Put, AllocError>
    requires { IsDocument (data_of tree.old) }
    ensures ok { IfOk result (λ answer. Puts answer
        (put_by_path keys.now (data_of value) (data_of tree.old)) (data_of tree.old)
        (data_of tree.new)) }
    ensures err { OnErr result (data_of tree.new ≡ data_of tree.old) }
{
    let Some((key, rest)) = keys.split_first() else {
        *tree = value;
        return Ok(Put::Done);
    };
    match tree {
        Tree::List(items) => put_in_list(alloc, items, key, rest, value),
        Tree::Object(members) => put_in_map(alloc, members, key, rest, value),
        _ => Ok(Put::Absent),
    }
}

#[cycle(put_along)]
fn put_in_list(
    alloc: Global,
    items: &mut TreeList,
    key: &Bytes,
    rest: &[Bytes],
    value: Tree,
) -> Result<Put, AllocError>
    requires { AreDocuments (list_data items.old.items) }
    ensures ok { IfOk result (λ answer. Puts answer
        (put_by_path (key.now ∷ rest.now) (data_of value) (array (list_data items.old.items)))
        (array (list_data items.old.items)) (array (list_data items.new.items))) }
    ensures err { OnErr result (list_data items.new.items ≡ list_data items.old.items) }
{
    match index_below(key.as_slice(), items.len()) {
        Some(index) => put_along(alloc, &mut items[index], rest, value),
        None => Ok(Put::Absent),
    }
}

#[cycle(put_along)]
fn put_in_map(
    alloc: Global,
    members: &mut TreeMap,
    key: &Bytes,
    rest: &[Bytes],
    value: Tree,
) -> Result<Put, AllocError>
    requires { AreMembers (map_data members.old) }
    ensures ok { IfOk result (λ answer. Puts answer
        (put_by_path (key.now ∷ rest.now) (data_of value) (object (map_data members.old)))
        (object (map_data members.old)) (object (map_data members.new))) }
    ensures err { OnErr result (map_data members.new ≡ map_data members.old) }
{
    match members.find(key.as_slice()) {
        Ok(index) => put_along(alloc, &mut members.members[index].value, rest, value),
        Err(index) => {
            if !rest.is_empty() {
                return Ok(Put::Absent);
            }
            insert_member(alloc, members, index, key, value)
        }
    }
}

/// Adds a member at its place.
fn insert_member(
    alloc: Global,
    members: &mut TreeMap,
    index: usize,
    key: &Bytes,
    value: Tree,
) -> Result<Put, AllocError>
    requires { IsGapAt key.now (map named (out-TreeMap members.old).members.items) index }
    ensures ok { IfOk result (λ answer. Puts answer
        (changed (object (put_member key.now (data_of value) (map_data members.old))))
        (object (map_data members.old)) (object (map_data members.new))) }
    ensures err { OnErr result (map_data members.new ≡ map_data members.old) }
{
    let key = Bytes::copy_of(alloc, key.as_slice())?;
    members.members.insert(index, Member { key, value })?;
    Ok(Put::Done)
}
