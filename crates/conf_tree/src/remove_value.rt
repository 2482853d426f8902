//! A value is removed.
ghost use Rattle.std.specs.Prelude.{◌≡◌, ◌∷◌};
ghost use Rattle.conf_tree.specs.Answers.{Removes};
ghost use Rattle.conf_tree.specs.Document.{AreDocuments, AreMembers, IsDocument};
ghost use Rattle.conf_tree.specs.Paths.{remove as remove_by_path};
ghost use Rattle.conf_tree.specs.View.{data_of, list_data, map_data};
ghost use Rattle.serde_json.specs.Data.{array, object};

use crate::index::index_below;
use crate::outcomes::Remove;
use crate::path::Path;
use crate::tree::{Tree, TreeList, TreeMap};
use unit_types::Bytes;

/// Removes the value at a path; the later items of an array move down. At the empty path `{}` is left.
///
/// `Absent` exactly where there is no value at the path; the tree is then as before. It takes no memory.
pub fn remove(tree: &mut Tree, path: &Path) -> Remove
    requires { IsDocument (data_of tree.old) }
    ensures answer { Removes result (remove_by_path path.now (data_of tree.old)) (data_of tree.old)
        (data_of tree.new) }
    ensures document { IsDocument (data_of tree.new) }
{
    let Some((key, rest)) = path.as_slice().split_first() else {
        *tree = Tree::Object(TreeMap::new(path.allocator()));
        return Remove::Done;
    };
    remove_along(tree, key, rest)
}

#[cycle(remove_along)]
fn remove_along(tree: &mut Tree, key: &Bytes, rest: &[Bytes]) -> Remove
    requires { IsDocument (data_of tree.old) }
    ensures { Removes result (remove_by_path (key.now ∷ rest.now) (data_of tree.old))
        (data_of tree.old) (data_of tree.new) }
{
    match tree {
        Tree::List(items) => remove_in_list(items, key, rest),
        Tree::Object(members) => remove_in_map(members, key, rest),
        _ => Remove::Absent,
    }
}

#[cycle(remove_along)]
fn remove_in_list(items: &mut TreeList, key: &Bytes, rest: &[Bytes]) -> Remove
    requires { AreDocuments (list_data items.old.items) }
    ensures { Removes result (remove_by_path (key.now ∷ rest.now)
        (array (list_data items.old.items))) (array (list_data items.old.items))
        (array (list_data items.new.items)) }
{
    let Some(index) = index_below(key.as_slice(), items.len()) else {
        return Remove::Absent;
    };
    match rest.split_first() {
        Some((next, further)) => remove_along(&mut items[index], next, further),
        None => {
            drop(items.remove(index));
            Remove::Done
        }
    }
}

#[cycle(remove_along)]
fn remove_in_map(members: &mut TreeMap, key: &Bytes, rest: &[Bytes]) -> Remove
    requires { AreMembers (map_data members.old) }
    ensures { Removes result (remove_by_path (key.now ∷ rest.now) (object (map_data members.old)))
        (object (map_data members.old)) (object (map_data members.new)) }
{
    let Ok(index) = members.find(key.as_slice()) else {
        return Remove::Absent;
    };
    match rest.split_first() {
        Some((next, further)) => { remove_along(&mut members.members[index].value, next, further) }
        None => {
            drop(members.members.remove(index));
            Remove::Done
        }
    }
}
