//! Look-ups.
ghost use Rattle.std.specs.Prelude.{◌≡◌, option_map, IfSome};
ghost use Rattle.conf_tree.specs.Document.{IsDocument};
ghost use Rattle.conf_tree.specs.Paths.{get as value_by_path, child as value_by_key};
ghost use Rattle.conf_tree.specs.View.{data_of};

use crate::index::index_below;
use crate::path::Path;
use crate::tree::Tree;

/// The value at this path; None exactly where there is none. It takes no memory.
pub fn get<'a>(tree: &'a Tree, path: &Path) -> Option<&'a Tree>
    requires { IsDocument (data_of tree.now) }
    ensures value { option_map (λ t. data_of t.now) result
        ≡ value_by_path path.now (data_of tree.now) }
    ensures document { IfSome result (λ t. IsDocument (data_of t.now)) }
{
    let mut here = tree;
    for key in path.as_slice() {
        match child(here, key.as_slice()) {
            Some(next) => here = next,
            None => return None,
        }
    }
    Some(here)
}

/// The value that this key names in this one.
fn child<'a>(tree: &'a Tree, key: &[u8]) -> Option<&'a Tree>
    requires { IsDocument (data_of tree.now) }
    ensures { option_map (λ t. data_of t.now) result ≡ value_by_key key.now (data_of tree.now) }
{
    match tree {
        Tree::List(items) => match index_below(key, items.len()) {
            Some(index) => Some(&items[index]),
            None => None,
        },
        Tree::Object(map) => map.get(key),
        _ => None,
    }
}
