//! Members by their name.
ghost use Rattle.std.specs.Prelude.{◌≡◌, option_map, IfSome, option_and_then};
ghost use Rattle.conf_tree.specs.Document.{AreMembers, IsDocument};
ghost use Rattle.conf_tree.specs.View.{data_of, map_data};
ghost use Rattle.conf_validate.specs.Choices.{has};
ghost use Rattle.serde_json.specs.Find.{get};

use conf_tree::{Tree, TreeMap};

/// Whether there is a member of this name.
pub(crate) fn has(map: &TreeMap, name: &[u8]) -> bool
    requires { AreMembers (map_data map.now) }
    ensures { result ≡ has name.now (map_data map.now) }
{
    map.get(name).is_some()
}

/// The value of an object's member of this name, if there is one.
pub(crate) fn member_of<'a>(tree: &'a Tree, name: &[u8]) -> Option<&'a Tree>
    requires { IsDocument (data_of tree.now) }
    ensures value { option_map (λ t. data_of t.now) result ≡ get name.now (data_of tree.now) }
    ensures document { IfSome result (λ t. IsDocument (data_of t.now)) }
{
    match tree {
        Tree::Object(map) => map.get(name),
        _ => None,
    }
}
