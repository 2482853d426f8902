//! Trees.
ghost use Rattle.std.specs.Cmp.Lexicographic.{slice_cmp};
ghost use Rattle.std.specs.Ordering.{nat_cmp};
ghost use Rattle.std.specs.Prelude.{◌≡◌, length, option_map, map, IfSome};

use std::alloc::Global;
use std::cmp::Ordering;
use unit_types::Bytes;

/// A JSON value (RFC 8259, section 3) whose numbers are integers.
///
/// Contracts see the value that a tree stands for as `data_of tree`.
#[cycle(tree)]
#[derive(Drop)]
pub enum Tree {
    /// `null`.
    Null,
    /// `true` or `false`.
    Truth(bool),
    /// An integer.
    Number(i128),
    /// A string.
    Text(Bytes),
    /// An array.
    List(TreeList),
    /// An object.
    Object(TreeMap),
}

/// The items of an array, shown by `as_slice`.
pub type TreeList = Vec<Tree>;

/// A member of an object.
#[cycle(tree)]
#[derive(Drop)]
pub struct Member {
    /// Its name.
    pub key: Bytes,
    /// Its value.
    pub value: Tree,
}

/// The members of an object, in ascending byte order of their names.
#[cycle(tree)]
#[derive(Drop)]
pub struct TreeMap {
    pub(crate) members: Vec<Member>,
}

impl TreeMap {
    ghost use Rattle.conf_tree.specs.Document.{AreMembers, IsDocument};
    ghost use Rattle.conf_tree.specs.Places.{IsPlaceOf};
    ghost use Rattle.conf_tree.specs.View.{data_of, map_data, members_of, name_at, named, value_at};
    ghost use Rattle.conf_tree.specs.declared.tree.TreeMap.{out-TreeMap};
    ghost use Rattle.serde_json.specs.Data.{no_members};
    ghost use Rattle.serde_json.specs.Events.{members_len};
    ghost use Rattle.serde_json.specs.Find.{get_member};

    /// No members.
    pub fn new(alloc: Global) -> TreeMap
        ensures { map_data result ≡ no_members }
    {
        TreeMap {
            members: Vec::new(alloc),
        }
    }

    /// How many members there are.
    pub fn len(&self) -> usize
        ensures { result ≡ members_len (map_data self.now) }
    {
        self.members.len()
    }

    /// The name of the member at this place; None exactly where `index` isn't below `len`.
    pub fn key(&self, index: usize) -> Option<&Bytes>
        ensures { option_map (λ k. k.now) result ≡ name_at index (map_data self.now) }
    {
        match self.members.get(index) {
            Some(member) => Some(&member.key),
            None => None,
        }
    }

    /// The value of the member at this place; None exactly where `index` isn't below `len`.
    pub fn value(&self, index: usize) -> Option<&Tree>
        ensures { option_map (λ t. data_of t.now) result ≡ value_at index (map_data self.now) }
    {
        match self.members.get(index) {
            Some(member) => Some(&member.value),
            None => None,
        }
    }

    /// The members in ascending byte order of their names. It takes no memory.
    pub fn members(&self) -> &[Member]
        ensures { map_data self.now ≡ members_of (map named result.now) }
    {
        self.members.as_slice()
    }

    /// The value of the member of this name; None exactly where there is none. It takes no memory.
    pub fn get(&self, key: &[u8]) -> Option<&Tree>
        requires { AreMembers (map_data self.now) }
        ensures value { option_map (λ t. data_of t.now) result
            ≡ get_member key.now (map_data self.now) }
        ensures document { IfSome result (λ t. IsDocument (data_of t.now)) }
    {
        match self.find(key) {
            Ok(index) => Some(&self.members[index].value),
            Err(_) => None,
        }
    }

    /// The place of the member of this name, or the place where it belongs.
    pub(crate) fn find(&self, key: &[u8]) -> Result<usize, usize>
        requires { AreMembers (map_data self.now) }
        ensures { IsPlaceOf key.now (map named (out-TreeMap self.now).members.items) result }
    {
        self.members.binary_search_by(
            |member: &Member| -> Ordering
                ensures { result ≡ slice_cmp nat_cmp member.now.key key.entry.now }
            { member.key.as_slice().cmp(&key) },
        )
    }
}
