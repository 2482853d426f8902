//! Copies of trees.
ghost use Rattle.std.specs.Prelude.{◌≡◌, IfOk};
ghost use Rattle.conf_tree.specs.View.{list_data};

use crate::tree::{Member, Tree, TreeList, TreeMap};
use std::alloc::{AllocError, Global};
use unit_types::Bytes;

impl Tree {
    ghost use Rattle.conf_tree.specs.View.{data_of};

    /// Another tree of the same value.
    ///
    /// Fails for want of memory alone.
    #[cycle(copy)]
    pub fn copy(&self, alloc: Global) -> Result<Tree, AllocError>
        ensures { IfOk result (λ tree. data_of tree ≡ data_of self.now) }
    {
        match self {
            Tree::Null => Ok(Tree::Null),
            Tree::Truth(truth) => Ok(Tree::Truth(*truth)),
            Tree::Number(integer) => Ok(Tree::Number(*integer)),
            Tree::Text(text) => Ok(Tree::Text(Bytes::copy_of(alloc, text.as_slice())?)),
            Tree::List(items) => Ok(Tree::List(copy_items(alloc, items)?)),
            Tree::Object(map) => Ok(Tree::Object(map.copy(alloc)?)),
        }
    }
}

#[cycle(copy)]
fn copy_items(alloc: Global, items: &TreeList) -> Result<TreeList, AllocError>
    ensures { IfOk result (λ copies. list_data copies.items ≡ list_data items.now.items) }
{
    let mut copies = Vec::with_capacity(alloc, items.len())?;
    for item in items {
        copies.push(item.copy(alloc)?)?;
    }
    Ok(copies)
}

impl TreeMap {
    ghost use Rattle.conf_tree.specs.View.{map_data};

    #[cycle(copy)]
    fn copy(&self, alloc: Global) -> Result<TreeMap, AllocError>
        ensures { IfOk result (λ map. map_data map ≡ map_data self.now) }
    {
        let mut members = Vec::with_capacity(alloc, self.members.len())?;
        for member in &self.members {
            let key = Bytes::copy_of(alloc, member.key.as_slice())?;
            let value = member.value.copy(alloc)?;
            members.push(Member { key, value })?;
        }
        Ok(TreeMap { members })
    }
}
