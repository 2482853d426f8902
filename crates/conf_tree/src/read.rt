//! From a text to a tree.
ghost use Rattle.std.specs.Prelude.{◌≡◌, IfOk, IfSome, option_map};
ghost use Rattle.conf_tree.specs.Text.{document_of, IsIntegerOf, IsListOf, IsMapOf, IsReadable, IsTreeOf};
ghost use Rattle.conf_tree.specs.View.{data_of};
ghost use Rattle.serde_json.specs.View.{items_view, members_view, number_view, view};

use crate::tree::{Member, Tree, TreeList, TreeMap};
use serde_json::{Map, Number, Value};
use std::alloc::{AllocError, Global};
use unit_types::Bytes;

/// The tree of a JSON text (RFC 8259) in UTF-8.
///
/// None exactly where `serde_json` refuses the bytes as a value for another cause than memory, or a number is
/// neither an `i64` nor a `u64`. Of a name that stands twice the last value stays. Fails for want of memory alone.
pub fn read_tree(alloc: Global, bytes: &[u8]) -> Result<Option<Tree>, AllocError>
    ensures value { IfOk result (λ tree. option_map data_of tree ≡ document_of bytes.now) }
    ensures readable { IfOk result (λ tree. IfSome tree (λ t. IsReadable (data_of t))) }
{
    match Value::from_slice(alloc, bytes) {
        Ok(value) => tree_of_value(alloc, value),
        Err(error) => if error.is_memory() {
            Err(AllocError)
        } else {
            Ok(None)
        },
    }
}

#[cycle(tree_of_value)]
fn tree_of_value(alloc: Global, value: Value) -> Result<Option<Tree>, AllocError>
    ensures { IfOk result (IsTreeOf (view value)) }
{
    match value {
        Value::Null => Ok(Some(Tree::Null)),
        Value::Bool(truth) => Ok(Some(Tree::Truth(truth))),
        Value::Number(number) => match integer_of(&number) {
            Some(integer) => Ok(Some(Tree::Number(integer))),
            None => Ok(None),
        },
        Value::String(text) => Ok(Some(Tree::Text(Bytes::of(text.into_bytes())))),
        Value::Array(items) => match list_of_values(alloc, items)? {
            Some(list) => Ok(Some(Tree::List(list))),
            None => Ok(None),
        },
        Value::Object(members) => match map_of_values(alloc, members)? {
            Some(map) => Ok(Some(Tree::Object(map))),
            None => Ok(None),
        },
    }
}

#[cycle(tree_of_value)]
fn list_of_values(alloc: Global, items: Vec<Value>) -> Result<Option<TreeList>, AllocError>
    ensures { IfOk result (IsListOf (items_view items.items)) }
{
    let mut list = Vec::with_capacity(alloc, items.len())?;
    for item in items {
        match tree_of_value(alloc, item)? {
            Some(tree) => list.push(tree)?,
            None => return Ok(None),
        }
    }
    Ok(Some(list))
}

#[cycle(tree_of_value)]
fn map_of_values(alloc: Global, values: Map<String, Value>) -> Result<Option<TreeMap>, AllocError>
    ensures { IfOk result (IsMapOf (members_view values.entries)) }
{
    let mut members = Vec::with_capacity(alloc, values.len())?;
    for (name, value) in values {
        let key = Bytes::of(name.into_bytes());
        match tree_of_value(alloc, value)? {
            Some(value) => members.push(Member { key, value })?,
            None => return Ok(None),
        }
    }
    Ok(Some(TreeMap { members }))
}

/// The number as an integer, where it is an `i64` or a `u64`.
fn integer_of(number: &Number) -> Option<i128>
    ensures { IsIntegerOf (number_view number.now) result }
{
    match number.as_u64() {
        Some(integer) => Some(integer as i128),
        None => match number.as_i64() {
            Some(integer) => Some(integer as i128),
            None => None,
        },
    }
}
