//! Parts of a value.
ghost use Rattle.std.specs.Prelude.{◌≡◌, IfOk, IfSome, option_map};
ghost use Rattle.conf_tree.specs.Document.{IsDocument};
ghost use Rattle.conf_tree.specs.View.{data_of};
ghost use Rattle.conf_validate.specs.Configuration.{number_in, part, text_in, word};
ghost use Rattle.serde_json.specs.Find.{of_integer};

use crate::members::member_of;
use conf_tree::Tree;
use std::alloc::{AllocError, Global};
use unit_types::Bytes;

/// The member of this name of a value that is there.
pub(crate) fn part<'a>(value: Option<&'a Tree>, name: &[u8]) -> Option<&'a Tree>
    requires { IfSome value (λ t. IsDocument (data_of t.now)) }
    ensures value { option_map (λ t. data_of t.now) result
        ≡ part name.now (option_map (λ t. data_of t.now) value.entry) }
    ensures document { IfSome result (λ t. IsDocument (data_of t.now)) }
{
    match value {
        Some(tree) => member_of(tree, name),
        None => None,
    }
}

/// The text that the value is, where it is one.
pub(crate) fn text_in(alloc: Global, value: Option<&Tree>) -> Result<Option<Bytes>, AllocError>
    ensures { IfOk result (λ text. text ≡ text_in (option_map (λ t. data_of t.now) value.entry)) }
{
    match value {
        Some(Tree::Text(text)) => Ok(Some(Bytes::copy_of(alloc, text.as_slice())?)),
        _ => Ok(None),
    }
}

/// The number that the value is, where it is a `u64`.
pub(crate) fn number_in(value: Option<&Tree>) -> Option<u64>
    ensures { result ≡ number_in (option_map (λ t. data_of t.now) value.entry) }
{
    match value {
        Some(Tree::Number(integer)) => word(*integer),
        _ => None,
    }
}

/// The integer, where it is a `u64`.
fn word(integer: i128) -> Option<u64>
    ensures { result ≡ word (of_integer integer) }
{
    if integer >= 0 && integer <= u64::MAX as i128 {
        Some(integer as u64)
    } else {
        None
    }
}
