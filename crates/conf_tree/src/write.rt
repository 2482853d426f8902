//! From a tree to a text.
ghost use Rattle.std.specs.Fmt.{signed_decimal};
ghost use Rattle.std.specs.Prelude.{◌≡◌, ◌++◌, ◌∷◌, [], Some, IfOk, OnOk, IsUtf8};
ghost use Rattle.conf_tree.specs.Document.{AreDocuments, AreMembers, IsDocument};
ghost use Rattle.conf_tree.specs.Text.{document_of, IsReadable};
ghost use Rattle.conf_tree.specs.View.{data_of, list_data, map_data};
ghost use Rattle.json.specs.Json as json;
ghost use Rattle.json.specs.Token.{number};
ghost use Rattle.json.specs.Tree.{items_tokens, json_tokens, members_tokens};
ghost use Rattle.serde_json.specs.Written.{compact_text, items_outline, members_outline, outline};

use crate::tree::{Tree, TreeList, TreeMap};
use json::Writer;
use std::alloc::{AllocError, Global};
use unit_types::Bytes;

/// The compact JSON text (RFC 8259) of a tree: no space between tokens, the shortest escapes, each number in decimal.
///
/// Fails for want of memory alone.
pub fn write_tree(alloc: Global, tree: &Tree) -> Result<Bytes, AllocError>
    requires { IsDocument (data_of tree.now) }
    ensures text { IfOk result (λ text. text ≡ compact_text (data_of tree.now)) }
    ensures reads_back { IfOk result
        (λ text. IsReadable (data_of tree.now) → document_of text ≡ Some (data_of tree.now)) }
{
    let mut out = Writer::new(Vec::with_capacity(alloc, 128)?);
    write(tree, &mut out)?;
    Ok(Bytes::of(out.into_inner()))
}

#[cycle(write)]
fn write(tree: &Tree, out: &mut Writer) -> Result<(), AllocError>
    requires { IsDocument (data_of tree.now) }
    ensures tokens { OnOk result
        (out.new.tokens ≡ out.old.tokens ++ json_tokens (outline (data_of tree.now))) }
    ensures before { out.new.before ≡ out.old.before }
{
    match tree {
        Tree::Null => out.null(),
        Tree::Truth(truth) => out.boolean(*truth),
        Tree::Number(integer) => write_integer(*integer, out),
        Tree::Text(text) => out.string(text_of(text)),
        Tree::List(items) => write_items(items, out),
        Tree::Object(map) => write_members(map, out),
    }
}

#[cycle(write)]
fn write_items(items: &TreeList, out: &mut Writer) -> Result<(), AllocError>
    requires { AreDocuments (list_data items.now.items) }
    ensures tokens { OnOk result (out.new.tokens
        ≡ out.old.tokens ++ json_tokens (json.array (items_outline (list_data items.now.items)))) }
    ensures before { out.new.before ≡ out.old.before }
{
    out.begin_array()?;
    for item in items {
        write(item, out)?;
    }
    out.end_array()
}

#[cycle(write)]
fn write_members(map: &TreeMap, out: &mut Writer) -> Result<(), AllocError>
    requires { AreMembers (map_data map.now) }
    ensures tokens { OnOk result (out.new.tokens
        ≡ out.old.tokens ++ json_tokens (json.object (members_outline (map_data map.now)))) }
    ensures before { out.new.before ≡ out.old.before }
{
    out.begin_object()?;
    for member in &map.members {
        out.key(text_of(&member.key))?;
        write(&member.value, out)?;
    }
    out.end_object()
}

fn write_integer(integer: i128, out: &mut Writer) -> Result<(), AllocError>
    ensures tokens { OnOk result
        (out.new.tokens ≡ out.old.tokens ++ number (signed_decimal integer) ∷ []) }
    ensures before { out.new.before ≡ out.old.before }
{
    let mut buffer = itoa::Buffer::new();
    out.number(buffer.format(integer))
}

/// The bytes as a text.
fn text_of(bytes: &Bytes) -> &str
    requires { IsUtf8 bytes.now }
    ensures { result.now ≡ bytes.now }
{
    unsafe { std::str::from_utf8_unchecked(bytes.as_slice()) }
}
