//! From the match of a valid document to patterns.
ghost use Rattle.std.specs.List.{flat_map};
ghost use Rattle.std.specs.Prelude.{◌≡◌, ◌++◌, IfOk, IfSome, OnOk, if◌then◌else◌, ◌∷◌, [], map, option_map};
ghost use Rattle.std.specs.Str.{str_to_ascii_lowercase};
ghost use Rattle.conf_tree.specs.Document.{IsDocument};
ghost use Rattle.conf_tree.specs.View.{data_of, list_data, map_data};
ghost use Rattle.conf_validate.specs.Configuration.{address_of, addresses_of, items_list, match_of, named, named_list, named_of, sets_of, text_or_nil, texts_of};

use crate::lower::lowercase;
use crate::matching::{Match, NamedPatterns, NamedSet, NamedSets};
use crate::values::part;
use conf_tree::{Tree, TreeList, TreeMap};
use pattern_addr::{AddrPattern, AddrPatterns};
use pattern_text::{TextPattern, TextPatterns};
use std::alloc::{AllocError, Global};
use unit_types::Bytes;

pub(crate) fn match_of(alloc: Global, value: Option<&Tree>) -> Result<Match, AllocError>
    requires { IfSome value (λ t. IsDocument (data_of t.now)) }
    ensures { IfOk result (λ m. m ≡ match_of (option_map (λ t. data_of t.now) value.entry)) }
{
    Ok(Match {
        uri: texts_in(alloc, part(value, b"uri"))?,
        host: texts_in(alloc, part(value, b"host"))?,
        method: texts_in(alloc, part(value, b"method"))?,
        scheme: texts_in(alloc, part(value, b"scheme"))?,
        query: texts_in(alloc, part(value, b"query"))?,
        source: addresses_in(alloc, part(value, b"source"))?,
        destination: addresses_in(alloc, part(value, b"destination"))?,
        arguments: sets_in(alloc, false, part(value, b"arguments"))?,
        cookies: sets_in(alloc, false, part(value, b"cookies"))?,
        headers: sets_in(alloc, true, part(value, b"headers"))?,
    })
}

/// The text, nothing where the value is none.
fn text_or_nil(tree: &Tree) -> &[u8]
    ensures { result.now ≡ text_or_nil (data_of tree.now) }
{
    match tree {
        Tree::Text(text) => text.as_slice(),
        _ => b"",
    }
}

// ---- texts

fn texts_in(alloc: Global, value: Option<&Tree>) -> Result<Option<TextPatterns>, AllocError>
    ensures { IfOk result
        (λ texts. texts ≡ option_map texts_of (option_map (λ t. data_of t.now) value.entry)) }
{
    match value {
        Some(tree) => Ok(Some(texts_of(alloc, tree)?)),
        None => Ok(None),
    }
}

fn texts_of(alloc: Global, tree: &Tree) -> Result<TextPatterns, AllocError>
    ensures { IfOk result (λ texts. texts ≡ texts_of (data_of tree.now)) }
{
    match tree {
        Tree::Text(text) => one_text(alloc, text.as_slice()),
        Tree::List(items) => list_of_texts(alloc, items),
        _ => Ok(TextPatterns::of(Vec::new(alloc))),
    }
}

fn one_text(alloc: Global, text: &[u8]) -> Result<TextPatterns, AllocError>
    ensures { IfOk result (λ texts. texts ≡ text.now ∷ []) }
{
    let mut list = Vec::new(alloc);
    list.push(TextPattern::parse(alloc, text)?)?;
    Ok(TextPatterns::of(list))
}

fn list_of_texts(alloc: Global, items: &TreeList) -> Result<TextPatterns, AllocError>
    ensures { IfOk result
        (λ texts. texts ≡ map text_or_nil (items_list (list_data items.now.items))) }
{
    let mut list = Vec::with_capacity(alloc, items.len())?;
    for item in items {
        list.push(TextPattern::parse(alloc, text_or_nil(item))?)?;
    }
    Ok(TextPatterns::of(list))
}

// ---- addresses

fn addresses_in(alloc: Global, value: Option<&Tree>) -> Result<Option<AddrPatterns>, AllocError>
    ensures { IfOk result (λ addresses. addresses
        ≡ option_map addresses_of (option_map (λ t. data_of t.now) value.entry)) }
{
    match value {
        Some(tree) => Ok(Some(AddrPatterns::of(addresses_of(alloc, tree)?))),
        None => Ok(None),
    }
}

fn addresses_of(alloc: Global, tree: &Tree) -> Result<Vec<AddrPattern>, AllocError>
    ensures { IfOk result (λ list. list.items ≡ addresses_of (data_of tree.now)) }
{
    let mut list = Vec::new(alloc);
    match tree {
        Tree::Text(text) => push_address(&mut list, text.as_slice())?,
        Tree::List(items) => push_addresses(&mut list, items)?,
        _ => {}
    }
    Ok(list)
}

fn push_addresses(list: &mut Vec<AddrPattern>, items: &TreeList) -> Result<(), AllocError>
    ensures { OnOk result (list.new.items ≡ list.old.items ++ flat_map
        (λ d. address_of (text_or_nil d)) (items_list (list_data items.now.items))) }
{
    for item in items {
        push_address(list, text_or_nil(item))?;
    }
    Ok(())
}

fn push_address(list: &mut Vec<AddrPattern>, text: &[u8]) -> Result<(), AllocError>
    ensures { OnOk result (list.new.items ≡ list.old.items ++ address_of text.now) }
{
    match AddrPattern::parse(text) {
        Some(pattern) => {
            list.push(pattern)?;
            Ok(())
        }
        None => Ok(()),
    }
}

// ---- names

fn sets_in(
    alloc: Global,
    lower: bool,
    value: Option<&Tree>,
) -> Result<Option<NamedSets>, AllocError>
    ensures { IfOk result
        (λ sets. sets ≡ option_map (sets_of lower) (option_map (λ t. data_of t.now) value.entry)) }
{
    match value {
        Some(tree) => Ok(Some(sets_of(alloc, lower, tree)?)),
        None => Ok(None),
    }
}

fn sets_of(alloc: Global, lower: bool, tree: &Tree) -> Result<NamedSets, AllocError>
    ensures { IfOk result (λ sets. sets ≡ sets_of lower (data_of tree.now)) }
{
    match tree {
        Tree::Object(members) => one_set(alloc, lower, members),
        Tree::List(items) => list_of_sets(alloc, lower, items),
        _ => Ok(NamedSets::of(Vec::new(alloc))),
    }
}

fn one_set(alloc: Global, lower: bool, members: &TreeMap) -> Result<NamedSets, AllocError>
    ensures { IfOk result (λ sets. sets ≡ named_list lower (map_data members.now) ∷ []) }
{
    let mut list = Vec::new(alloc);
    list.push(named_list(alloc, lower, members)?)?;
    Ok(NamedSets::of(list))
}

fn list_of_sets(alloc: Global, lower: bool, items: &TreeList) -> Result<NamedSets, AllocError>
    ensures { IfOk result
        (λ sets. sets ≡ map (named_of lower) (items_list (list_data items.now.items))) }
{
    let mut list = Vec::with_capacity(alloc, items.len())?;
    for item in items {
        list.push(named_of(alloc, lower, item)?)?;
    }
    Ok(NamedSets::of(list))
}

fn named_of(alloc: Global, lower: bool, tree: &Tree) -> Result<NamedSet, AllocError>
    ensures { IfOk result (λ set. set ≡ named_of lower (data_of tree.now)) }
{
    match tree {
        Tree::Object(members) => named_list(alloc, lower, members),
        _ => Ok(NamedSet::of(Vec::new(alloc))),
    }
}

fn named_list(alloc: Global, lower: bool, members: &TreeMap) -> Result<NamedSet, AllocError>
    ensures { IfOk result (λ set. set ≡ named_list lower (map_data members.now)) }
{
    let list = members.members();
    let mut set = Vec::with_capacity(alloc, list.len())?;
    for member in list {
        set.push(named(alloc, lower, member.key.as_slice(), &member.value)?)?;
    }
    Ok(NamedSet::of(set))
}

fn named(alloc: Global, lower: bool, name: &[u8], value: &Tree) -> Result<NamedPatterns, AllocError>
    ensures { IfOk result (λ n. n ≡ named lower name.now (data_of value.now)) }
{
    Ok(NamedPatterns {
        name: name_in(alloc, lower, name)?,
        patterns: texts_of(alloc, value)?,
    })
}

fn name_in(alloc: Global, lower: bool, name: &[u8]) -> Result<Bytes, AllocError>
    ensures { IfOk result (λ n. n ≡ (if lower then str_to_ascii_lowercase name.now else name.now)) }
{
    if lower {
        Ok(Bytes::of(lowercase(alloc, name)?))
    } else {
        Bytes::copy_of(alloc, name)
    }
}
