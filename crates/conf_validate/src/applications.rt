//! The applications and listeners of a valid document.
ghost use Rattle.std.specs.Prelude.{◌≡◌, [], IfOk, map, option_map};
ghost use Rattle.std.specs.Option.{unwrap_or};
ghost use Rattle.conf_tree.specs.Document.{AreMembers, IsDocument};
ghost use Rattle.conf_tree.specs.View.{data_of, map_data};
ghost use Rattle.conf_validate.specs.Configuration.{application_of, applications_of, listener_of, listeners_of, members_list, text_in};

use crate::conf::{Application, Listener};
use crate::members::member_of;
use crate::values::{number_in, part, text_in};
use conf_tree::{Tree, TreeMap};
use std::alloc::{AllocError, Global};
use unit_types::Bytes;

// ---- applications

pub(crate) fn applications_of(
    alloc: Global,
    document: &Tree,
) -> Result<Vec<Application>, AllocError>
    requires { IsDocument (data_of document.now) }
    ensures { IfOk result (λ apps. apps.items ≡ applications_of (data_of document.now)) }
{
    match member_of(document, b"applications") {
        Some(Tree::Object(map)) => applications_in(alloc, map),
        _ => Ok(Vec::new(alloc)),
    }
}

fn applications_in(alloc: Global, members: &TreeMap) -> Result<Vec<Application>, AllocError>
    requires { AreMembers (map_data members.now) }
    ensures { IfOk result
        (λ apps. apps.items ≡ map application_of (members_list (map_data members.now))) }
{
    let list = members.members();
    let mut applications = Vec::with_capacity(alloc, list.len())?;
    for member in list {
        applications.push(application_of(alloc, member.key.as_slice(), &member.value)?)?;
    }
    Ok(applications)
}

fn application_of(alloc: Global, name: &[u8], tree: &Tree) -> Result<Application, AllocError>
    requires { IsDocument (data_of tree.now) }
    ensures { IfOk result (λ app. app ≡ application_of (name.now, data_of tree.now)) }
{
    Ok(Application {
        name: Bytes::copy_of(alloc, name)?,
        handler: text_or_nothing(alloc, member_of(tree, b"executable"))?,
        timeout: number_in(part(member_of(tree, b"limits"), b"timeout")),
    })
}

/// The text that the value is, nothing where it is none.
fn text_or_nothing(alloc: Global, value: Option<&Tree>) -> Result<Bytes, AllocError>
    ensures { IfOk result
        (λ text. text ≡ unwrap_or (text_in (option_map (λ t. data_of t.now) value.entry)) []) }
{
    match text_in(alloc, value)? {
        Some(text) => Ok(text),
        None => Ok(Bytes::of(Vec::new(alloc))),
    }
}

// ---- listeners

pub(crate) fn listeners_of(alloc: Global, document: &Tree) -> Result<Vec<Listener>, AllocError>
    requires { IsDocument (data_of document.now) }
    ensures { IfOk result (λ list. list.items ≡ listeners_of (data_of document.now)) }
{
    match member_of(document, b"listeners") {
        Some(Tree::Object(map)) => listeners_in(alloc, map),
        _ => Ok(Vec::new(alloc)),
    }
}

fn listeners_in(alloc: Global, members: &TreeMap) -> Result<Vec<Listener>, AllocError>
    requires { AreMembers (map_data members.now) }
    ensures { IfOk result
        (λ list. list.items ≡ map listener_of (members_list (map_data members.now))) }
{
    let list = members.members();
    let mut listeners = Vec::with_capacity(alloc, list.len())?;
    for member in list {
        listeners.push(listener_of(alloc, member.key.as_slice(), &member.value)?)?;
    }
    Ok(listeners)
}

fn listener_of(alloc: Global, name: &[u8], tree: &Tree) -> Result<Listener, AllocError>
    requires { IsDocument (data_of tree.now) }
    ensures { IfOk result (λ listener. listener ≡ listener_of (name.now, data_of tree.now)) }
{
    Ok(Listener {
        name: Bytes::copy_of(alloc, name)?,
        pass: text_or_nothing(alloc, member_of(tree, b"pass"))?,
    })
}
