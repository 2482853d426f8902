//! What a text of a configuration refers to: parts of the document, and handlers.
ghost use Rattle.std.specs.List.{list_any};
ghost use Rattle.std.specs.Prelude.{◌≡◌, ◌==◌, drop, option_map, IfSome};
ghost use Rattle.conf_tree.specs.Document.{IsDocument};
ghost use Rattle.conf_tree.specs.View.{data_of};
ghost use Rattle.conf_validate.specs.Scopes.{context_of, IsScope};
ghost use Rattle.conf_validate.specs.Table.{whole_table};
ghost use Rattle.conf_validate.specs.Targets.{has_member, is_array, is_object, is_pass, is_target, may_be_target};
ghost use Rattle.conf_validate.specs.Valid.{has_handler, has_target};
ghost use Rattle.std.specs.Str.{bytes_eq};

use crate::members::member_of;
use crate::place::Form;
use conf_tree::Tree;
use unit_types::Bytes;

/// What a text may refer to: the whole document, and the names of the handlers.
#[derive(Clone, Copy, Drop)]
pub(crate) struct Scope<'a> {
    pub(crate) document: &'a Tree,
    pub(crate) handlers: &'a [Bytes],
}

impl Scope<'_> {
    /// Whether what a text of this form names, as a pass, is there.
    pub(crate) fn has_target(&self, form: Form, text: &[u8]) -> bool
        requires { IsScope self.now }
        ensures { result ≡ has_target whole_table (context_of self.now) form text.now }
    {
        match form {
            Form::Pass => is_pass(self.document, text),
            _ => true,
        }
    }

    /// Whether the handler that a text of this form names is there.
    pub(crate) fn has_handler(&self, form: Form, text: &[u8]) -> bool
        ensures { result ≡ has_handler (context_of self.now) form text.now }
    {
        match form {
            Form::Handler => is_among(self.handlers, text),
            _ => true,
        }
    }
}

fn is_among(names: &[Bytes], text: &[u8]) -> bool
    ensures { result ≡ list_any (λ name. bytes_eq name text.now) names.now }
{
    for name in names {
        if name.as_slice() == text {
            return true;
        }
    }
    false
}

/// Whether the pass leads somewhere, or may do so once its variables have values.
fn is_pass(document: &Tree, pass: &[u8]) -> bool
    requires { IsDocument (data_of document.now) }
    ensures { result ≡ is_pass (data_of document.now) pass.now }
{
    if has_dollar(pass) {
        may_be_target(document, pass)
    } else {
        is_target(document, pass)
    }
}

pub(crate) fn has_dollar(text: &[u8]) -> bool
    ensures { result ≡ list_any (λ b. b == 36) text.now }
{
    text.iter().any(|b| *b == b'$')
}

fn is_target(document: &Tree, pass: &[u8]) -> bool
    requires { IsDocument (data_of document.now) }
    ensures { result ≡ is_target (data_of document.now) pass.now }
{
    let routes = member_of(document, b"routes");
    if pass == b"routes".as_slice() && is_array(routes) {
        return true;
    }
    if pass.starts_with(b"routes/") && has_member(routes, &pass[7..]) {
        return true;
    }
    pass.starts_with(b"applications/")
        && has_member(member_of(document, b"applications"), &pass[13..])
}

fn may_be_target(document: &Tree, pass: &[u8]) -> bool
    requires { IsDocument (data_of document.now) }
    ensures { result ≡ may_be_target (data_of document.now) pass.now }
{
    pass.starts_with(b"applications/")
        || (pass.starts_with(b"routes/") && is_object(member_of(document, b"routes")))
}

fn is_array(value: Option<&Tree>) -> bool
    ensures { result ≡ is_array (option_map (λ t. data_of t.now) value.entry) }
{
    match value {
        Some(Tree::List(_)) => true,
        _ => false,
    }
}

fn is_object(value: Option<&Tree>) -> bool
    ensures { result ≡ is_object (option_map (λ t. data_of t.now) value.entry) }
{
    match value {
        Some(Tree::Object(_)) => true,
        _ => false,
    }
}

/// Whether the value is an object with a member of this name.
fn has_member(value: Option<&Tree>, name: &[u8]) -> bool
    requires { IfSome value (λ t. IsDocument (data_of t.now)) }
    ensures { result ≡ has_member name.now (option_map (λ t. data_of t.now) value.entry) }
{
    match value {
        Some(tree) => member_of(tree, name).is_some(),
        None => false,
    }
}
