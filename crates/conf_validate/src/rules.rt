//! The rules of one value.
ghost use Rattle.std.specs.Prelude.{◌≡◌, not};
ghost use Rattle.conf_tree.specs.Document.{AreMembers};
ghost use Rattle.conf_tree.specs.View.{map_data};
ghost use Rattle.conf_validate.specs.Scopes.{context_of, IsScope};
ghost use Rattle.conf_validate.specs.Choices.{is_choice, is_one};
ghost use Rattle.conf_validate.specs.Table.{entries_of, whole_table};
ghost use Rattle.conf_validate.specs.Valid.{broken, broken_if, for_some, is_choice_at, is_in_range, place_of, text_fault};
ghost use Rattle.serde_json.specs.Find.{of_integer};

use crate::entries::member_place;
use crate::fault::{Invalid, broken_if};
use crate::forms::has_form;
use crate::members::has;
use crate::names::{is_header_name, is_listener_name, is_target_name};
use crate::place::{Form, Names, Place, Range};
use crate::references::Scope;
use conf_tree::TreeMap;
use std::alloc::Global;

/// Rules 1 and 4 of a number.
pub(crate) fn number_fault(alloc: Global, range: Option<Range>, integer: i128) -> Option<Invalid>
    ensures { result ≡ for_some range (broken 1)
        (λ range. broken_if (not (is_in_range range (of_integer integer))) 4) }
{
    match range {
        Some(range) => broken_if(alloc, !is_in_range(range, integer), 4),
        None => Some(Invalid::here(alloc, 1)),
    }
}

fn is_in_range(range: Range, integer: i128) -> bool
    ensures { result ≡ is_in_range range (of_integer integer) }
{
    integer >= 0 && integer >= range.first as i128 && integer <= range.last as i128
}

/// Rules 1, 5, 7 and 8 of a text.
pub(crate) fn text_fault(
    alloc: Global,
    scope: &Scope<'_>,
    form: Option<Form>,
    text: &[u8],
) -> Option<Invalid>
    requires { IsScope scope.now }
    ensures { result ≡ for_some form (broken 1)
        (λ form. text_fault whole_table (context_of scope.now) form text.now) }
{
    let form = match form {
        Some(form) => form,
        None => return Some(Invalid::here(alloc, 1)),
    };
    if !has_form(form, text) {
        return Some(Invalid::here(alloc, 5));
    }
    if !scope.has_target(form, text) {
        return Some(Invalid::here(alloc, 7));
    }
    broken_if(alloc, !scope.has_handler(form, text), 8)
}

/// Rule 6: whether an action has exactly one of `pass` and `return`, no `location` without `return` and no `rewrite`
/// without `pass`.
pub(crate) fn is_choice_at(place: Place, map: &TreeMap) -> bool
    requires { AreMembers (map_data map.now) }
    ensures { result ≡ is_choice_at whole_table place (map_data map.now) }
{
    match place {
        Place::Action => is_choice(map),
        _ => true,
    }
}

fn is_choice(map: &TreeMap) -> bool
    requires { AreMembers (map_data map.now) }
    ensures { result ≡ is_choice (map_data map.now) }
{
    let passes = has(map, b"pass");
    let returns = has(map, b"return");
    is_one(passes, returns)
        && (!has(map, b"location") || returns)
        && (!has(map, b"rewrite") || passes)
}

/// Whether exactly one of the two holds.
fn is_one(a: bool, b: bool) -> bool
    ensures { result ≡ is_one a b }
{
    if a { !b } else { b }
}

/// Rule 2: the place of a member's value, where its name is one of its object's.
pub(crate) fn place_of(place: Place, names: Names, again: bool, name: &[u8]) -> Option<Place>
    ensures { result ≡ place_of (entries_of place) names again name.now }
{
    match names {
        Names::Fixed => member_place(place, name),
        Names::Any(value) => Some(value),
        Names::Listener(value) => is_listener_name(name).then_some(value),
        Names::Target(value) => is_target_name(name).then_some(value),
        Names::Header(value) => (is_header_name(name) && !again).then_some(value),
    }
}
