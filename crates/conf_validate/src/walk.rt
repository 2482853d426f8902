//! The walk over a configuration, from the whole to its parts.
ghost use Rattle.std.specs.Prelude.{◌≡◌, IfOk, not, []};
ghost use Rattle.conf_tree.specs.Document.{AreDocuments, AreMembers, IsDocument};
ghost use Rattle.conf_tree.specs.View.{data_of, list_data, map_data};
ghost use Rattle.conf_validate.specs.Scopes.{context_of, IsScope};
ghost use Rattle.conf_validate.specs.Table.{entries_of, whole_table};
ghost use Rattle.conf_validate.specs.Valid.{broken, broken_if, fault_of, for_some, has_required, is_choice_at, items_fault, members_fault, or_then, value_fault};

use crate::entries::has_required;
use crate::fault::{Invalid, broken_if};
use crate::lower::LowerNames;
use crate::place::{Names, Place};
use crate::references::Scope;
use crate::rules::{is_choice_at, number_fault, place_of, text_fault};
use conf_tree::{Tree, TreeList, TreeMap};
use std::alloc::{AllocError, Global};
use unit_types::Bytes;

/// The first broken rule of a configuration whose applications may have these handlers; None where it is valid.
///
/// The walk goes from the whole to its parts. Of a value comes its type (rule 1), then of an object whether its required
/// members are there (3) and whether an action has one of its choices (6), then its members in ascending byte order,
/// each with its name (2) before its value; the items of an array come by index. Of a number comes its range (4), of a
/// text its form (5), then what a pass names (7) or the handler (8).
///
/// Fails for want of memory alone.
pub fn first_fault(
    alloc: Global,
    document: &Tree,
    handlers: &[Bytes],
) -> Result<Option<Invalid>, AllocError>
    requires { IsDocument (data_of document.now) }
    ensures { IfOk result (λ fault. fault ≡ fault_of (data_of document.now) handlers.now) }
{
    let scope = Scope { document, handlers };
    value_fault(alloc, &scope, Place::Whole, document)
}

#[cycle(value_fault)]
fn value_fault(
    alloc: Global,
    scope: &Scope<'_>,
    place: Place,
    tree: &Tree,
) -> Result<Option<Invalid>, AllocError>
    requires scope { IsScope scope.now }
    requires value { IsDocument (data_of tree.now) }
    ensures { IfOk result
        (λ fault. fault ≡ value_fault whole_table (context_of scope.now) place (data_of tree.now)) }
{
    let row = place.row();
    match tree {
        Tree::Null => Ok(broken_if(alloc, !row.null, 1)),
        Tree::Truth(_) => Ok(Some(Invalid::here(alloc, 1))),
        Tree::Number(integer) => Ok(number_fault(alloc, row.number, *integer)),
        Tree::Text(text) => Ok(text_fault(alloc, scope, row.text, text.as_slice())),
        Tree::List(items) => match row.items {
            Some(item) => items_fault(alloc, scope, item, items),
            None => Ok(Some(Invalid::here(alloc, 1))),
        },
        Tree::Object(map) => match row.members {
            Some(names) => object_fault(alloc, scope, place, names, map),
            None => Ok(Some(Invalid::here(alloc, 1))),
        },
    }
}

#[cycle(value_fault)]
fn items_fault(
    alloc: Global,
    scope: &Scope<'_>,
    place: Place,
    items: &TreeList,
) -> Result<Option<Invalid>, AllocError>
    requires scope { IsScope scope.now }
    requires items { AreDocuments (list_data items.now.items) }
    ensures { IfOk result (λ fault. fault ≡ items_fault whole_table (context_of scope.now) place 0
        (list_data items.now.items)) }
{
    for (index, item) in items.iter().enumerate() {
        match value_fault(alloc, scope, place, item)? {
            Some(fault) => return Ok(Some(fault.below_index(alloc, index)?)),
            None => {}
        }
    }
    Ok(None)
}

#[cycle(value_fault)]
fn object_fault(
    alloc: Global,
    scope: &Scope<'_>,
    place: Place,
    names: Names,
    map: &TreeMap,
) -> Result<Option<Invalid>, AllocError>
    requires scope { IsScope scope.now }
    requires members { AreMembers (map_data map.now) }
    ensures { IfOk result (λ fault. fault ≡ or_then
        (broken_if (not (has_required (entries_of place) (map_data map.now))) 3)
        (or_then (broken_if (not (is_choice_at whole_table place (map_data map.now))) 6)
        (members_fault whole_table (context_of scope.now) (entries_of place) names []
        (map_data map.now)))) }
{
    if !has_required(place, map) {
        return Ok(Some(Invalid::here(alloc, 3)));
    }
    if !is_choice_at(place, map) {
        return Ok(Some(Invalid::here(alloc, 6)));
    }
    members_fault(alloc, scope, place, names, map)
}

#[cycle(value_fault)]
fn members_fault(
    alloc: Global,
    scope: &Scope<'_>,
    place: Place,
    names: Names,
    map: &TreeMap,
) -> Result<Option<Invalid>, AllocError>
    requires scope { IsScope scope.now }
    requires members { AreMembers (map_data map.now) }
    ensures { IfOk result (λ fault. fault ≡ members_fault whole_table (context_of scope.now)
        (entries_of place) names [] (map_data map.now)) }
{
    let mut earlier = LowerNames::new(alloc);
    let list = map.members();
    for member in list {
        let name = member.key.as_slice();
        let again = earlier.meet_of(alloc, names, name)?;
        match member_fault(
            alloc,
            scope,
            place_of(place, names, again, name),
            &member.value,
        )? {
            Some(fault) => return Ok(Some(fault.below(alloc, name)?)),
            None => {}
        }
    }
    Ok(None)
}

#[cycle(value_fault)]
fn member_fault(
    alloc: Global,
    scope: &Scope<'_>,
    place: Option<Place>,
    value: &Tree,
) -> Result<Option<Invalid>, AllocError>
    requires scope { IsScope scope.now }
    requires value { IsDocument (data_of value.now) }
    ensures { IfOk result (λ fault. fault ≡ for_some place (broken 2)
        (λ p. value_fault whole_table (context_of scope.now) p (data_of value.now))) }
{
    match place {
        Some(place) => value_fault(alloc, scope, place, value),
        None => Ok(Some(Invalid::here(alloc, 2))),
    }
}
