//! The steps of a valid document's routes.
ghost use Rattle.std.specs.Prelude.{◌≡◌, ◌++◌, ◌∷◌, [], codes, IfOk, IfSome, OnOk, length, map, option_map, List};
ghost use Rattle.std.specs.List.{flat_map};
ghost use Rattle.conf_tree.specs.Document.{AreDocuments, AreMembers, IsDocument};
ghost use Rattle.conf_tree.specs.View.{data_of, list_data, map_data};
ghost use Rattle.conf_validate.specs.Configuration.{action_of, changes_in, changes_list, destinations_of_routes, items_list, items_of, list_in, members_list, number_in, part, route_destinations, status_of, step_of, steps_of, steps_of_routes, text_in, values_list};
ghost use Rattle.conf_validate.specs.declared.conf.Goal.TheVariants as goal;
ghost use Rattle.serde_json.specs.Find.{get};

use crate::conf::{Action, Changes, Destination, Goal, Step};
use crate::destinations::joined;
use crate::members::member_of;
use crate::patterns::match_of;
use crate::values::{number_in, part, text_in};
use conf_tree::{Member, Tree, TreeList, TreeMap};
use std::alloc::{AllocError, Global};
use unit_types::Bytes;

/// The steps of all routes by their index. Behind the destinations come those of the routes.
pub(crate) fn steps_of(
    alloc: Global,
    document: &Tree,
    destinations: &mut Vec<Destination>,
) -> Result<Vec<Step>, AllocError>
    requires { IsDocument (data_of document.now) }
    ensures steps { IfOk result (λ steps. steps.items ≡ steps_of (data_of document.now)) }
    ensures destinations { IfOk result (λ _. destinations.new.items
        ≡ destinations.old.items ++ list_in destinations_of_routes
        (get (codes "routes") (data_of document.now))) }
{
    match member_of(document, b"routes") {
        Some(Tree::List(items)) => one_route(alloc, items, destinations),
        Some(Tree::Object(map)) => named_routes(alloc, map, destinations),
        _ => Ok(Vec::new(alloc)),
    }
}

fn one_route(
    alloc: Global,
    items: &TreeList,
    destinations: &mut Vec<Destination>,
) -> Result<Vec<Step>, AllocError>
    requires { AreDocuments (list_data items.now.items) }
    ensures steps { IfOk result
        (λ steps. steps.items ≡ map step_of (items_list (list_data items.now.items))) }
    ensures destinations { IfOk result (λ _. destinations.new.items
        ≡ destinations.old.items ++ record {
          name = codes "routes";
          goal = goal.Route 0
              (length (items_list (list_data items.now.items)));
        } ∷ []) }
{
    let mut steps = Vec::new(alloc);
    push_items(alloc, &mut steps, items)?;
    destinations.push(Destination {
        name: Bytes::copy_of(alloc, b"routes")?,
        goal: Goal::Route {
            first: 0,
            count: steps.len(),
        },
    })?;
    Ok(steps)
}

fn named_routes(
    alloc: Global,
    members: &TreeMap,
    destinations: &mut Vec<Destination>,
) -> Result<Vec<Step>, AllocError>
    requires { AreMembers (map_data members.now) }
    ensures steps { IfOk result (λ steps. steps.items
        ≡ map step_of (flat_map items_of (values_list (map_data members.now)))) }
    ensures destinations { IfOk result (λ _. destinations.new.items
        ≡ destinations.old.items ++ route_destinations 0 (members_list (map_data members.now))) }
{
    let mut steps = Vec::new(alloc);
    let list = members.members();
    for member in list {
        push_named(alloc, &mut steps, destinations, member)?;
    }
    Ok(steps)
}

/// The steps of one more route, and its destination.
fn push_named(
    alloc: Global,
    steps: &mut Vec<Step>,
    destinations: &mut Vec<Destination>,
    route: &Member,
) -> Result<(), AllocError>
    requires { IsDocument (data_of route.now.value) }
    ensures steps { OnOk result
        (steps.new.items ≡ steps.old.items ++ map step_of (items_of (data_of route.now.value))) }
    ensures destinations { OnOk result (destinations.new.items
        ≡ destinations.old.items ++ record {
          name = codes "routes/" ++ route.now.key;
          goal = goal.Route (length steps.old.items) (length (items_of (data_of route.now.value)));
        }
        ∷ []) }
{
    let first = steps.len();
    push_route(alloc, steps, &route.value)?;
    let count = steps.len() - first;
    destinations.push(Destination {
        name: joined(alloc, b"routes/", route.key.as_slice())?,
        goal: Goal::Route { first, count },
    })?;
    Ok(())
}

fn push_route(alloc: Global, steps: &mut Vec<Step>, route: &Tree) -> Result<(), AllocError>
    requires { IsDocument (data_of route.now) }
    ensures { OnOk result
        (steps.new.items ≡ steps.old.items ++ map step_of (items_of (data_of route.now))) }
{
    match route {
        Tree::List(items) => push_items(alloc, steps, items),
        _ => Ok(()),
    }
}

fn push_items(alloc: Global, steps: &mut Vec<Step>, items: &TreeList) -> Result<(), AllocError>
    requires { AreDocuments (list_data items.now.items) }
    ensures { OnOk result (steps.new.items ≡ steps.old.items ++ map step_of
        (items_list (list_data items.now.items))) }
{
    for item in items {
        steps.push(step_of(alloc, item)?)?;
    }
    Ok(())
}

// ---- one step

fn step_of(alloc: Global, tree: &Tree) -> Result<Step, AllocError>
    requires { IsDocument (data_of tree.now) }
    ensures { IfOk result (λ step. step ≡ step_of (data_of tree.now)) }
{
    let action = member_of(tree, b"action");
    Ok(Step {
        conditions: match_of(alloc, member_of(tree, b"match"))?,
        action: action_of(alloc, action)?,
        location: text_in(alloc, part(action, b"location"))?,
        rewrite: text_in(alloc, part(action, b"rewrite"))?,
        changes: changes_in(alloc, part(action, b"response_headers"))?,
    })
}

fn action_of(alloc: Global, value: Option<&Tree>) -> Result<Action, AllocError>
    requires { IfSome value (λ t. IsDocument (data_of t.now)) }
    ensures { IfOk result
        (λ action. action ≡ action_of (option_map (λ t. data_of t.now) value.entry)) }
{
    match text_in(alloc, part(value, b"pass"))? {
        Some(pass) => Ok(Action::Pass(pass)),
        None => Ok(Action::Return(status_of(number_in(part(value, b"return"))))),
    }
}

/// The status, 0 where there is none of at most three digits.
fn status_of(number: Option<u64>) -> u16
    ensures { result ≡ status_of number }
{
    match number {
        Some(status) => { if status <= 999 { status as u16 } else { 0 } }
        None => 0,
    }
}

fn changes_in(alloc: Global, value: Option<&Tree>) -> Result<Changes, AllocError>
    requires { IfSome value (λ t. IsDocument (data_of t.now)) }
    ensures { IfOk result
        (λ changes. changes ≡ changes_in (option_map (λ t. data_of t.now) value.entry)) }
{
    match value {
        Some(Tree::Object(map)) => changes_of(alloc, map),
        _ => Ok(Changes::of(Vec::new(alloc))),
    }
}

fn changes_of(alloc: Global, members: &TreeMap) -> Result<Changes, AllocError>
    ensures { IfOk result (λ changes. changes ≡ changes_list (map_data members.now)) }
{
    Ok(Changes::of(changes_list(alloc, members)?))
}

fn changes_list(alloc: Global, members: &TreeMap) -> Result<Vec<(Bytes, Option<Bytes>)>, AllocError>
    ensures { IfOk result (λ changes. changes.items ≡ changes_list (map_data members.now)) }
{
    let list = members.members();
    let mut changes = Vec::with_capacity(alloc, list.len())?;
    for member in list {
        let text = text_in(alloc, Some(&member.value))?;
        changes.push((Bytes::copy_of(alloc, member.key.as_slice())?, text))?;
    }
    Ok(changes)
}
