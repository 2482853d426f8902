//! What the passes of a valid document can name, and where they lead.
ghost use Rattle.std.specs.Prelude.{◌≡◌, ◌++◌, IfOk, map, codes};
ghost use Rattle.conf_tree.specs.Document.{IsDocument};
ghost use Rattle.conf_tree.specs.View.{data_of, map_data};
ghost use Rattle.conf_validate.specs.Configuration.{action_goal_among, application_destinations, members_in, members_list, plain_goal_among};
ghost use Rattle.unit_types.specs.Names.{AscendsBy};

use crate::conf::{Action, Destination, Goal, Listener, Step};
use crate::members::member_of;
use crate::references::has_dollar;
use crate::search::goal_at;
use conf_tree::{Tree, TreeMap};
use std::alloc::{AllocError, Global};
use unit_types::{Bytes, SliceBytes};

// ---- what passes can name

/// Each application by its index.
pub(crate) fn application_destinations(
    alloc: Global,
    document: &Tree,
) -> Result<Vec<Destination>, AllocError>
    requires { IsDocument (data_of document.now) }
    ensures { IfOk result (λ list. list.items
        ≡ application_destinations 0 (members_in (codes "applications") (data_of document.now))) }
{
    match member_of(document, b"applications") {
        Some(Tree::Object(map)) => destinations_in(alloc, map),
        _ => Ok(Vec::new(alloc)),
    }
}

fn destinations_in(alloc: Global, members: &TreeMap) -> Result<Vec<Destination>, AllocError>
    ensures { IfOk result
        (λ list. list.items ≡ application_destinations 0 (members_list (map_data members.now))) }
{
    let list = members.members();
    let mut destinations = Vec::with_capacity(alloc, list.len())?;
    for (index, member) in list.iter().enumerate() {
        destinations.push(Destination {
            name: joined(alloc, b"applications/", member.key.as_slice())?,
            goal: Goal::Application(index),
        })?;
    }
    Ok(destinations)
}

/// One text behind another.
pub(crate) fn joined(alloc: Global, first: &[u8], second: &[u8]) -> Result<Bytes, AllocError>
    ensures { IfOk result (λ text. text ≡ first.now ++ second.now) }
{
    let mut text = Vec::from_slice(alloc, first)?;
    text.extend_from_slice(second)?;
    Ok(Bytes::of(text))
}

// ---- where passes lead

/// Where the pass of each listener leads, if its text has no `$`.
pub(crate) fn goals_of_listeners(
    alloc: Global,
    listeners: &[Listener],
    destinations: &[Destination],
) -> Result<Vec<Option<Goal>>, AllocError>
    requires { AscendsBy (λ d. d.name) destinations.now }
    ensures { IfOk result
        (λ goals. goals.items ≡ map (λ l. plain_goal_among destinations.now l.pass) listeners.now) }
{
    let mut goals = Vec::with_capacity(alloc, listeners.len())?;
    for listener in listeners {
        goals.push(plain_goal_among(destinations, listener.pass.as_slice()))?;
    }
    Ok(goals)
}

/// Where the pass of each step leads, if it has one without `$`.
pub(crate) fn goals_of_steps(
    alloc: Global,
    steps: &[Step],
    destinations: &[Destination],
) -> Result<Vec<Option<Goal>>, AllocError>
    requires { AscendsBy (λ d. d.name) destinations.now }
    ensures { IfOk result
        (λ goals. goals.items ≡ map (λ s. action_goal_among destinations.now s.action) steps.now) }
{
    let mut goals = Vec::with_capacity(alloc, steps.len())?;
    for step in steps {
        goals.push(action_goal_among(destinations, &step.action))?;
    }
    Ok(goals)
}

fn action_goal_among(destinations: &[Destination], action: &Action) -> Option<Goal>
    requires { AscendsBy (λ d. d.name) destinations.now }
    ensures { result ≡ action_goal_among destinations.now action.now }
{
    match action {
        Action::Pass(text) => plain_goal_among(destinations, text.as_slice()),
        Action::Return(_) => None,
    }
}

fn plain_goal_among(destinations: &[Destination], text: &[u8]) -> Option<Goal>
    requires { AscendsBy (λ d. d.name) destinations.now }
    ensures { result ≡ plain_goal_among destinations.now text.now }
{
    if has_dollar(text) {
        None
    } else {
        goal_at(destinations, SliceBytes::of(text))
    }
}
