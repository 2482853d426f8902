//! Searches by name.
ghost use Rattle.std.specs.Iterator.{AlwaysYields, IsFinite};
ghost use Rattle.std.specs.Prelude.{◌≡◌, List, ℕ};
ghost use Rattle.std.specs.Cmp.Lexicographic.{slice_cmp};
ghost use Rattle.std.specs.Ordering.{nat_cmp};
ghost use Rattle.conf_validate.specs.Configuration.{goal_named, listener_index};
ghost use Rattle.unit_types.specs.Names.{AscendsBy};

use crate::conf::{Destination, Goal, Listener};
use std::cmp::Ordering;

/// The index of the listener whose name has these bytes.
pub(crate) fn listener_at<I: Iterator<Item = u8> + Copy>(
    listeners: &[Listener],
    name: I,
) -> Option<usize>
    requires can { I.can_next name }
    requires ends { IsFinite (I.remaining name) }
    requires ascends { AscendsBy (λ l. l.name) listeners.now }
    ensures { (bytes : List ℕ) → AlwaysYields I.next_gives (λ b. b) name bytes
        → result ≡ listener_index bytes listeners.now }
{
    listeners
        .binary_search_by(
            |listener: &Listener| -> Ordering
                requires can { I.can_next name }
                requires ends { IsFinite (I.remaining name) }
                ensures { (bytes : List ℕ) → AlwaysYields I.next_gives (λ b. b) name bytes
                    → result ≡ slice_cmp nat_cmp listener.now.name bytes }
            { compare(listener.name.as_slice(), name) },
        )
        .ok()
}

/// Where the destination leads whose name has these bytes.
pub(crate) fn goal_at<I: Iterator<Item = u8> + Copy>(
    destinations: &[Destination],
    name: I,
) -> Option<Goal>
    requires can { I.can_next name }
    requires ends { IsFinite (I.remaining name) }
    requires ascends { AscendsBy (λ d. d.name) destinations.now }
    ensures { (bytes : List ℕ) → AlwaysYields I.next_gives (λ b. b) name bytes
        → result ≡ goal_named bytes destinations.now }
{
    match destinations.binary_search_by(
        |destination: &Destination| -> Ordering
            requires can { I.can_next name }
            requires ends { IsFinite (I.remaining name) }
            ensures { (bytes : List ℕ) → AlwaysYields I.next_gives (λ b. b) name bytes
                → result ≡ slice_cmp nat_cmp destination.now.name bytes }
        { compare(destination.name.as_slice(), name) },
    ) {
        Ok(index) => Some(destinations[index].goal),
        Err(_) => None,
    }
}

/// How a name compares with these bytes.
fn compare<I: Iterator<Item = u8> + Copy>(name: &[u8], mut text: I) -> Ordering
    requires can { I.can_next text }
    requires ends { IsFinite (I.remaining text) }
    ensures { (bytes : List ℕ) → AlwaysYields I.next_gives (λ b. b) text bytes
        → result ≡ slice_cmp nat_cmp name.now bytes }
{
    for byte in name {
        let Some(other) = text.next() else {
            return Ordering::Greater;
        };
        match byte.cmp(&other) {
            Ordering::Less => return Ordering::Less,
            Ordering::Equal => {}
            Ordering::Greater => return Ordering::Greater,
        }
    }
    match text.next() {
        Some(_) => Ordering::Less,
        None => Ordering::Equal,
    }
}
