//! The members of the objects whose names are fixed.
ghost use Rattle.std.specs.Prelude.{◌≡◌, ◌||◌, map, not};
ghost use Rattle.conf_tree.specs.Document.{AreMembers};
ghost use Rattle.conf_tree.specs.View.{map_data};
ghost use Rattle.conf_validate.specs.Choices.{has};
ghost use Rattle.conf_validate.specs.Entries.{entry_of};
ghost use Rattle.conf_validate.specs.Table.{entries_of, place_among};
ghost use Rattle.conf_validate.specs.Valid.{has_required};

use crate::members::has;
use crate::place::Place;
use conf_tree::TreeMap;

/// A member: its name, the place of its value, and whether it has to be there.
type Entry = (&'static [u8], Place, bool);

const WHOLE: [Entry; 5] = [
    (b"listeners", Place::Listeners, false),
    (b"routes", Place::Routes, false),
    (b"applications", Place::Applications, false),
    (b"settings", Place::Settings, false),
    (b"access_log", Place::AccessLog, false),
];

const LISTENER: [Entry; 1] = [(b"pass", Place::Pass, true)];

const STEP: [Entry; 2] = [
    (b"match", Place::Match, false),
    (b"action", Place::Action, true),
];

const MATCH: [Entry; 10] = [
    (b"uri", Place::Texts, false),
    (b"host", Place::Texts, false),
    (b"method", Place::Texts, false),
    (b"scheme", Place::Texts, false),
    (b"query", Place::Texts, false),
    (b"source", Place::Addresses, false),
    (b"destination", Place::Addresses, false),
    (b"arguments", Place::NamedTexts, false),
    (b"cookies", Place::NamedTexts, false),
    (b"headers", Place::NamedTexts, false),
];

const ACTION: [Entry; 5] = [
    (b"pass", Place::Pass, false),
    (b"return", Place::Return, false),
    (b"location", Place::Location, false),
    (b"rewrite", Place::Rewrite, false),
    (b"response_headers", Place::ResponseHeaders, false),
];

const APPLICATION: [Entry; 3] = [
    (b"type", Place::Type, true),
    (b"executable", Place::Executable, true),
    (b"limits", Place::Limits, false),
];

const LIMITS: [Entry; 1] = [(b"timeout", Place::Timeout, false)];

const SETTINGS: [Entry; 1] = [(b"http", Place::Http, false)];

const HTTP: [Entry; 1] = [(b"max_body_size", Place::MaxBodySize, false)];

const ACCESS_LOG: [Entry; 1] = [(b"format", Place::Format, false)];

/// The members of an object at this place, where their names are fixed.
#[tactic(auto, unfolding(crate::specs::Table::entries_of))]
fn entries(place: Place) -> &'static [Entry]
    ensures { map entry_of result.now ≡ entries_of place }
{
    match place {
        Place::Whole => &WHOLE,
        Place::Listener => &LISTENER,
        Place::Step => &STEP,
        Place::Match => &MATCH,
        Place::Action => &ACTION,
        Place::Application => &APPLICATION,
        Place::Limits => &LIMITS,
        Place::Settings => &SETTINGS,
        Place::Http => &HTTP,
        Place::AccessLog => &ACCESS_LOG,
        _ => &[],
    }
}

/// The place of the member of this name, where the names of the members are fixed and this is one.
pub(crate) fn member_place(place: Place, name: &[u8]) -> Option<Place>
    ensures { result ≡ place_among name.now (entries_of place) }
{
    for (known, value, _) in entries(place) {
        if name == *known {
            return Some(*value);
        }
    }
    None
}

/// Rule 3: whether each member is there that has to be.
pub(crate) fn has_required(place: Place, map: &TreeMap) -> bool
    requires { AreMembers (map_data map.now) }
    ensures { result ≡ has_required (entries_of place) (map_data map.now) }
{
    for entry in entries(place) {
        if !is_met(entry, map) {
            return false;
        }
    }
    true
}

/// Whether the member is there if it has to be.
fn is_met(entry: &Entry, map: &TreeMap) -> bool
    requires { AreMembers (map_data map.now) }
    ensures { result ≡ (not entry.now.2 || has entry.now.0.now (map_data map.now)) }
{
    !entry.2 || has(map, entry.0)
}
