//! Whether a request meets the conditions of a step. No call takes memory.
ghost use Rattle.std.specs.Prelude.{◌≡◌, codes};
ghost use Rattle.pattern_addr.specs.AddressPattern as address;
ghost use Rattle.pattern_text.specs.TextPattern.{list_matches, list_matches_ignoring_case};
ghost use Rattle.path_normal.specs.Pairs.{arguments_of, cookies_of};
ghost use Rattle.path_normal.specs.PairsLeft.{pair_text};
ghost use Rattle.route_match.specs.Matches.{holds_or_absent, value_holds, some_value_holds, set_holds, some_set_holds, target_matches, method_matches, addresses_match, names_match, request_matches};
ghost use Rattle.route_match.specs.Source.{values_of, test_of};

use conf_validate::{Match, NamedPatterns, NamedSets};
use path_normal::{Pair, arguments_in, cookies_in};
use pattern_addr::AddrPatterns;
use pattern_text::TextPatterns;
use unit_types::{Addr, Field, Fields, Request};

/// Where the values of names come from.
#[derive(Clone, Copy, Drop)]
enum Source<'a> {
    /// The arguments of a query.
    Arguments(&'a [u8]),
    /// The cookies of some fields.
    Cookies(&'a Fields),
    /// The fields themselves.
    Headers(&'a [Field]),
}

/// Whether each member that is there holds of the request.
///
/// `uri` is compared with the path, `query` with the query, `source` with the client's address and `destination` with
/// the address at which the connection was accepted. Of `host`, `method` and `scheme`, which is `http`, the case doesn't
/// count. Of `arguments`, `cookies` and `headers` some object holds, in which every name has some value that its patterns
/// match; the case of the values of `headers` doesn't count.
pub fn request_matches(conditions: &Match, request: &Request) -> bool
    ensures { result ≡ request_matches conditions.now request.now }
{
    target_matches(conditions, request)
        && method_matches(conditions, request)
        && addresses_match(conditions, request)
        && names_match(conditions, request)
}

fn target_matches(conditions: &Match, request: &Request) -> bool
    ensures { result ≡ target_matches conditions.now request.now }
{
    text_holds(&conditions.uri, request.path.as_slice())
        && lower_text_holds(&conditions.host, request.host.as_slice())
        && text_holds(&conditions.query, request.query.as_slice())
}

fn method_matches(conditions: &Match, request: &Request) -> bool
    ensures { result ≡ method_matches conditions.now request.now }
{
    lower_text_holds(&conditions.method, request.method.as_slice())
        && lower_text_holds(&conditions.scheme, b"http")
}

fn addresses_match(conditions: &Match, request: &Request) -> bool
    ensures { result ≡ addresses_match conditions.now request.now }
{
    address_holds(&conditions.source, request.from)
        && address_holds(&conditions.destination, request.to)
}

fn names_match(conditions: &Match, request: &Request) -> bool
    ensures { result ≡ names_match conditions.now request.now }
{
    names_hold(
        &conditions.arguments,
        Source::Arguments(request.query.as_slice()),
    ) && names_hold(&conditions.cookies, Source::Cookies(&request.fields))
        && names_hold(
            &conditions.headers,
            Source::Headers(request.fields.as_slice()),
        )
}

fn text_holds(patterns: &Option<TextPatterns>, text: &[u8]) -> bool
    ensures { result ≡ holds_or_absent (λ asked. list_matches asked text.now) patterns.now }
{
    match patterns {
        Some(patterns) => patterns.matches(text),
        None => true,
    }
}

fn lower_text_holds(patterns: &Option<TextPatterns>, text: &[u8]) -> bool
    ensures { result
        ≡ holds_or_absent (λ asked. list_matches_ignoring_case asked text.now) patterns.now }
{
    match patterns {
        Some(patterns) => patterns.matches_ignoring_case(text),
        None => true,
    }
}

fn address_holds(patterns: &Option<AddrPatterns>, addr: Addr) -> bool
    ensures { result ≡ holds_or_absent (λ asked. address.list_matches asked addr) patterns.now }
{
    match patterns {
        Some(patterns) => patterns.matches(addr),
        None => true,
    }
}

/// Whether some set of names holds.
fn names_hold(sets: &Option<NamedSets>, source: Source<'_>) -> bool
    ensures { result ≡ holds_or_absent (some_set_holds (test_of source.entry)
        (values_of source.entry)) sets.now }
{
    match sets {
        Some(sets) => some_set_holds(sets, source),
        None => true,
    }
}

fn some_set_holds(sets: &NamedSets, source: Source<'_>) -> bool
    ensures { result ≡ some_set_holds (test_of source.entry) (values_of source.entry) sets.now }
{
    for set in sets.as_slice() {
        if set_holds(set.as_slice(), source) {
            return true;
        }
    }
    false
}

fn set_holds(set: &[NamedPatterns], source: Source<'_>) -> bool
    ensures { result ≡ set_holds (test_of source.entry) (values_of source.entry) set.now }
{
    for named in set {
        if !some_value_holds(named, source) {
            return false;
        }
    }
    true
}

fn some_value_holds(named: &NamedPatterns, source: Source<'_>) -> bool
    ensures { result ≡ some_value_holds (test_of source.entry) (values_of source.entry) named.now }
{
    match source {
        Source::Arguments(query) => some_argument_holds(named, query),
        Source::Cookies(fields) => some_cookie_holds(named, fields),
        Source::Headers(fields) => some_field_holds(named, fields),
    }
}

fn some_argument_holds(named: &NamedPatterns, query: &[u8]) -> bool
    ensures { result ≡ some_value_holds list_matches (arguments_of query.now) named.now }
{
    for pair in arguments_in(query) {
        if pair_holds(named, pair) {
            return true;
        }
    }
    false
}

/// Whether an argument or a cookie has this name, and a value that the patterns match.
fn pair_holds(named: &NamedPatterns, pair: Pair<'_>) -> bool
    ensures { result ≡ value_holds list_matches named.now (pair_text pair.entry) }
{
    pair.name.is(named.name.as_slice()) && named.patterns.matches_bytes(pair.value)
}

fn some_cookie_holds(named: &NamedPatterns, fields: &Fields) -> bool
    ensures { result ≡ some_value_holds list_matches (cookies_of fields.now) named.now }
{
    for cookie in cookies_in(fields) {
        if pair_holds(named, cookie) {
            return true;
        }
    }
    false
}

/// Whether a field has this name, and a value that the patterns match.
fn field_holds(named: &NamedPatterns, field: &Field) -> bool
    ensures { result ≡ value_holds list_matches_ignoring_case named.now field.now }
{
    field.name.as_slice() == named.name.as_slice()
        && named.patterns.matches_ignoring_case(field.value.as_slice())
}

fn some_field_holds(named: &NamedPatterns, fields: &[Field]) -> bool
    ensures { result ≡ some_value_holds list_matches_ignoring_case fields.now named.now }
{
    for field in fields {
        if field_holds(named, field) {
            return true;
        }
    }
    false
}
