//! The parts of a request target (RFC 9112, section 3.2; RFC 3986, section 3).
ghost use Rattle.std.specs.Prelude.{◌≡◌, ◌<◌, length, position, drop, IfSome};
ghost use Rattle.std.specs.List.{before_first, after_first, position_or_len};
ghost use Rattle.http_front.specs.Target as spec;

use crate::slices::{behind, first_bytes};
use percent_encoding::percent_decode;

/// Whether the target is refused: it has a byte that is no visible ASCII, is of no form that is served, or has a path with
/// a broken escape or a NUL.
pub(crate) fn is_faulty_target(target: &[u8]) -> bool
    ensures { result ≡ spec.is_faulty_target target.now }
{
    !has_target_bytes(target)
        || !(begins_with_slash(target) || has_scheme(target))
        || is_faulty_path(raw_path_of(target))
}

fn has_target_bytes(target: &[u8]) -> bool
    ensures { result ≡ spec.has_target_bytes target.now }
{
    target.iter().all(|b| is_target_byte(*b))
}

fn is_target_byte(b: u8) -> bool
    ensures { result ≡ spec.is_target_byte b }
{
    b > b' ' && b < 0x7f
}

fn begins_with_slash(text: &[u8]) -> bool
    ensures { result ≡ spec.begins_with_slash text.now }
{
    match text {
        [first, ..] => *first == b'/',
        [] => false,
    }
}

fn is_faulty_path(path: &[u8]) -> bool
    ensures { result ≡ spec.is_faulty_path path.now }
{
    has_broken_escape(path) || hides_nul(path)
}

fn has_broken_escape(path: &[u8]) -> bool
    ensures { result ≡ spec.has_broken_escape path.now }
{
    let mut rest = path;
    while let [first, tail @ ..] = rest {
        if is_broken_at(*first, tail) {
            return true;
        }
        rest = tail;
    }
    false
}

fn is_broken_at(b: u8, tail: &[u8]) -> bool
    ensures { result ≡ spec.is_broken_at b tail.now }
{
    b == b'%' && !begins_with_digits(tail)
}

fn begins_with_digits(text: &[u8]) -> bool
    ensures { result ≡ spec.begins_with_digits text.now }
{
    match text {
        [a, b, ..] => a.is_ascii_hexdigit() && b.is_ascii_hexdigit(),
        _ => false,
    }
}

fn hides_nul(path: &[u8]) -> bool
    ensures { result ≡ spec.hides_nul path.now }
{
    percent_decode(path).any(|b| b == 0)
}

/// Whether the target is in absolute-form.
pub(crate) fn has_scheme(target: &[u8]) -> bool
    ensures { result ≡ spec.has_scheme target.now }
{
    first_bytes(target, 7).eq_ignore_ascii_case(b"http://")
}

/// The authority of a target in absolute-form.
pub(crate) fn authority_of(target: &[u8]) -> &[u8]
    ensures { result.now ≡ spec.authority_of target.now }
{
    before_end(behind(target, 7))
}

/// The path of a target as it came, behind scheme and authority and without query and fragment.
pub fn raw_path_of(target: &[u8]) -> &[u8]
    ensures { result.now ≡ spec.raw_path_of target.now }
{
    before_question(resource_of(target))
}

/// The query of a target, or nothing.
pub(crate) fn query_of(target: &[u8]) -> &[u8]
    ensures { result.now ≡ spec.query_of target.now }
{
    behind_question(resource_of(target))
}

fn resource_of(target: &[u8]) -> &[u8]
    ensures { result.now ≡ spec.resource_of target.now }
{
    without_fragment(local_part(target))
}

fn local_part(target: &[u8]) -> &[u8]
    ensures { result.now ≡ spec.local_part target.now }
{
    if has_scheme(target) {
        from_end(behind(target, 7))
    } else {
        target
    }
}

// what stands before the end of an authority
fn before_end(text: &[u8]) -> &[u8]
    ensures { result.now ≡ before_first spec.ends_authority text.now }
{
    match end_place(text) {
        Some(at) => &text[..at],
        None => text,
    }
}

// what stands behind an authority
fn from_end(text: &[u8]) -> &[u8]
    ensures { result.now ≡ drop (position_or_len spec.ends_authority text.now) text.now }
{
    match end_place(text) {
        Some(at) => &text[at..],
        None => b"".as_slice(),
    }
}

// where an authority ends
fn end_place(text: &[u8]) -> Option<usize>
    ensures place { result ≡ position spec.ends_authority text.now }
    ensures within { IfSome result (λ at. at < length text.now) }
{
    text.iter().position(|b| ends_authority(*b))
}

fn ends_authority(b: u8) -> bool
    ensures { result ≡ spec.ends_authority b }
{
    b == b'/' || b == b'?' || b == b'#'
}

fn without_fragment(text: &[u8]) -> &[u8]
    ensures { result.now ≡ spec.without_fragment text.now }
{
    match hash_place(text) {
        Some(at) => &text[..at],
        None => text,
    }
}

// where the first `#` stands
fn hash_place(text: &[u8]) -> Option<usize>
    ensures place { result ≡ position spec.is_hash text.now }
    ensures within { IfSome result (λ at. at < length text.now) }
{
    text.iter().position(|b| *b == b'#')
}

fn before_question(text: &[u8]) -> &[u8]
    ensures { result.now ≡ before_first spec.is_question text.now }
{
    match question_place(text) {
        Some(at) => &text[..at],
        None => text,
    }
}

fn behind_question(text: &[u8]) -> &[u8]
    ensures { result.now ≡ after_first spec.is_question text.now }
{
    match question_place(text) {
        Some(at) => &text[at + 1..],
        None => b"".as_slice(),
    }
}

// where the first question mark stands
fn question_place(text: &[u8]) -> Option<usize>
    ensures place { result ≡ position spec.is_question text.now }
    ensures within { IfSome result (λ at. at < length text.now) }
{
    text.iter().position(|b| *b == b'?')
}
