//! Empty lines and the head block behind them (RFC 9112, sections 2.1 and 2.2).
ghost use Rattle.std.specs.Prelude.{◌≡◌, ◌+◌, ◌<◌, ◌≤◌, [], ◌∷◌, length, take, drop, position, IfSome, IfNone};
ghost use Rattle.http_front.specs.Front as spec;
ghost use Rattle.http_front.specs.Head.{is_line_feed, lines_in};
ghost use Rattle.http_front.specs.Checks.{has_too_many_lines};

use memchr::memchr;
use unit_types::FIELD_LIMIT;

/// How many bytes the empty lines at the front have.
pub(crate) fn blank_len(bytes: &[u8]) -> usize
    ensures value { result ≡ spec.blank_len bytes.now }
    ensures fits { result ≤ length bytes.now }
{
    let mut at = 0;
    while at < bytes.len() {
        let step = empty_line_len(&bytes[at..]);
        if step == 0 {
            return at;
        }
        at += step;
    }
    at
}

// how many bytes the empty line at the front has, or 0 where there is none
fn empty_line_len(bytes: &[u8]) -> usize
    ensures fits { result ≤ length bytes.now }
    ensures none { result ≡ 0 → spec.blank_len bytes.now ≡ 0 }
    ensures some { spec.blank_len bytes.now ≡ result + spec.blank_len (drop result bytes.now) }
{
    if bytes.starts_with(b"\n") {
        1
    } else if bytes.starts_with(b"\r\n") {
        2
    } else {
        0
    }
}

/// How many bytes the head block at the front has, which runs to the end of the first empty line, if it is whole.
pub(crate) fn block_len(bytes: &[u8]) -> Option<usize>
    ensures value { result ≡ spec.block_len bytes.now }
    ensures fits { IfSome result (λ n. n ≤ length bytes.now) }
{
    let mut at = 0;
    while let Some(len) = line_len(&bytes[at..]) {
        let line = &bytes[at..at + len];
        at += len + 1;
        if is_empty_line(line) {
            return Some(at);
        }
    }
    None
}

/// How many bytes stand before the first LF, if there is one.
pub(crate) fn line_len(bytes: &[u8]) -> Option<usize>
    ensures within { IfSome result (λ n. n < length bytes.now) }
    ensures first { IfSome result
        (λ n. lines_in bytes.now ≡ take n bytes.now ∷ lines_in (drop (n + 1) bytes.now)) }
    ensures none { IfNone result (lines_in bytes.now ≡ []) }
{
    feed_place(bytes)
}

/// Where the first LF stands, if there is one.
pub(crate) fn feed_place(bytes: &[u8]) -> Option<usize>
    ensures { result ≡ position is_line_feed bytes.now }
{
    // a few bytes are gone through faster than a search is begun
    if bytes.len() < 8 {
        bytes.iter().position(|b| *b == b'\n')
    } else {
        memchr(b'\n', bytes)
    }
}

/// Whether a line, which has lost its LF, is empty.
pub(crate) fn is_empty_line(line: &[u8]) -> bool
    ensures { result ≡ spec.is_empty_line line.now }
{
    line.is_empty() || line == b"\r".as_slice()
}

/// Whether more lines than `FIELD_LIMIT` stand between the request line and the empty line.
pub(crate) fn has_too_many_lines(block: &[u8]) -> bool
    ensures { result ≡ has_too_many_lines block.now }
{
    count_feeds(block) > FIELD_LIMIT + 2
}

fn count_feeds(bytes: &[u8]) -> usize
    ensures { result ≡ length (lines_in bytes.now) }
{
    let mut at = 0;
    let mut lines = 0;
    while let Some(len) = line_len(&bytes[at..]) {
        at += len + 1;
        lines += 1;
    }
    lines
}
