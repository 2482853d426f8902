//! Paths in their normal form.
ghost use Rattle.std.specs.Prelude.{◌≡◌, IfOk, OnOk};
ghost use Rattle.path_normal.specs.Path.{says_nothing, goes_up, is_open, normal_path_of, joined_segments, segments_of, LosesSegment, AddsSegment, EndsPath};

use crate::cut::cut;
use percent_encoding::percent_decode;
use std::alloc::{AllocError, Global};
use unit_types::Bytes;

/// The normal form of a raw path: `%XX` is decoded (RFC 3986, section 2.1), empty segments and `.` are dropped, `..`
/// drops the segment before it, at the top nothing (RFC 3986, section 5.2.4), and each segment that is left has a `/`
/// before it. A final `/` stays where the decoded path ended in `/`, `/.` or `/..`. Where no segment is left the path
/// is `/`.
///
/// A `%` without two hexadecimal digits stays as it is. Fails for want of memory alone.
pub fn normal_path(alloc: Global, raw: &[u8]) -> Result<Bytes, AllocError>
    ensures { IfOk result (λ path. path ≡ normal_path_of raw.now) }
{
    let mut decoded = Vec::with_capacity(alloc, raw.len())?;
    percent_decode(raw).append_to(&mut decoded)?;
    Ok(Bytes::of(joined_segments(alloc, &decoded)?))
}

/// The path that the segments of a decoded text say.
fn joined_segments(alloc: Global, decoded: &[u8]) -> Result<Vec<u8>, AllocError>
    ensures { IfOk result (λ path. path.items ≡ joined_segments (segments_of decoded.now)) }
{
    let mut path = Vec::with_capacity(alloc, decoded.len())?;
    let mut rest = Some(decoded);
    let mut is_open = false;
    while let Some(text) = rest {
        let (segment, behind) = cut(text, b'/');
        is_open = add_segment(&mut path, segment)?;
        rest = behind;
    }
    end_path(path, is_open)
}

/// Puts the final `/` behind the segments that are left where it stays, or where there are none.
fn end_path(mut path: Vec<u8>, stays: bool) -> Result<Vec<u8>, AllocError>
    ensures { IfOk result (λ whole. EndsPath stays path.items whole.items) }
{
    if !stays && !path.is_empty() {
        return Ok(path);
    }
    path.push(b'/')?;
    Ok(path)
}

/// Puts one more segment behind the path, and tells whether it is empty, `.` or `..`.
fn add_segment(path: &mut Vec<u8>, segment: &[u8]) -> Result<bool, AllocError>
    ensures ends { IfOk result (λ ends. ends ≡ is_open segment.now) }
    ensures adds { OnOk result (AddsSegment segment.now path.old.items path.new.items) }
{
    if says_nothing(segment) {
        return Ok(true);
    }
    if goes_up(segment) {
        drop_segment(path);
        return Ok(true);
    }
    path.push(b'/')?;
    path.extend_from_slice(segment)?;
    Ok(false)
}

/// Takes the last segment away, with the `/` before it.
fn drop_segment(path: &mut Vec<u8>)
    ensures { LosesSegment path.old.items path.new.items }
{
    while let Some(byte) = path.pop() {
        if byte == b'/' {
            return;
        }
    }
}

/// Whether the segment is empty or `.`.
fn says_nothing(segment: &[u8]) -> bool
    ensures { result ≡ says_nothing segment.now }
{
    segment.is_empty() || segment == b".".as_slice()
}

/// Whether the segment is `..`.
fn goes_up(segment: &[u8]) -> bool
    ensures { result ≡ goes_up segment.now }
{
    segment == b"..".as_slice()
}
