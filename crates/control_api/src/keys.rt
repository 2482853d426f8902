//! The keys that a target names.
ghost use Rattle.std.specs.Prelude.{◌≡◌, IfOk, MatchOption, map, option_map, true, false};
ghost use Rattle.control_api.specs.Keys.{are_texts, decoded_pieces, keys_behind, keys_in, keys_of, without_final_slash};
ghost use Rattle.percent_encoding.specs.Percent.{percent_decode};
ghost use Rattle.std.specs.Str.{is_utf8};

use conf_tree::Path;
use http_front::raw_path_of;
use percent_encoding::percent_decode;
use std::alloc::{AllocError, Global};
use unit_types::{Bytes, cut};

/// The keys of a target: those behind `/config`, each decoded, without a `/` at the end. None exactly where its path is
/// another one.
///
/// Fails for want of memory alone.
pub(crate) fn keys_of(alloc: Global, target: &[u8]) -> Result<Option<Vec<Bytes>>, AllocError>
    ensures { IfOk result (λ keys. option_map (λ k. k.items) keys ≡ keys_of target.now) }
{
    keys_in(alloc, without_final_slash(raw_path_of(target)))
}

/// The path without one `/` at its end.
pub fn without_final_slash(path: &[u8]) -> &[u8]
    ensures { result.now ≡ without_final_slash path.now }
{
    match path {
        [front @ .., b'/'] => front,
        _ => path,
    }
}

fn keys_in(alloc: Global, path: &[u8]) -> Result<Option<Vec<Bytes>>, AllocError>
    ensures { IfOk result (λ keys. option_map (λ k. k.items) keys ≡ keys_in path.now) }
{
    if path.starts_with(b"/config") {
        keys_behind(alloc, &path[7..])
    } else {
        Ok(None)
    }
}

fn keys_behind(alloc: Global, text: &[u8]) -> Result<Option<Vec<Bytes>>, AllocError>
    ensures { IfOk result (λ keys. option_map (λ k. k.items) keys ≡ keys_behind text.now) }
{
    match text {
        [] => Ok(Some(Vec::new(alloc))),
        [b'/', rest @ ..] => Ok(Some(decoded_pieces(alloc, rest)?)),
        _ => Ok(None),
    }
}

fn decoded_pieces(alloc: Global, text: &[u8]) -> Result<Vec<Bytes>, AllocError>
    ensures { IfOk result (λ keys. keys.items ≡ decoded_pieces text.now) }
{
    let mut keys = Vec::new(alloc);
    let mut rest = text;
    while let Some((piece, behind)) = cut(rest, b'/') {
        keys.push(decoded(alloc, piece)?)?;
        rest = behind;
    }
    keys.push(decoded(alloc, rest)?)?;
    Ok(keys)
}

fn decoded(alloc: Global, text: &[u8]) -> Result<Bytes, AllocError>
    ensures { IfOk result (λ key. key ≡ percent_decode text.now) }
{
    let mut key = Vec::with_capacity(alloc, text.len())?;
    percent_decode(text).append_to(&mut key)?;
    Ok(Bytes::of(key))
}

/// The path of these keys; None where one of them is no text.
pub(crate) fn path_of(keys: Vec<Bytes>) -> Option<Path>
    ensures { MatchOption result (are_texts keys.items ≡ false) (λ path. (are_texts keys.items
        ≡ true) × (path ≡ keys.items)) }
{
    if are_texts(&keys) {
        Some(Path::of(keys))
    } else {
        None
    }
}

fn are_texts(keys: &[Bytes]) -> bool
    ensures { result ≡ are_texts keys.now }
{
    keys.iter().all(|key| is_text(key.as_slice()))
}

fn is_text(bytes: &[u8]) -> bool
    ensures { result ≡ is_utf8 bytes.now }
{
    std::str::from_utf8(bytes).is_ok()
}
