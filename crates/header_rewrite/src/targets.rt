//! Rewritten targets.
ghost use Rattle.std.specs.Prelude.{◌≡◌, ◌++◌, IfOk, OnOk, Some, option_map};
ghost use Rattle.header_rewrite.specs.Rewrite.{is_escaped_in_path, path_byte, path_in_target, rewrite_of, rewrite_of_step, rewritten_by, rewritten_of, target_with, with_rewrite};

use conf_validate::Conf;
use path_normal::{expand, normal_path};
use percent_encoding::percent_encode_byte;
use std::alloc::{AllocError, Global};
use std::mem::swap;
use unit_types::{Bytes, Request};

/// What a rewrite changes in a request.
#[derive(Debug, Drop)]
pub struct NewTarget {
    /// The path, in its normal form.
    pub path: Bytes,
    /// The target: that path as it stands in one, and the query of the request.
    pub target: Bytes,
}

impl NewTarget {
    /// Exchanges both with those of the request; nothing is copied. A second call brings the request back.
    pub fn exchange(&mut self, request: &mut Request)
        ensures request { request.new ≡ with_rewrite request.old (Some self.old) }
        ensures path { self.new.path ≡ request.old.path }
        ensures target { self.new.target ≡ request.old.target }
    {
        swap(&mut self.path, &mut request.path);
        swap(&mut self.target, &mut request.target);
    }
}

/// The request as the application of this step sees it: with the path and the target that the step's `rewrite` says, all
/// else as it came. It is the same request where there is no step or the step has no `rewrite`.
///
/// Fails for want of memory alone.
pub fn rewritten(
    alloc: Global,
    conf: &Conf,
    step: Option<usize>,
    request: &Request,
) -> Result<Request, AllocError>
    ensures { IfOk result (λ new. new ≡ rewritten_of conf.now step request.now) }
{
    let mut copy = request.another(alloc)?;
    if let Some(new) = rewrite(alloc, conf, step, request)? {
        copy.path = new.path;
        copy.target = new.target;
    }
    Ok(copy)
}

/// What the step's `rewrite` changes in the request: its text, expanded, with each byte outside 0x21 to 0x7E and each
/// `%`, `?` and `#` written `%XX`, is the raw form of the path, and the target is that path, written so too, with `?` and
/// the query of the request where it isn't empty. None where there is no step or the step has no `rewrite`.
///
/// Fails for want of memory alone.
pub fn rewrite(
    alloc: Global,
    conf: &Conf,
    step: Option<usize>,
    request: &Request,
) -> Result<Option<NewTarget>, AllocError>
    ensures { IfOk result (λ new. new ≡ rewrite_of conf.now step request.now) }
{
    match rewrite_of_step(conf, step) {
        Some(text) => Ok(Some(rewritten_by(alloc, text, request)?)),
        None => Ok(None),
    }
}

/// The text of the `rewrite` of this step, if there is one.
fn rewrite_of_step(conf: &Conf, step: Option<usize>) -> Option<&[u8]>
    ensures { option_map (λ t. t.now) result ≡ rewrite_of_step conf.now step }
{
    match step {
        Some(step) => conf.rewrite(step),
        None => None,
    }
}

/// The path and the target that a text says for a request.
fn rewritten_by(alloc: Global, text: &[u8], request: &Request) -> Result<NewTarget, AllocError>
    ensures { IfOk result (λ new. new ≡ rewritten_by text.now request.now) }
{
    let expanded = expand(alloc, text, request, false)?;
    let raw = path_in_target(alloc, expanded.as_slice())?;
    let path = normal_path(alloc, &raw)?;
    let target = target_with(alloc, path.as_slice(), request.query.as_slice())?;
    Ok(NewTarget { path, target })
}

/// The target of this path with this query.
fn target_with(alloc: Global, path: &[u8], query: &[u8]) -> Result<Bytes, AllocError>
    ensures { IfOk result (λ target. target ≡ target_with path.now query.now) }
{
    let mut target = path_in_target(alloc, path)?;
    if !query.is_empty() {
        target.push(b'?')?;
        target.extend_from_slice(query)?;
    }
    Ok(Bytes::of(target))
}

/// A path as it stands in a target.
#[tactic(auto, using(crate::proofs::TargetLemmas::path_more))]
fn path_in_target(alloc: Global, path: &[u8]) -> Result<Vec<u8>, AllocError>
    ensures { IfOk result (λ text. text.items ≡ path_in_target path.now) }
{
    let mut text = Vec::with_capacity(alloc, path.len())?;
    for byte in path {
        append_path_byte(&mut text, *byte)?;
    }
    Ok(text)
}

/// Puts a byte of a path behind the text, written `%XX` where it can't stand as itself.
fn append_path_byte(text: &mut Vec<u8>, byte: u8) -> Result<(), AllocError>
    ensures { OnOk result (text.new.items ≡ text.old.items ++ path_byte byte) }
{
    if is_escaped_in_path(byte) {
        return text.extend_from_slice(percent_encode_byte(byte).as_bytes());
    }
    text.push(byte)?;
    Ok(())
}

/// Whether the byte is outside 0x21 to 0x7E, `%`, `?` or `#`.
fn is_escaped_in_path(byte: u8) -> bool
    ensures { result ≡ is_escaped_in_path byte }
{
    byte < 0x21 || (byte > 0x7E || (byte == b'%' || (byte == b'?' || byte == b'#')))
}
