//! Frames, read where they stand.
ghost use Rattle.std.specs.Prelude.{◌≡◌, option_map, length};
ghost use Rattle.script_frames.specs.Frames.{broken_at, first_frame, frame_of, frames_of, with_bytes};
ghost use Rattle.script_frames.specs.Left.{frames_left, head_said, kind_said, said};

use crate::head::{Head, Kind, head_of};
use unit_types::cut;

/// A frame, with the bytes that come on its connection.
#[derive(Clone, Copy, Debug, Drop)]
pub enum Frame<'a> {
    /// One control connection.
    Control(&'a [u8]),
    /// One connection to the listener of this name.
    Connection { listener: &'a [u8], bytes: &'a [u8] },
    /// The same, where the client has hung up.
    HungUp { listener: &'a [u8], bytes: &'a [u8] },
}

// The frame of that kind with these bytes.
fn frame_of<'a>(kind: Kind<'a>, bytes: &'a [u8]) -> Frame<'a>
    ensures { said result ≡ frame_of (kind_said kind.entry) bytes.now }
{
    match kind {
        Kind::Control => Frame::Control(bytes),
        Kind::Connection(listener) => Frame::Connection { listener, bytes },
        Kind::HungUp(listener) => Frame::HungUp { listener, bytes },
    }
}

// The first bytes as the frame that the head says, where there are so many, and what stands behind them.
fn with_bytes<'a>(bytes: &'a [u8], head: Head<'a>) -> Option<(Frame<'a>, &'a [u8])>
    ensures { option_map (λ first. (said first.0, first.1.now)) result
        ≡ with_bytes bytes.now (head_said head.entry) }
{
    if head.size > bytes.len() {
        return None;
    }
    let (content, behind) = bytes.split_at(head.size);
    Some((frame_of(head.kind, content), behind))
}

// The whole frame at the front, and what stands behind it.
fn first_frame(bytes: &[u8]) -> Option<(Frame<'_>, &[u8])>
    ensures { option_map (λ first. (said first.0, first.1.now)) result ≡ first_frame bytes.now }
{
    let (line, rest) = cut(bytes, b'\n')?;
    let head = head_of(line)?;
    with_bytes(rest, head)
}

/// The frames of an input, one by one, up to the first that is broken. A copy gives the same frames, and no call takes
/// memory.
#[derive(Clone, Copy, Debug, Drop)]
pub struct Frames<'a> {
    rest: &'a [u8],
}

/// The frames of the input, up to the first that is broken. Their bytes are those of the input, without a copy.
pub fn frames_in(input: &[u8]) -> Frames<'_>
    ensures { frames_left result ≡ frames_of input.now }
{
    Frames { rest: input }
}

impl<'a> Iterator for Frames<'a> {
    ghost use Rattle.std.specs.Iterator.{YieldsFirstBy, item_count};

    type Item = Frame<'a>;

    ghost next_gives = { YieldsFirstBy said frames_left };

    ghost remaining = { item_count frames_left };

    fn next(&mut self) -> Option<Frame<'a>> {
        let (frame, rest) = first_frame(self.rest)?;
        self.rest = rest;
        Some(frame)
    }
}

/// The byte where the first broken frame of the input begins. None where the input is whole frames, one after another. It
/// takes no memory.
pub fn broken_at(input: &[u8]) -> Option<usize>
    ensures { result ≡ broken_at input.now }
{
    let mut rest = input;
    while !rest.is_empty() {
        match first_frame(rest) {
            Some((_, behind)) => rest = behind,
            None => return Some(input.len() - rest.len()),
        }
    }
    None
}
