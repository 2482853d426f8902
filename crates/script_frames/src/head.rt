//! The line in front of a frame's bytes.
ghost use Rattle.std.specs.Prelude.{◌≡◌, option_map, List, ℕ};
ghost use Rattle.script_frames.specs.Frames.{head_of, is_listener, length_of, listener_head};
ghost use Rattle.script_frames.specs.Left.{head_said};
ghost use Rattle.script_frames.specs.Frames as spec;
ghost use Rattle.unit_types.specs.Text as texts;

use unit_types::{cut, plain_decimal};

/// The most bytes of a frame: nine digits write their number.
const MOST_BYTES: u64 = 999_999_999;

/// The most bytes of a listener's name in a frame.
const LISTENER_LIMIT: usize = 255;

/// What a frame is, without its bytes.
#[derive(Clone, Copy, Debug, Drop)]
pub(crate) enum Kind<'a> {
    /// One control connection.
    Control,
    /// One connection to this listener.
    Connection(&'a [u8]),
    /// The same, where the client has hung up.
    HungUp(&'a [u8]),
}

/// What a frame's line says.
#[derive(Clone, Copy, Debug, Drop)]
pub(crate) struct Head<'a> {
    pub(crate) kind: Kind<'a>,
    /// How many bytes stand behind the line.
    pub(crate) size: usize,
}

// How many bytes a frame has.
fn length_of(text: &[u8]) -> Option<usize>
    ensures { result ≡ length_of text.now }
{
    let size = plain_decimal(text, MOST_BYTES)?;
    Some(size as usize)
}

fn is_listener(name: &[u8]) -> bool
    ensures { result ≡ is_listener name.now }
{
    !name.is_empty() && name.len() <= LISTENER_LIMIT
}

// A listener in front of the first space, and a length behind it.
fn listener_and_length(text: &[u8]) -> Option<(&[u8], usize)>
    ensures { (kind : List ℕ → spec.Kind) → option_map (λ parts. (kind parts.0.now, parts.1)) result
        ≡ listener_head kind (texts.cut 32 text.now) }
{
    let (listener, size) = cut(text, b' ')?;
    if !is_listener(listener) {
        return None;
    }
    let size = length_of(size)?;
    Some((listener, size))
}

/// What a line says that begins a frame. None where it is no such line.
pub(crate) fn head_of(line: &[u8]) -> Option<Head<'_>>
    ensures { option_map head_said result ≡ head_of line.now }
{
    let (word, rest) = cut(line, b' ')?;
    if word == b"C".as_slice() {
        let size = length_of(rest)?;
        return Some(Head {
            kind: Kind::Control,
            size,
        });
    }
    if word == b"H".as_slice() {
        let (listener, size) = listener_and_length(rest)?;
        return Some(Head {
            kind: Kind::Connection(listener),
            size,
        });
    }
    if word == b"G".as_slice() {
        let (listener, size) = listener_and_length(rest)?;
        return Some(Head {
            kind: Kind::HungUp(listener),
            size,
        });
    }
    None
}
