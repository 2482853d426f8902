//! The line that is being written, without memory.
ghost use Rattle.std.specs.Prelude.{◌≡◌, ◌≤◌, ◌++◌, ◌∷◌, [], OnOk, OnErr};

use std::alloc::AllocError;
use unit_types::Bytes;

/// Bytes of a line before its LF.
const LINE_LIMIT: usize = 1023;

/// The first bytes of a line.
#[derive(Drop)]
pub(crate) struct LineBuffer {
    bytes: [u8; 1024],
    end: usize,
    ghost within: { end ≤ 1023 },
}

impl LineBuffer {
    ghost use Rattle.access_log.specs.Buffer.{Appends, written};

    /// No bytes.
    pub(crate) fn new() -> LineBuffer
        ensures { written result ≡ [] }
    {
        LineBuffer {
            bytes: [0; 1024],
            end: 0,
        }
    }

    /// Puts a byte behind the others, where the line has room for it.
    pub(crate) fn push(&mut self, byte: u8)
        ensures { Appends (byte ∷ []) self.old self.new }
    {
        if self.end < LINE_LIMIT {
            self.bytes[self.end] = byte;
            self.end += 1;
        }
    }

    /// Puts the line with its LF behind `out`.
    ///
    /// Fails for want of memory alone; `out` is then as before.
    pub(crate) fn append_to(&mut self, out: &mut Bytes) -> Result<(), AllocError>
        ensures ok { OnOk result (out.new ≡ out.old ++ (written self.old ++ 10 ∷ [])) }
        ensures err { OnErr result (out.new ≡ out.old) }
    {
        self.bytes[self.end] = b'\n';
        out.append(&self.bytes[..self.end + 1])
    }
}
