//! The bytes of a slice, one by one.

/// An iterator over the bytes of a slice. It can be copied, and a copy gives the same bytes. It takes no memory.
#[derive(Clone, Copy, Debug, Drop)]
pub struct SliceBytes<'a> {
    rest: &'a [u8],
}

impl<'a> SliceBytes<'a> {
    ghost use Rattle.std.specs.Prelude.{◌≡◌};
    ghost use Rattle.unit_types.specs.Slice.{bytes_left};

    /// The bytes of `slice`.
    pub fn of(slice: &'a [u8]) -> SliceBytes<'a>
        ensures { bytes_left result ≡ slice.now }
    {
        SliceBytes { rest: slice }
    }
}

impl Iterator for SliceBytes<'_> {
    ghost use Rattle.std.specs.Iterator.{YieldsFirst, item_count};
    ghost use Rattle.unit_types.specs.Slice.{bytes_left};

    type Item = u8;

    ghost next_gives = { YieldsFirst bytes_left };

    ghost remaining = { item_count bytes_left };

    fn next(&mut self) -> Option<u8> {
        match self.rest {
            [first, rest @ ..] => {
                self.rest = rest;
                Some(*first)
            }
            [] => None,
        }
    }
}

#[cfg(test)]
mod tests {
    use super::*;

    #[test]
    fn gives_each_byte(rt: HostRuntime) {
        let mut bytes = SliceBytes::of(b"ab");
        let mut again = bytes;
        assert_eq!(rt; bytes.next(), Some(b'a'));
        assert_eq!(rt; bytes.next(), Some(b'b'));
        assert_eq!(rt; bytes.next(), None);
        assert_eq!(rt; again.next(), Some(b'a'));
    }
}
