//! The bytes of two slices, one behind the other.
ghost use Rattle.std.specs.Prelude.{◌≡◌};

/// An iterator over the bytes of the first slice and then of the second, that can be copied.
#[derive(Clone, Copy, Drop)]
pub(crate) struct Chained<'a> {
    pub(crate) first: &'a [u8],
    pub(crate) second: &'a [u8],
}

impl<'a> Chained<'a> {
    pub(crate) fn of(first: &'a [u8], second: &'a [u8]) -> Chained<'a>
        ensures first { result.first.now ≡ first.now }
        ensures second { result.second.now ≡ second.now }
    {
        Chained { first, second }
    }
}

impl Iterator for Chained<'_> {
    ghost use Rattle.std.specs.Prelude.{◌++◌};
    ghost use Rattle.std.specs.Iterator.{YieldsFirst, item_count};

    type Item = u8;

    ghost next_gives = { YieldsFirst (λ s. s.first.now ++ s.second.now) };

    ghost remaining = { item_count (λ s. s.first.now ++ s.second.now) };

    fn next(&mut self) -> Option<u8> {
        match self.first {
            [byte, rest @ ..] => {
                self.first = rest;
                Some(*byte)
            }
            [] => match self.second {
                [byte, rest @ ..] => {
                    self.second = rest;
                    Some(*byte)
                }
                [] => None,
            },
        }
    }
}
