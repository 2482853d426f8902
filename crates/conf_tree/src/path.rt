//! Paths.
ghost use Rattle.std.specs.Prelude.{◌≡◌, List, ℕ, All, IsUtf8};

use std::alloc::Global;
use std::marker::Model;
use unit_types::Bytes;

/// The keys that lead to a value: names of members, and indices of items. Contracts see the list of the keys.
#[derive(Drop)]
pub struct Path {
    keys: Vec<Bytes>,
}

impl Model for Path {
    ghost use Rattle.std.specs.Prelude.{List, ℕ, All, IsUtf8};

    ghost Value = { List (List ℕ) };

    ghost view = { λ p. p.keys.items };

    ghost invariant = { λ p. All IsUtf8 p.keys.items };
}

impl Path {
    /// The path of these keys, without a copy. Each key is UTF-8.
    pub fn of(keys: Vec<Bytes>) -> Path
        requires { All IsUtf8 keys.items }
        ensures { result ≡ keys.items }
    {
        Path { keys }
    }

    /// The allocator of the list of keys.
    pub(crate) fn allocator(&self) -> Global {
        *self.keys.allocator()
    }

    /// The keys as a slice.
    pub(crate) fn as_slice(&self) -> &[Bytes]
        ensures keys { result.now ≡ self.now }
        ensures utf8 { All IsUtf8 result.now }
    {
        self.keys.as_slice()
    }
}
