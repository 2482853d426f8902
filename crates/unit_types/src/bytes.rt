//! Byte texts that own their bytes.
ghost use Rattle.std.specs.Prelude.{◌≡◌, ◌++◌, ◌↔◌, IfOk, OnOk, OnErr, IsTrue};

use std::alloc::{AllocError, Global};
use std::marker::Model;

/// A list of bytes. Contracts see the list itself.
#[derive(Debug, Drop)]
pub struct Bytes {
    items: Vec<u8>,
}

impl Model for Bytes {
    ghost use Rattle.std.specs.Prelude.{List, ℕ};
    ghost use Rattle.std.specs.Coded.{coded_list, coded_ℕ};

    ghost Value = { List ℕ };

    ghost coded = { coded_list coded_ℕ };

    ghost view = { λ b. b.items.items };
}

impl Bytes {
    /// The bytes of `items`, without a copy.
    pub fn of(items: Vec<u8>) -> Bytes
        ensures { result ≡ items.items }
    {
        Bytes { items }
    }

    /// A copy of `source`.
    ///
    /// Fails for want of memory alone.
    pub fn copy_of(alloc: Global, source: &[u8]) -> Result<Bytes, AllocError>
        ensures { IfOk result (λ b. b ≡ source.now) }
    {
        Ok(Bytes {
            items: Vec::from_slice(alloc, source)?,
        })
    }

    /// The bytes as a slice.
    pub fn as_slice(&self) -> &[u8]
        ensures { result.now ≡ self.now }
    {
        self.items.as_slice()
    }

    /// The bytes as a vector, without a copy.
    pub fn into_vec(self) -> Vec<u8>
        ensures { result.items ≡ self }
    {
        self.items
    }

    /// Puts `more` behind the bytes.
    ///
    /// Fails for want of memory alone; the bytes are then as before.
    pub fn append(&mut self, more: &[u8]) -> Result<(), AllocError>
        ensures ok { OnOk result (self.new ≡ self.old ++ more.now) }
        ensures err { OnErr result (self.new ≡ self.old) }
    {
        self.items.extend_from_slice(more)
    }

    /// Whether both are the same bytes.
    pub fn is_equal(&self, other: &Bytes) -> bool
        ensures { IsTrue result ↔ (self.now ≡ other.now) }
    {
        self.items.as_slice() == other.items.as_slice()
    }
}

#[cfg(test)]
mod tests {
    use super::*;

    #[test]
    fn keeps_its_bytes(rt: HostRuntime) {
        let mut text = Bytes::copy_of(rt.alloc(), b"ab").expect(&rt, "copied");
        text.append(b"c").expect(&rt, "appended");
        assert!(rt; text.as_slice() == b"abc".as_slice());
        let again = Bytes::of(text.into_vec());
        let same = Bytes::copy_of(rt.alloc(), b"abc").expect(&rt, "copied");
        let other = Bytes::copy_of(rt.alloc(), b"abd").expect(&rt, "copied");
        assert!(rt; again.is_equal(&same));
        assert!(rt; !again.is_equal(&other));
    }
}
