//! Broken rules.
ghost use Rattle.std.specs.Fmt.{decimal};
ghost use Rattle.std.specs.Prelude.{◌≡◌, ◌++◌, Some, IfOk, OnOk, if◌then◌else◌};
ghost use Rattle.conf_validate.specs.Valid.{below, broken, broken_if, key_byte, level};
ghost use Rattle.std.specs.List.{flat_map};
ghost use Rattle.conf_validate.specs.declared.fault.ConfFault.TheVariants.{Memory};

use std::alloc::{AllocError, Global};
use unit_types::Bytes;

/// A broken rule of a configuration, and where it is broken.
#[derive(Debug, Drop)]
pub struct Invalid {
    /// The place: `/` and the key for each level, with `~` written `~0` and `/` written `~1`. The whole has the empty
    /// path.
    pub path: Bytes,
    /// The rule, from 1 to 8.
    pub rule: u8,
}

/// Why there is no configuration.
#[derive(Debug, Drop)]
pub enum ConfFault {
    /// A rule is broken.
    Invalid(Invalid),
    /// There was no memory.
    Memory,
}

impl From<AllocError> for ConfFault {
    ghost from_gives = { λ _ e. e ≡ Memory };

    fn from(_e: AllocError) -> ConfFault {
        ConfFault::Memory
    }
}

impl Invalid {
    /// The rule is broken at the value itself.
    pub(crate) fn here(alloc: Global, rule: u8) -> Invalid
        ensures { Some result ≡ broken rule }
    {
        Invalid {
            path: Bytes::of(Vec::new(alloc)),
            rule,
        }
    }

    /// The same, seen from the value that has this one under the key.
    pub(crate) fn below(self, alloc: Global, key: &[u8]) -> Result<Invalid, AllocError>
        ensures { IfOk result (λ fault. Some fault ≡ below key.now (Some self)) }
    {
        let mut path = Vec::with_capacity(alloc, key.len())?;
        path.push(b'/')?;
        append_key(&mut path, key)?;
        path.extend_from_slice(self.path.as_slice())?;
        Ok(Invalid {
            path: Bytes::of(path),
            rule: self.rule,
        })
    }

    /// The same, seen from the array that has this value at the index.
    pub(crate) fn below_index(self, alloc: Global, index: usize) -> Result<Invalid, AllocError>
        ensures { IfOk result (λ fault. Some fault ≡ below (decimal index) (Some self)) }
    {
        let mut buffer = itoa::Buffer::new();
        self.below(alloc, buffer.format(index).as_bytes())
    }
}

/// The rule is broken at the value itself, where the test says so.
pub(crate) fn broken_if(alloc: Global, test: bool, rule: u8) -> Option<Invalid>
    ensures { result ≡ broken_if test rule }
{
    if test {
        Some(Invalid::here(alloc, rule))
    } else {
        None
    }
}

/// Puts a key behind a path, with `~` written `~0` and `/` written `~1` (RFC 6901, section 3).
fn append_key(path: &mut Vec<u8>, key: &[u8]) -> Result<(), AllocError>
    ensures { OnOk result (path.new.items ≡ path.old.items ++ flat_map key_byte key.now) }
{
    for byte in key {
        match *byte {
            b'~' => path.extend_from_slice(b"~0")?,
            b'/' => path.extend_from_slice(b"~1")?,
            other => path.push(other)?,
        }
    }
    Ok(())
}
