//! The word of flags that a connection shares with its link.

use std::sync::atomic::{AtomicU8, Ordering};

/// Bytes, their end or an error may be there to be read.
pub(crate) const READABLE: u8 = 1;

/// The system may take bytes.
pub(crate) const WRITABLE: u8 = 2;

/// The client sends no more; what it sent may still be there.
pub(crate) const CLOSING: u8 = 4;

/// The connection is broken, or the client takes no more.
pub(crate) const GONE: u8 = 8;

/// No connection has the word.
pub(crate) const FREE: u8 = 16;

/// The last call was a read that answered `NotYet`.
pub(crate) const READING: u8 = 32;

/// Bytes moved since the link looked last.
pub(crate) const MOVED: u8 = 64;

/// The connection was silent for too long, and its place is wanted: its next call fails.
pub(crate) const TAKEN: u8 = 128;

/// A word of flags.
#[derive(Drop)]
pub(crate) struct Flags {
    word: AtomicU8,
}

impl Flags {
    /// The word of a free place.
    pub(crate) fn free() -> Flags {
        Flags {
            word: AtomicU8::new(FREE),
        }
    }

    /// All flags that are set.
    pub(crate) fn all(&self) -> u8 {
        self.word.load(Ordering::SeqCst)
    }

    /// Whether one of these is set.
    pub(crate) fn has(&self, flags: u8) -> bool {
        self.all() & flags != 0
    }

    /// Sets these. It looks first, since a look is much cheaper than a change.
    pub(crate) fn raise(&self, flags: u8) {
        if self.all() & flags != flags {
            self.word.fetch_or(flags, Ordering::SeqCst);
        }
    }

    /// Takes these away.
    pub(crate) fn lower(&self, flags: u8) {
        if self.has(flags) {
            self.word.fetch_and(!flags, Ordering::SeqCst);
        }
    }

    /// Sets these and no others.
    pub(crate) fn reset(&self, flags: u8) {
        self.word.store(flags, Ordering::SeqCst);
    }
}

#[cfg(test)]
mod tests {
    use super::*;

    #[test]
    fn flags_rise_and_fall(rt: HostRuntime) {
        let flags = Flags::free();
        flags.reset(READABLE | WRITABLE);
        flags.raise(CLOSING | READABLE);
        flags.lower(WRITABLE | GONE);
        assert_eq!(rt; flags.all(), READABLE | CLOSING);
        assert!(rt; flags.has(CLOSING | GONE));
        assert!(rt; !flags.has(FREE));
    }
}
