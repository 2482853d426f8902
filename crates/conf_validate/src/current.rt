//! Configurations that several parts of a program share.
ghost use Rattle.std.specs.Prelude.{◌≡◌, IfOk};
ghost use Rattle.conf_validate.specs.Current.{numbered};

use crate::conf::Conf;
use std::alloc::AllocError;
use std::sync::Arc;

/// A configuration under its number, which says how many were published before it. Contracts see both as
/// `numbered current`.
#[derive(Drop)]
pub struct Current {
    /// How many configurations were published before it.
    pub number: u64,
    /// The configuration, which others may share.
    pub conf: Arc<Conf>,
}

impl Current {
    /// The same configuration under the same number; nothing of it is copied.
    ///
    /// Fails for want of memory alone.
    pub fn another(&self) -> Result<Current, AllocError>
        ensures { IfOk result (λ current. numbered current ≡ numbered self.now) }
    {
        Ok(Current {
            number: self.number,
            conf: Arc::try_clone(&self.conf)?,
        })
    }
}
