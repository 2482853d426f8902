//! What a worker is asked.
ghost use Rattle.std.specs.Prelude.{◌≡◌, ◌↔◌, IfOk, IsTrue};

use std::alloc::{AllocError, Global};
use unit_types::{Bytes, Request};

/// A request with the stream under which it was posted and the handler that is to answer it.
#[derive(Debug, Drop)]
pub struct Asked {
    /// The stream of the request.
    pub stream: u64,
    /// The handler's name.
    pub name: Bytes,
    /// The request.
    pub request: Request,
}

impl Asked {
    /// A copy.
    ///
    /// Fails for want of memory alone.
    pub fn another(&self, alloc: Global) -> Result<Asked, AllocError>
        ensures { IfOk result (λ asked. asked ≡ self.now) }
    {
        Ok(Asked {
            stream: self.stream,
            name: Bytes::copy_of(alloc, self.name.as_slice())?,
            request: self.request.another(alloc)?,
        })
    }

    /// Whether both are the same request for the same handler under the same stream.
    pub fn is_equal(&self, other: &Asked) -> bool
        ensures { IsTrue result ↔ (self.now ≡ other.now) }
    {
        self.stream == other.stream
            && self.name.is_equal(&other.name)
            && self.request.is_equal(&other.request)
    }
}
