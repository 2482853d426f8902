//! What tests are set up with. It is tried again where it finds no memory, so that a test goes on where one allocation fails.
ghost use Rattle.std.specs.Prelude.{◌≡◌, []};

use std::alloc::AllocGlobal;
use std::process::Abort;
use unit_types::Bytes;

/// An empty list with room for so many.
pub(crate) fn room<T: Drop>(rt: &(impl Abort + AllocGlobal), count: usize) -> Vec<T>
    ensures { result.items ≡ [] }
{
    let alloc = rt.alloc();
    match Vec::with_capacity(alloc, count) {
        Ok(list) => list,
        Err(_) => Vec::with_capacity(alloc, count).expect(rt, "made"),
    }
}

/// A copy of these bytes.
pub(crate) fn copied(rt: &(impl Abort + AllocGlobal), bytes: &[u8]) -> Bytes
    ensures { result ≡ bytes.now }
{
    let alloc = rt.alloc();
    match Bytes::copy_of(alloc, bytes) {
        Ok(copy) => copy,
        Err(_) => Bytes::copy_of(alloc, bytes).expect(rt, "copied"),
    }
}
