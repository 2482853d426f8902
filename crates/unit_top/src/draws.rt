//! The requests of a made load, by draws from a seed.
ghost use Rattle.std.specs.Prelude.{◌≡◌, ◌<◌, replicate, string_bytes, IfOk, OnOk};
ghost use Rattle.unit_top.specs.Load as spec;
ghost use Rattle.unit_top.specs.Load.{draw_of, request_by};

use std::alloc::{AllocError, Global};
use unit_types::Bytes;

/// A linear congruential generator of 64 bits.
#[derive(Drop)]
pub(crate) struct Draws {
    state: u64,
}

impl Draws {
    /// The generator that begins with this state.
    pub(crate) fn of(seed: u64) -> Draws
        ensures { result.state ≡ seed }
    {
        Draws { state: seed }
    }

    /// The next number, below 2^31.
    fn draw(&mut self) -> u64
        ensures number { result ≡ (draw_of self.old.state).number }
        ensures state { self.new.state ≡ (draw_of self.old.state).state }
    {
        self.state = self
            .state
            .wrapping_mul(6_364_136_223_846_793_005)
            .wrapping_add(1_442_695_040_888_963_407);
        self.state >> 33
    }

    /// The next request.
    ///
    /// Fails for want of memory alone.
    pub(crate) fn request(&mut self, alloc: Global) -> Result<Bytes, AllocError>
        ensures request { IfOk result
            (λ request. request ≡ (request_by (draw_of self.old.state)).request) }
        ensures state { OnOk result (self.new.state ≡ (request_by (draw_of self.old.state)).state) }
    {
        match self.draw() % 4 {
            0 => Bytes::copy_of(alloc, b"GET /hello HTTP/1.1\r\nHost: a\r\n\r\n"),
            1 => post(alloc, "/echo", self.draw() % 1000),
            2 => post(alloc, "/count", self.draw() % 1000),
            _ => Bytes::copy_of(alloc, b"GET /none HTTP/1.1\r\nHost: a\r\n\r\n"),
        }
    }
}

// The head of a request whose content has this size.
fn post_head(alloc: Global, path: &str, size: u64) -> Result<String, AllocError>
    ensures { IfOk result (λ head. string_bytes head ≡ spec.post_head path.now size) }
{
    format!(in alloc; "POST {path} HTTP/1.1\r\nHost: a\r\nContent-Length: {size}\r\n\r\n")
}

// So many letters `x`.
fn letters(alloc: Global, size: usize) -> Result<Vec<u8>, AllocError>
    requires { size < 1000 }
    ensures { IfOk result (λ text. text.items ≡ replicate size 120) }
{
    vec![in alloc; b'x'; size]
}

// A request whose content is so many letters `x`.
fn post(alloc: Global, path: &str, size: u64) -> Result<Bytes, AllocError>
    requires { size < 1000 }
    ensures { IfOk result (λ request. request ≡ spec.post path.now size) }
{
    let head = post_head(alloc, path, size)?;
    let mut request = Bytes::copy_of(alloc, head.as_bytes())?;
    let content = letters(alloc, size as usize)?;
    request.append(content.as_slice())?;
    Ok(request)
}
