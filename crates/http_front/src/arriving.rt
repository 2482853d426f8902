//! A request whose content comes in pieces (RFC 9112, sections 6.2, 7.1).
ghost use Rattle.std.specs.Prelude.{◌≡◌, ◌≤◌, length, take, drop, IfOk};
ghost use Rattle.http_front.specs.Arriving.{Decodes, content_at, end_len, told_end};
ghost use Rattle.http_front.specs.Message.{request_of};
ghost use Rattle.http_front.specs.Stands.{message_with};
ghost use Rattle.http_front.specs.Content.{content_by};
ghost use Rattle.http_front.specs.declared.framing.Framing.TheVariants.{Chunks, Length};

use crate::chunk::{Chunk, first_chunk};
use crate::content::is_continue_due;
use crate::framing::Framing;
use crate::next_unit::{Next, Told};
use crate::slices::{behind, first_bytes};
use std::alloc::{AllocError, Global};
use unit_types::{Addr, Bytes, Request};

/// A request whose head is complete, the content that came, and how the rest of it is framed.
#[derive(Debug, Drop)]
pub(crate) struct Arriving {
    /// The request without content.
    pub(crate) request: Request,
    pub(crate) content: Vec<u8>,
    pub(crate) framing: Framing,
}

/// How much of a content had come.
#[derive(Debug, Clone, Copy, Drop)]
pub(crate) struct Came {
    pub(crate) len: usize,
    pub(crate) framing: Framing,
}

/// What stands behind the content that came.
#[derive(Debug, Clone, Copy, PartialEq, Eq, Drop)]
pub(crate) enum End {
    /// The end of the content, in so many bytes.
    Whole(usize),
    /// Bytes that are refused with that status.
    Refused(u16),
    /// More bytes are needed.
    Open,
}

impl End {
    fn len(self) -> usize
        ensures { result ≡ end_len self }
    {
        match self {
            End::Whole(len) => len,
            End::Refused(_) | End::Open => 0,
        }
    }
}

impl Arriving {
    /// Takes what the bytes from `used` on have of the content, and moves `used` behind it.
    ///
    /// Fails for want of memory alone, behind a part of it.
    pub(crate) fn decode(&mut self, bytes: &[u8], used: &mut usize) -> Result<End, AllocError>
        requires { used.old ≤ length bytes.now }
        ensures decodes { Decodes self.old self.new bytes.now used.old used.new }
        ensures end { IfOk result
            (λ end. content_by self.new.framing (drop used.new bytes.now) ≡ content_at end) }
    {
        match self.framing {
            Framing::Length(left) => self.decode_length(left, bytes, used),
            Framing::Chunks(room) => self.decode_chunks(room, bytes, used),
        }
    }

    // of a content that has so many bytes still
    fn decode_length(
        &mut self,
        left: u64,
        bytes: &[u8],
        used: &mut usize,
    ) -> Result<End, AllocError>
        requires within { used.old ≤ length bytes.now }
        requires framing { self.old.framing ≡ Length left }
        ensures decodes { Decodes self.old self.new bytes.now used.old used.new }
        ensures end { IfOk result
            (λ end. content_by self.new.framing (drop used.new bytes.now) ≡ content_at end) }
    {
        let rest = behind(bytes, *used);
        if left <= rest.len() as u64 {
            self.content
                .extend_from_slice(first_bytes(rest, left as usize))?;
            *used += left as usize;
            self.framing = Framing::Length(0);
            Ok(End::Whole(0))
        } else {
            self.content.extend_from_slice(rest)?;
            *used += rest.len();
            self.framing = Framing::Length(left - rest.len() as u64);
            Ok(End::Open)
        }
    }

    // of a content in chunks, of which so many bytes may still come
    fn decode_chunks(
        &mut self,
        room: u64,
        bytes: &[u8],
        used: &mut usize,
    ) -> Result<End, AllocError>
        requires within { used.old ≤ length bytes.now }
        requires framing { self.old.framing ≡ Chunks room }
        ensures decodes { Decodes self.old self.new bytes.now used.old used.new }
        ensures end { IfOk result
            (λ end. content_by self.new.framing (drop used.new bytes.now) ≡ content_at end) }
    {
        let mut room = room;
        loop {
            let rest = behind(bytes, *used);
            match first_chunk(room, rest) {
                Chunk::Data(line, size) => {
                    self.content
                        .extend_from_slice(first_bytes(behind(rest, line), size))?;
                    *used += line + size + 2;
                    room -= size as u64;
                    self.framing = Framing::Chunks(room);
                }
                Chunk::Last(len) => return Ok(End::Whole(len)),
                Chunk::Refused(status) => return Ok(End::Refused(status)),
                Chunk::Open => return Ok(End::Open),
            }
        }
    }

    /// What is told where that stands behind the content that came: a whole request is a copy.
    ///
    /// Fails for want of memory alone.
    pub(crate) fn told(
        &self,
        alloc: Global,
        from: Addr,
        to: Addr,
        end: End,
        ended: bool,
    ) -> Result<Told, AllocError>
        ensures { IfOk result (λ told. told ≡ told_end from to self.now end ended) }
    {
        Ok(Told {
            answer: match end {
                End::Whole(_) => Next::Request(self.whole(alloc, from, to)?),
                End::Refused(status) => Next::Bad(status),
                End::Open => Next::open(ended),
            },
            used: end.len(),
            is_due: is_continue_due(&self.request),
            is_begun: true,
        })
    }

    // the request with a copy of its content
    fn whole(&self, alloc: Global, from: Addr, to: Addr) -> Result<Request, AllocError>
        ensures { IfOk result (λ request. request
            ≡ request_of from to (message_with self.now.request self.now.content.items)) }
    {
        let request = self.request.another(alloc)?;
        Ok(Request {
            body: Bytes::copy_of(alloc, &self.content)?,
            from,
            to,
            ..request
        })
    }

    /// How much of the content came.
    pub(crate) fn came(&self) -> Came
        ensures { result ≡ record { len = length self.now.content.items; framing = self.now.framing } }
    {
        Came {
            len: self.content.len(),
            framing: self.framing,
        }
    }

    /// Goes back to where that much had come.
    pub(crate) fn cut_to(&mut self, came: Came)
        ensures request { self.new.request ≡ self.old.request }
        ensures content { self.new.content.items ≡ take came.len self.old.content.items }
        ensures framing { self.new.framing ≡ came.framing }
    {
        self.content.truncate(came.len);
        self.framing = came.framing;
    }
}
