//! Replies from their parts.
ghost use Rattle.std.specs.Prelude.{◌≡◌, ◌≤◌, ◌<◌, ◌+◌, ◌++◌, ℕ, List, length, IfOk, OnOk, OnErr, IsTrue, ◌↔◌, Some, vec_len, vec_capacity};
ghost use Rattle.std.specs.Arc.{arc_value};
ghost use Rattle.request_context.specs.declared.asked.Asked.{Asked};
ghost use Rattle.request_context.specs.Collecting.{IsPart, Accepts, IsStray, all_bytes, with_next};
ghost use Rattle.request_context.specs.Cutting.{Collected, part_count};
ghost use Rattle.request_context.specs.Parcels.{IsEmptied, answers_of, joined};
ghost use Rattle.request_context.specs.Record.{IsRecordOf};

use crate::accepting::{Part, Stray};
use crate::asked::Asked;
use crate::asking::{put_pieces, size_of_pieces};
use crate::kept::Kept;
use crate::pieces::Pieces;
use crate::reading::read_reply;
use std::alloc::{AllocError, Global};
use std::marker::{Model, PhantomData};
use std::sync::Arc;
use unit_types::{Bytes, Handlers, Reply};

/// Collects the parts of the reply of the handlers `H` to one request, in order, and gives the reply.
///
/// Each part carries what was asked, and is taken only where this is what the collector keeps. They are compared by
/// value: stream and number first, of the request the short texts first, its content last. So a part costs one pass over
/// the content of its request.
#[derive(Drop)]
pub struct Collector<H: Handlers> {
    asked: Kept,
    next: u32,
    kept: Vec<Bytes>,
    handlers: PhantomData<H>,
}

impl<H: Handlers> Model for Collector<H> {
    ghost use Rattle.request_context.specs.Cutting.{Collected};

    ghost Value = { Collected };

    ghost use Rattle.request_context.specs.Collecting.{IsFront};

    ghost view = { λ c. record { asked = c.asked; next = c.next } };

    ghost invariant = { λ c. IsFront H.reply_of c.asked c.next c.kept.items };
}

// How many bytes the texts have: the room to ask for.
fn size_of_texts(texts: &[Bytes]) -> usize {
    let mut size = 0usize;
    for text in texts {
        size = size.saturating_add(text.as_slice().len());
    }
    size
}

fn put_texts(out: &mut Vec<u8>, texts: &[Bytes]) -> Result<(), AllocError>
    ensures { OnOk result (out.new.items ≡ out.old.items ++ all_bytes texts.now) }
{
    for text in texts {
        out.extend_from_slice(text.as_slice())?;
    }
    Ok(())
}

// Moves the bytes of all parcels behind those that are there, for which there is room.
fn move_bytes<H: Handlers>(pieces: &mut Pieces<H>, to: &mut Vec<Bytes>)
    requires { vec_len to.old + length pieces.old.parcels ≤ vec_capacity to.old }
    ensures bytes { all_bytes to.new.items ≡ all_bytes to.old.items ++ joined pieces.old.parcels }
    ensures emptied { IsEmptied pieces.old pieces.new }
{
    for _ in 0..pieces.len() {
        let Some(parcel) = pieces.pop() else {
            unreachable!();
        };
        to.push_reserved(parcel.into_bytes());
    }
}

impl<H: Handlers> Collector<H> {
    /// A collector of the reply to this request, which has no part yet.
    ///
    /// Fails for want of memory alone.
    pub fn open(alloc: Global, asked: &Asked) -> Result<Collector<H>, AllocError>
        ensures { IfOk result (λ c. c ≡ record { asked = asked.now; next = 0 }) }
    {
        Ok(Collector {
            asked: Kept::of(asked.another(alloc)?),
            next: 0,
            kept: Vec::new(alloc),
            handlers: PhantomData,
        })
    }

    /// A collector of the reply to the request of which this is the record, as it was posted; it has no part yet.
    ///
    /// The bytes are a request record. It keeps them as they are, and compares each part's request with them: a request
    /// has one record, so this is comparing requests. Takes no memory.
    pub fn over(alloc: Global, posted: Bytes) -> Collector<H>
        requires { (asked : Asked) × IsRecordOf posted (Some asked) }
        ensures { (asked : Asked) → IsRecordOf posted (Some asked)
            → result ≡ record { asked = asked; next = 0 } }
    {
        Collector {
            asked: Kept::over(posted),
            next: 0,
            kept: Vec::new(alloc),
            handlers: PhantomData,
        }
    }

    // In what a part differs from the awaited one, which is told by its number and what it says was asked.
    fn stray(&self, part: u32, found: Arc<Asked>) -> Option<Stray>
        ensures { IsStray self.now (arc_value found) part result }
    {
        let kept = self.asked.stream();
        if found.stream != kept {
            return Some(Stray::Stream {
                kept,
                found: found.stream,
            });
        }
        if part != self.next {
            return Some(Stray::Part {
                kept: self.next,
                found: part,
            });
        }
        if !self.asked.is_equal(&found) {
            return Some(Stray::Request { kept, found });
        }
        None
    }

    // Keeps the next part.
    fn keep(&mut self, pieces: &mut Pieces<H>) -> Result<(), AllocError>
        requires parcels { pieces.old.parcels ≡ answers_of H.reply_of self.old.asked self.old.next }
        requires within { self.old.next < part_count H.reply_of self.old.asked }
        ensures next { OnOk result (self.new ≡ with_next self.old) }
        ensures emptied { OnOk result (IsEmptied pieces.old pieces.new) }
        ensures kept { OnErr result (self.new ≡ self.old) }
        ensures pieces_kept { OnErr result (pieces.new ≡ pieces.old) }
    {
        self.kept.reserve(pieces.len())?;
        move_bytes(pieces, &mut self.kept);
        self.next += 1;
        Ok(())
    }

    // The reply, whose last part this is.
    fn reply(&self, alloc: Global, pieces: &Pieces<H>) -> Result<Reply, AllocError>
        requires parcels { pieces.now.parcels ≡ answers_of H.reply_of self.now.asked self.now.next }
        requires last { self.now.next + 1 ≡ part_count H.reply_of self.now.asked }
        ensures { IfOk result (λ reply. reply
            ≡ H.reply_of self.now.asked.name self.now.asked.request) }
    {
        let size = size_of_texts(&self.kept).saturating_add(size_of_pieces(pieces));
        let mut bytes = Vec::with_capacity(alloc, size)?;
        put_texts(&mut bytes, &self.kept)?;
        put_pieces(&mut bytes, pieces)?;
        match read_reply(alloc, bytes.as_slice())? {
            Some(reply) => Ok(reply),
            None => unreachable!(),
        }
    }

    // Takes the awaited part in.
    fn take_next(
        &mut self,
        alloc: Global,
        last: bool,
        pieces: &mut Pieces<H>,
    ) -> Result<Part, AllocError>
        requires parcels { pieces.old.parcels ≡ answers_of H.reply_of self.old.asked self.old.next }
        requires within { self.old.next < part_count H.reply_of self.old.asked }
        requires last { IsTrue last ↔ (self.old.next + 1 ≡ part_count H.reply_of self.old.asked) }
        ensures answer { IfOk result
            (Accepts H.reply_of self.old self.new self.old.asked self.old.next last) }
        ensures emptied { OnOk result (IsEmptied pieces.old pieces.new) }
        ensures kept { OnErr result (self.new ≡ self.old) }
        ensures pieces_kept { OnErr result (pieces.new ≡ pieces.old) }
    {
        if !last {
            self.keep(pieces)?;
            return Ok(Part::More);
        }
        let reply = self.reply(alloc, pieces)?;
        self.keep(pieces)?;
        Ok(Part::Whole(reply))
    }

    // Takes the part in where it is the awaited one; `found` is what it says was asked.
    fn take_in(
        &mut self,
        alloc: Global,
        found: Arc<Asked>,
        part: u32,
        last: bool,
        pieces: &mut Pieces<H>,
    ) -> Result<Part, AllocError>
        requires { IsPart H.reply_of (arc_value found) (arc_value found).stream part last
            pieces.old.parcels }
        ensures answer { IfOk result
            (Accepts H.reply_of self.old self.new (arc_value found) part last) }
        ensures emptied { OnOk result (IsEmptied pieces.old pieces.new) }
        ensures kept { OnErr result (self.new ≡ self.old) }
        ensures pieces_kept { OnErr result (pieces.new ≡ pieces.old) }
    {
        match self.stray(part, found) {
            Some(stray) => {
                pieces.clear();
                Ok(Part::Stranger(stray))
            }
            None => self.take_next(alloc, last, pieces),
        }
    }

    /// Takes a part in: its stream, its number, whether it is the last one, and its pieces, of which none is left then.
    ///
    /// The pieces are all those of that part of the reply to what was asked under that stream, and `last` is true
    /// exactly where this is the final part of the reply's record. `Stranger` comes exactly where stream, number or
    /// request differ from what the collector waits for, in this order, and leaves the collector as it was; `Whole` at
    /// the last part behind all earlier ones.
    ///
    /// Fails for want of memory alone; collector and pieces are then as before.
    pub fn accept(
        &mut self,
        alloc: Global,
        stream: u64,
        part: u32,
        last: bool,
        pieces: &mut Pieces<H>,
    ) -> Result<Part, AllocError>
        requires { (found : Asked) × IsPart H.reply_of found stream part last pieces.old.parcels }
        ensures answer { IfOk result (λ answer. (found : Asked)
            → IsPart H.reply_of found stream part last pieces.old.parcels
            → Accepts H.reply_of self.old self.new found part last answer) }
        ensures emptied { OnOk result (IsEmptied pieces.old pieces.new) }
        ensures kept { OnErr result (self.new ≡ self.old) }
        ensures pieces_kept { OnErr result (pieces.new ≡ pieces.old) }
    {
        match pieces.asked() {
            Some(found) => {
                let found = Arc::try_clone(found)?;
                self.take_in(alloc, found, part, last, pieces)
            }
            None => unreachable!(),
        }
    }
}
