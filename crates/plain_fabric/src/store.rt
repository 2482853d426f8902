//! The words of a fabric and what its chunks hold, changed by one thread.
ghost use Rattle.std.specs.Prelude.{◌≡◌, ◌≤◌, ◌+◌, ◌*◌, ◌<◌, ◌^◌, ◌∷◌, [], length, IfOk, OnOk};
ghost use Rattle.fabric_words.specs.Offsets.{width_of, word_in};
ghost use Rattle.fabric_words.specs.Places.{segments_of};
ghost use Rattle.fabric_words.specs.Shown.{Shows};
ghost use Rattle.plain_fabric.specs.Contents.{AllVacated, HoldNothing, HoldNothingBeside, held_from};
ghost use Rattle.plain_fabric.specs.Laws.{HasOnePair};
ghost use Rattle.plain_fabric.specs.Schedule.{cancelling, first_chunk, sending, taking};
ghost use Rattle.plain_fabric.specs.Stepping.{AllPlaced, CanGo, Goes, IsShown};
ghost use Rattle.unit_model.specs.Core.{chunk_number};
ghost use Rattle.unit_model.specs.Limits.{segment_chunks};
ghost use Rattle.unit_model.specs.Opening.{opened_core};
ghost use Rattle.unit_model.specs.Runs.{chunks_for};
ghost use Rattle.unit_model.specs.declared.machine.Step.TheVariants.{Draw};

use crate::contents::{lay, take_out};
use crate::message::Message;
use crate::schedule::{claim, free, post, settling, undo, win};
use crate::words::make_all;
use fabric_words::Layout;
use request_context::{Parcel, Pieces};
use std::alloc::{AllocError, Global};
use unit_model::{Run, SEGMENT_CHUNKS, Shape, Step, chunk_number};
use unit_types::Handlers;

/// The words of a fabric with one engine and one worker, a place for a parcel at each chunk, and
/// the steps that were made.
#[derive(Drop)]
pub(crate) struct Store<H: Handlers> {
    pub(crate) layout: Layout,
    pub(crate) words: Vec<u64>,
    pub(crate) chunks: Vec<Option<Parcel<H>>>,
    pub(crate) trace: Vec<Step>,
    ghost wide: { length words.items ≡ width_of layout.shape },
    ghost deep: { length chunks.items ≡ segment_chunks * segments_of layout.shape },
    ghost plain: { HasOnePair layout.shape },
}

// So many places, none of which holds anything.
fn empty_chunks<H: Handlers>(
    alloc: Global,
    count: usize,
) -> Result<Vec<Option<Parcel<H>>>, AllocError>
    ensures long { IfOk result (λ chunks. length chunks.items ≡ count) }
    ensures empty { IfOk result (λ chunks. HoldNothing chunks.items) }
{
    let mut chunks = Vec::with_capacity(alloc, count)?;
    for _ in 0..count {
        chunks.push(None)?;
    }
    Ok(chunks)
}

// The first chunk of a run, by its number over all segments.
fn first_of(run: Run) -> usize
    ensures { result ≡ chunk_number run.segment run.chunk }
{
    chunk_number(run.segment as u32, run.chunk as u32) as usize
}

impl<H: Handlers> Store<H> {
    /// A fabric that was just made.
    ///
    /// Fails for want of memory alone.
    pub(crate) fn open(alloc: Global, shape: Shape) -> Result<Store<H>, AllocError>
        requires { HasOnePair shape }
        ensures shape { IfOk result (λ store. store.layout.shape ≡ shape) }
        ensures shown { IfOk result (λ store. IsShown shape store.words.items (opened_core shape)) }
        ensures empty { IfOk result (λ store. HoldNothing store.chunks.items) }
        ensures trace { IfOk result (λ store. store.trace.items ≡ []) }
    {
        let layout = Layout::of(shape);
        let words = layout.opened_words(alloc)?;
        let segments = shape.out_segments as usize + shape.back_segments as usize;
        let chunks = empty_chunks(alloc, SEGMENT_CHUNKS as usize * segments)?;
        Ok(Store {
            layout,
            words,
            chunks,
            trace: Vec::new(alloc),
        })
    }

    /// The engine draws a stream.
    ///
    /// Fails for want of memory alone.
    pub(crate) fn draw(&mut self, stream: u64) -> Result<(), AllocError>
        requires { stream < 2 ^ 62 }
        ensures goes { OnOk result (Goes self.old.layout.shape self.old.words.items
            self.new.words.items self.old.trace.items self.new.trace.items
            (Draw 0 stream ∷ [])) }
        ensures chunks { self.new.chunks.items ≡ self.old.chunks.items }
        ensures shape { self.new.layout.shape ≡ self.old.layout.shape }
    {
        self.act(&[Step::Draw { seat: 0, stream }])
    }

    // Makes steps, and puts them behind the trace. What a step releases holds nothing.
    fn act(&mut self, steps: &[Step]) -> Result<(), AllocError>
        requires placed { AllPlaced self.old.layout.shape steps.now }
        requires vacated { AllVacated self.old.chunks.items steps.now }
        ensures goes { OnOk result (Goes self.old.layout.shape self.old.words.items
            self.new.words.items self.old.trace.items self.new.trace.items steps.now) }
        ensures chunks { self.new.chunks.items ≡ self.old.chunks.items }
        ensures shape { self.new.layout.shape ≡ self.old.layout.shape }
    {
        make_all(&self.layout, self.words.as_mut_slice(), steps);
        self.trace.extend_from_slice(steps)
    }

    /// Sends a message: lays the parcels in the chunks that the sender claimed for it.
    ///
    /// Fails for want of memory alone.
    pub(crate) fn send(
        &mut self,
        alloc: Global,
        message: &Message,
        pieces: Pieces<H>,
    ) -> Result<(), AllocError>
        requires can { CanGo self.old.layout.shape message.now }
        requires count { length pieces.parcels ≡ chunks_for message.now.size }
        requires empty { HoldNothing self.old.chunks.items }
        ensures goes { OnOk result (Goes self.old.layout.shape self.old.words.items
            self.new.words.items self.old.trace.items self.new.trace.items
            (sending self.old.layout.shape message.now)) }
        ensures laid { OnOk result (held_from self.new.chunks.items
            (first_chunk self.old.layout.shape message.now) (chunks_for message.now.size)
            ≡ pieces.parcels) }
        ensures beside { OnOk result (HoldNothingBeside self.new.chunks.items
            (first_chunk self.old.layout.shape message.now) (chunks_for message.now.size)) }
        ensures shape { self.new.layout.shape ≡ self.old.layout.shape }
    {
        let shape = self.layout.shape();
        let run = message.run(&shape);
        let mut steps = Vec::new(alloc);
        claim(&mut steps, message.from, run)?;
        self.act(steps.as_slice())?;
        lay(&mut self.chunks, first_of(run), pieces);
        let mut steps = Vec::new(alloc);
        post(&mut steps, &shape, message)?;
        self.act(steps.as_slice())
    }

    /// Takes a message: the parcels that lie in its chunks, which are released.
    ///
    /// Fails for want of memory alone.
    pub(crate) fn take(&mut self, alloc: Global, message: &Message) -> Result<Pieces<H>, AllocError>
        requires can { CanGo self.old.layout.shape message.now }
        requires beside { HoldNothingBeside self.old.chunks.items
            (first_chunk self.old.layout.shape message.now) (chunks_for message.now.size) }
        ensures goes { OnOk result (Goes self.old.layout.shape self.old.words.items
            self.new.words.items self.old.trace.items self.new.trace.items
            (taking self.old.layout.shape message.now)) }
        ensures taken { IfOk result (λ pieces. pieces.parcels ≡ held_from self.old.chunks.items
            (first_chunk self.old.layout.shape message.now) (chunks_for message.now.size)) }
        ensures empty { OnOk result (HoldNothing self.new.chunks.items) }
        ensures shape { self.new.layout.shape ≡ self.old.layout.shape }
    {
        let shape = self.layout.shape();
        let run = message.run(&shape);
        let mut steps = Vec::new(alloc);
        win(&mut steps, &shape, message)?;
        self.act(steps.as_slice())?;
        let count = run.chunk_count();
        let pieces = take_out(&mut self.chunks, alloc, first_of(run), count)?;
        let mut steps = Vec::new(alloc);
        free(&mut steps, &shape, message)?;
        self.act(steps.as_slice())?;
        Ok(pieces)
    }

    /// Takes a message back: its sender settles it, and lets go of the parcels.
    ///
    /// Fails for want of memory alone.
    pub(crate) fn cancel(&mut self, alloc: Global, message: &Message) -> Result<(), AllocError>
        requires can { CanGo self.old.layout.shape message.now }
        requires beside { HoldNothingBeside self.old.chunks.items
            (first_chunk self.old.layout.shape message.now) (chunks_for message.now.size) }
        ensures goes { OnOk result (Goes self.old.layout.shape self.old.words.items
            self.new.words.items self.old.trace.items self.new.trace.items
            (cancelling self.old.layout.shape message.now)) }
        ensures empty { OnOk result (HoldNothing self.new.chunks.items) }
        ensures shape { self.new.layout.shape ≡ self.old.layout.shape }
    {
        let shape = self.layout.shape();
        let run = message.run(&shape);
        self.act(&[settling(&shape, message)])?;
        let count = run.chunk_count();
        let _pieces = take_out(&mut self.chunks, alloc, first_of(run), count)?;
        let mut steps = Vec::new(alloc);
        undo(&mut steps, &shape, message)?;
        self.act(steps.as_slice())
    }
}
