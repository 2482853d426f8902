//! Records and replies on their way through a fabric.
ghost use Rattle.std.specs.Prelude.{◌≡◌, ◌≤◌, ◌+◌, ◌-◌, ◌*◌, ◌<◌, ◌^◌, ◌++◌, ◌∷◌, [], length, min, IfOk, OnOk, Some};
ghost use Rattle.plain_fabric.specs.Contents.{HoldNothing, HoldNothingBeside, held_from};
ghost use Rattle.plain_fabric.specs.Laws.{most_parts};
ghost use Rattle.plain_fabric.specs.Plains.{sizes_of};
ghost use Rattle.plain_fabric.specs.Schedule.{answered_steps, first_chunk, hung_up_steps, part_steps, request_message, sending, taking};
ghost use Rattle.plain_fabric.specs.Stepping.{CanGo, Goes};
ghost use Rattle.request_context.specs.Parcels.{joined};
ghost use Rattle.request_context.specs.declared.asked.Asked.{Asked};
ghost use Rattle.request_context.specs.Record.{IsAddr, IsRecordOf, IsRecordable, asked_with, request_record};
ghost use Rattle.unit_model.specs.Runs.{chunks_for};
ghost use Rattle.unit_model.specs.declared.machine.Step.TheVariants.{Draw};

use crate::message::Message;
use crate::store::Store;
use request_context::{
    Asked, Collector, Parcel, Part, Parts, Pieces, ask_bytes, ask_pieces, parts, read_record,
    record_of,
};
use std::alloc::{AllocError, Global};
use std::sync::Arc;
use unit_types::{Bytes, Handlers, Reply, Request};

// How many bytes the parcels have, or the greatest number where they have more than that.
fn size_of_parcels<H: Handlers>(parcels: &[Parcel<H>]) -> usize
    ensures { result ≡ min (length (joined parcels.now)) (2 ^ 64 - 1) }
{
    let mut size = 0usize;
    for parcel in parcels {
        size = size.saturating_add(parcel.as_slice().len());
    }
    size
}

fn size_of<H: Handlers>(pieces: &Pieces<H>) -> u32
    requires { length (joined pieces.now.parcels) < 2 ^ 32 }
    ensures { result ≡ length (joined pieces.now.parcels) }
{
    let (front, back) = pieces.as_slices();
    size_of_parcels(front).saturating_add(size_of_parcels(back)) as u32
}

// The engine posts the pieces of a request's record.
fn post<H: Handlers>(
    store: &mut Store<H>,
    alloc: Global,
    drawn: u64,
    posted: &Bytes,
) -> Result<Message, AllocError>
    requires early { drawn < 2 ^ 48 }
    requires fits { length posted.now ≤ 10485760 }
    requires empty { HoldNothing store.old.chunks.items }
    ensures message { IfOk result (λ m. m ≡ request_message drawn (length posted.now)) }
    ensures goes { OnOk result (Goes store.old.layout.shape store.old.words.items
        store.new.words.items store.old.trace.items store.new.trace.items
        (Draw 0 (drawn + 1) ∷ sending store.old.layout.shape
        (request_message drawn (length posted.now)))) }
    ensures laid { OnOk result (joined (held_from store.new.chunks.items
        (first_chunk store.old.layout.shape (request_message drawn (length posted.now)))
        (chunks_for (length posted.now))) ≡ posted.now) }
    ensures beside { OnOk result (HoldNothingBeside store.new.chunks.items
        (first_chunk store.old.layout.shape (request_message drawn (length posted.now)))
        (chunks_for (length posted.now))) }
    ensures shape { store.new.layout.shape ≡ store.old.layout.shape }
{
    let message = Message::of_request(drawn, posted.as_slice().len() as u32);
    let pieces = ask_pieces(alloc, posted)?;
    store.draw(message.stream)?;
    store.send(alloc, &message, pieces)?;
    Ok(message)
}

// The worker takes the pieces of a request's record, and reads it.
fn read<H: Handlers>(
    store: &mut Store<H>,
    alloc: Global,
    message: &Message,
) -> Result<Asked, AllocError>
    requires can { CanGo store.old.layout.shape message.now }
    requires beside { HoldNothingBeside store.old.chunks.items
        (first_chunk store.old.layout.shape message.now) (chunks_for message.now.size) }
    requires laid { (asked : Asked) × IsRecordOf (joined (held_from store.old.chunks.items
        (first_chunk store.old.layout.shape message.now) (chunks_for message.now.size)))
        (Some asked) }
    ensures asked { IfOk result (λ found. (asked : Asked)
        → IsRecordOf (joined (held_from store.old.chunks.items
        (first_chunk store.old.layout.shape message.now) (chunks_for message.now.size)))
        (Some asked) → found ≡ asked) }
    ensures goes { OnOk result (Goes store.old.layout.shape store.old.words.items
        store.new.words.items store.old.trace.items store.new.trace.items
        (taking store.old.layout.shape message.now)) }
    ensures empty { OnOk result (HoldNothing store.new.chunks.items) }
    ensures shape { store.new.layout.shape ≡ store.old.layout.shape }
{
    let mut pieces = store.take(alloc, message)?;
    let bytes = ask_bytes(alloc, &mut pieces)?;
    match read_record(alloc, bytes.as_slice())? {
        Some(asked) => Ok(asked),
        None => unreachable!(),
    }
}

// The worker sends the pieces of a part, and the engine takes them.
fn pass<H: Handlers>(
    store: &mut Store<H>,
    alloc: Global,
    message: &Message,
    pieces: Pieces<H>,
) -> Result<Pieces<H>, AllocError>
    requires can { CanGo store.old.layout.shape message.now }
    requires count { length pieces.parcels ≡ chunks_for message.now.size }
    requires empty { HoldNothing store.old.chunks.items }
    ensures same { IfOk result (λ taken. taken.parcels ≡ pieces.parcels) }
    ensures goes { OnOk result (Goes store.old.layout.shape store.old.words.items
        store.new.words.items store.old.trace.items store.new.trace.items
        (sending store.old.layout.shape message.now
        ++ taking store.old.layout.shape message.now)) }
    ensures empty { OnOk result (HoldNothing store.new.chunks.items) }
    ensures shape { store.new.layout.shape ≡ store.old.layout.shape }
{
    store.send(alloc, message, pieces)?;
    store.take(alloc, message)
}

// All parts go to the engine, which collects them. Gives the reply, and how many parts were sent
// then.
fn collect<H: Handlers>(
    store: &mut Store<H>,
    alloc: Global,
    drawn: u64,
    mut sent: u64,
    parts: &mut Parts<H>,
    collector: &mut Collector<H>,
) -> Result<(Reply, u64), AllocError>
    requires early { (drawn < 2 ^ 48) × (sent ≤ most_parts * drawn) }
    requires begins { parts.old.next ≡ 0 }
    requires awaits { collector.old ≡ record { asked = parts.old.asked; next = 0 } }
    requires stream { parts.old.asked.stream ≡ drawn + 1 }
    requires empty { HoldNothing store.old.chunks.items }
    ensures reply { IfOk result (λ told. told.0
        ≡ H.reply_of parts.old.asked.name parts.old.asked.request) }
    ensures sent { IfOk result (λ told. told.1 ≡ sent
        + length (sizes_of (H.reply_of parts.old.asked.name parts.old.asked.request))) }
    ensures goes { OnOk result (Goes store.old.layout.shape store.old.words.items
        store.new.words.items store.old.trace.items store.new.trace.items
        (part_steps store.old.layout.shape drawn sent 0
        (sizes_of (H.reply_of parts.old.asked.name parts.old.asked.request)))) }
    ensures empty { OnOk result (HoldNothing store.new.chunks.items) }
    ensures shape { store.new.layout.shape ≡ store.old.layout.shape }
{
    while let Some((number, last, pieces)) = parts.next() {
        let message = Message::of_part(drawn, sent, number, last, size_of(&pieces));
        let mut pieces = pass(store, alloc, &message, pieces)?;
        sent += 1;
        match collector.accept(alloc, drawn + 1, number, last, &mut pieces)? {
            Part::Whole(reply) => return Ok((reply, sent)),
            Part::More => {}
            Part::Stranger(_) => unreachable!(),
        }
    }
    unreachable!()
}

// The numbers of an address are within their types.
fn look_at(ip: u32, port: u16)
    ensures { (ip < 2 ^ 32) × (port < 2 ^ 16) }
{}

// And so are those of a request's addresses.
fn look_at_addresses(request: &Request)
    ensures { (IsAddr request.now.from) × (IsAddr request.now.to) }
{
    look_at(request.from.ip, request.from.port);
    look_at(request.to.ip, request.to.port);
}

/// A request goes to the worker, and the reply of the handlers comes back: the reply, and how many
/// parts were sent then.
///
/// Fails for want of memory alone.
pub(crate) fn answer<H: Handlers>(
    store: &mut Store<H>,
    alloc: Global,
    handlers: &H,
    counts: (u64, u64),
    name: &[u8],
    request: &Request,
) -> Result<(Reply, u64), AllocError>
    requires early { (counts.0 < 2 ^ 48) × (counts.1 ≤ most_parts * counts.0) }
    requires written { IsRecordable (asked_with (counts.0 + 1) name.now request.now) }
    requires fits { length (request_record (asked_with (counts.0 + 1) name.now request.now))
        ≤ 10485760 }
    requires empty { HoldNothing store.old.chunks.items }
    ensures reply { IfOk result (λ told. told.0 ≡ H.reply_of name.now request.now) }
    ensures sent { IfOk result (λ told. told.1 ≡ counts.1
        + length (sizes_of (H.reply_of name.now request.now))) }
    ensures goes { OnOk result (Goes store.old.layout.shape store.old.words.items
        store.new.words.items store.old.trace.items store.new.trace.items
        (answered_steps store.old.layout.shape counts.0 counts.1
        (length (request_record (asked_with (counts.0 + 1) name.now request.now)))
        (sizes_of (H.reply_of name.now request.now)))) }
    ensures empty { OnOk result (HoldNothing store.new.chunks.items) }
    ensures shape { store.new.layout.shape ≡ store.old.layout.shape }
{
    look_at_addresses(request);
    let (drawn, sent) = counts;
    let posted = record_of(alloc, drawn + 1, name, request)?;
    let message = post(store, alloc, drawn, &posted)?;
    let mut collector = Collector::over(alloc, posted);
    let asked = read(store, alloc, &message)?;
    let reply = handlers.reply(alloc, asked.name.as_slice(), &asked.request)?;
    let asked = Arc::new(alloc, asked)?;
    let mut parts = parts(alloc, &asked, &reply)?;
    collect(store, alloc, drawn, sent, &mut parts, &mut collector)
}

/// A request is posted and cancelled.
///
/// Fails for want of memory alone.
pub(crate) fn withdraw<H: Handlers>(
    store: &mut Store<H>,
    alloc: Global,
    drawn: u64,
    name: &[u8],
    request: &Request,
) -> Result<(), AllocError>
    requires early { drawn < 2 ^ 48 }
    requires written { IsRecordable (asked_with (drawn + 1) name.now request.now) }
    requires fits { length (request_record (asked_with (drawn + 1) name.now request.now))
        ≤ 10485760 }
    requires empty { HoldNothing store.old.chunks.items }
    ensures goes { OnOk result (Goes store.old.layout.shape store.old.words.items
        store.new.words.items store.old.trace.items store.new.trace.items
        (hung_up_steps store.old.layout.shape drawn
        (length (request_record (asked_with (drawn + 1) name.now request.now))))) }
    ensures empty { OnOk result (HoldNothing store.new.chunks.items) }
    ensures shape { store.new.layout.shape ≡ store.old.layout.shape }
{
    let posted = record_of(alloc, drawn + 1, name, request)?;
    let message = post(store, alloc, drawn, &posted)?;
    store.cancel(alloc, &message)
}
