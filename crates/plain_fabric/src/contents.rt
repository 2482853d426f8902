//! Parcels laid in chunks, and taken out.
ghost use Rattle.std.specs.Prelude.{◌≡◌, ◌≤◌, ◌+◌, length, IfOk, OnOk};
ghost use Rattle.plain_fabric.specs.Contents.{HoldNothing, HoldNothingBeside, held_from};

use request_context::{Parcel, Pieces};
use std::alloc::{AllocError, Global};
use unit_types::Handlers;

/// Lays parcels in the chunks from one on, in order.
pub(crate) fn lay<H: Handlers>(
    chunks: &mut Vec<Option<Parcel<H>>>,
    first: usize,
    mut pieces: Pieces<H>,
)
    requires room { first + length pieces.parcels ≤ length chunks.old.items }
    requires empty { HoldNothing chunks.old.items }
    ensures laid { held_from chunks.new.items first (length pieces.parcels) ≡ pieces.parcels }
    ensures beside { HoldNothingBeside chunks.new.items first (length pieces.parcels) }
    ensures long { length chunks.new.items ≡ length chunks.old.items }
{
    for index in 0..pieces.len() {
        let Some(parcel) = pieces.pop() else {
            unreachable!();
        };
        chunks[first + index] = Some(parcel);
    }
}

/// Takes out what so many chunks from one on hold, in order.
///
/// Fails for want of memory alone.
pub(crate) fn take_out<H: Handlers>(
    chunks: &mut Vec<Option<Parcel<H>>>,
    alloc: Global,
    first: usize,
    count: u32,
) -> Result<Pieces<H>, AllocError>
    requires room { first + count ≤ length chunks.old.items }
    requires beside { HoldNothingBeside chunks.old.items first count }
    ensures taken { IfOk result (λ pieces. pieces.parcels ≡ held_from chunks.old.items first count) }
    ensures empty { OnOk result (HoldNothing chunks.new.items) }
    ensures long { length chunks.new.items ≡ length chunks.old.items }
{
    let mut pieces = Pieces::room(alloc, count)?;
    for index in 0..count {
        if let Some(parcel) = chunks[first + index as usize].take() {
            pieces.push(parcel);
        }
    }
    Ok(pieces)
}
