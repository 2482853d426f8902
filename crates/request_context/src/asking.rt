//! Request records in parcels, and back.
ghost use Rattle.std.specs.Prelude.{◌≡◌, ◌≤◌, ◌*◌, ◌++◌, length, IfOk, OnOk, OnErr};
ghost use Rattle.request_context.specs.declared.piece.Parcel.TheVariants.{Ask};
ghost use Rattle.request_context.specs.Parts.{piece_size, stretch_of};
ghost use Rattle.request_context.specs.Parcels.{IsEmptied, asks_of, joined};

use crate::piece::Parcel;
use crate::pieces::Pieces;
use crate::stretches::{count_stretches, stretch};
use std::alloc::{AllocError, Global};
use unit_types::{Bytes, CHUNK_SIZE, Handlers};

// Piece `index` of a record.
fn ask_piece<H: Handlers>(
    alloc: Global,
    bytes: &[u8],
    index: usize,
) -> Result<Parcel<H>, AllocError>
    requires { piece_size * index ≤ length bytes.now }
    ensures { IfOk result (λ parcel. parcel ≡ Ask (stretch_of piece_size bytes.now index)) }
{
    let piece = Bytes::copy_of(alloc, stretch(bytes, CHUNK_SIZE, index))?;
    Ok(Parcel::Ask(piece))
}

/// The pieces of a request record: `Ask` parcels of 16,384 bytes each, the last one shorter or equal.
///
/// Fails for want of memory alone.
pub fn ask_pieces<H: Handlers>(alloc: Global, bytes: &Bytes) -> Result<Pieces<H>, AllocError>
    ensures { IfOk result (λ pieces. pieces.parcels ≡ asks_of bytes.now) }
{
    let bytes = bytes.as_slice();
    let count = count_stretches(bytes, CHUNK_SIZE);
    let mut pieces = Pieces::with_spare(alloc, count)?;
    for index in 0..count {
        pieces.push(ask_piece(alloc, bytes, index)?);
    }
    Ok(pieces)
}

// How many bytes the parcels have: the room to ask for, or the greatest number where they have more than that.
fn size_of_parcels<H: Handlers>(parcels: &[Parcel<H>]) -> usize {
    let mut size = 0usize;
    for parcel in parcels {
        size = size.saturating_add(parcel.as_slice().len());
    }
    size
}

fn put_parcels<H: Handlers>(out: &mut Vec<u8>, parcels: &[Parcel<H>]) -> Result<(), AllocError>
    ensures { OnOk result (out.new.items ≡ out.old.items ++ joined parcels.now) }
{
    for parcel in parcels {
        out.extend_from_slice(parcel.as_slice())?;
    }
    Ok(())
}

// Puts the bytes of all parcels behind those that are there.
pub(crate) fn put_pieces<H: Handlers>(
    out: &mut Vec<u8>,
    pieces: &Pieces<H>,
) -> Result<(), AllocError>
    ensures { OnOk result (out.new.items ≡ out.old.items ++ joined pieces.now.parcels) }
{
    let (front, back) = pieces.as_slices();
    put_parcels(out, front)?;
    put_parcels(out, back)
}

// How many bytes all parcels have: the room to ask for.
pub(crate) fn size_of_pieces<H: Handlers>(pieces: &Pieces<H>) -> usize {
    let (first, second) = pieces.as_slices();
    size_of_parcels(first).saturating_add(size_of_parcels(second))
}

/// The bytes of the parcels, joined in order; `pieces` is emptied.
///
/// Fails for want of memory alone; `pieces` is then as before.
pub fn ask_bytes<H: Handlers>(alloc: Global, pieces: &mut Pieces<H>) -> Result<Bytes, AllocError>
    ensures bytes { IfOk result (λ bytes. bytes ≡ joined pieces.old.parcels) }
    ensures emptied { OnOk result (IsEmptied pieces.old pieces.new) }
    ensures kept { OnErr result (pieces.new ≡ pieces.old) }
{
    let mut bytes = Vec::with_capacity(alloc, size_of_pieces(pieces))?;
    put_pieces(&mut bytes, pieces)?;
    pieces.clear();
    Ok(Bytes::of(bytes))
}
