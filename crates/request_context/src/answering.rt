//! Replies in parts, and these in parcels.
ghost use Rattle.std.specs.Prelude.{◌≡◌, ◌<◌, ◌≤◌, ◌^◌, length, IfOk};
ghost use Rattle.std.specs.Arc.{arc_value};
ghost use Rattle.request_context.specs.Cutting.{record_to, part_count, part_to};
ghost use Rattle.request_context.specs.Parcels.{AreLeft, answer_of, answers_of};
ghost use Rattle.request_context.specs.Parts.{part_size, piece_size, stretch_count};

use crate::asked::Asked;
use crate::piece::{Parcel, Piece};
use crate::pieces::Pieces;
use crate::reply_parts::Parts;
use crate::stretches::{PART_SIZE, count_stretches, stretch};
use crate::writing::write_reply;
use std::alloc::{AllocError, Global};
use std::collections::VecDeque;
use std::sync::Arc;
use unit_types::{Bytes, CHUNK_SIZE, Handlers, Reply};

// Piece `index` of a part, whose bytes are given.
fn answer_piece<H: Handlers>(
    alloc: Global,
    asked: &Arc<Asked>,
    part: u32,
    bytes: &[u8],
    index: u32,
) -> Result<Parcel<H>, AllocError>
    requires part { bytes.now ≡ part_to H.reply_of (arc_value asked.now) part }
    requires within { part < part_count H.reply_of (arc_value asked.now) }
    requires index { index < stretch_count piece_size bytes.now }
    ensures { IfOk result (λ p. p ≡ answer_of H.reply_of (arc_value asked.now) part index) }
{
    let bytes = Bytes::copy_of(alloc, stretch(bytes, CHUNK_SIZE, index as usize))?;
    let asked = Arc::try_clone(asked)?;
    Ok(Parcel::Answer(Piece::of(asked, part, index, bytes)))
}

// The pieces of a part, whose bytes are given.
fn part_pieces<H: Handlers>(
    alloc: Global,
    asked: &Arc<Asked>,
    part: u32,
    bytes: &[u8],
) -> Result<Pieces<H>, AllocError>
    requires part { bytes.now ≡ part_to H.reply_of (arc_value asked.now) part }
    requires within { part < part_count H.reply_of (arc_value asked.now) }
    requires short { length bytes.now ≤ part_size }
    ensures { IfOk result (λ p. p.parcels ≡ answers_of H.reply_of (arc_value asked.now) part) }
{
    let count = count_stretches(bytes, CHUNK_SIZE) as u32;
    let mut pieces = Pieces::room(alloc, count)?;
    for index in 0..count {
        pieces.push(answer_piece(alloc, asked, part, bytes, index)?);
    }
    Ok(pieces)
}

// The pieces of all parts of a reply, whose record is given.
fn all_parts<H: Handlers>(
    alloc: Global,
    asked: &Arc<Asked>,
    bytes: &[u8],
) -> Result<VecDeque<Pieces<H>>, AllocError>
    requires whole { bytes.now ≡ record_to H.reply_of (arc_value asked.now) }
    requires few { stretch_count part_size bytes.now < 2 ^ 32 }
    ensures { IfOk result (λ rest. AreLeft H.reply_of (arc_value asked.now) 0 rest.items) }
{
    let count = count_stretches(bytes, PART_SIZE) as u32;
    let mut rest = VecDeque::with_capacity(alloc, count as usize)?;
    for part in 0..count {
        let of_part = stretch(bytes, PART_SIZE, part as usize);
        rest.push_back(part_pieces(alloc, asked, part, of_part)?)?;
    }
    Ok(rest)
}

/// The parts of the reply to what was asked, of 262,144 bytes of its record each, the last one shorter or equal.
///
/// The reply is that of the handlers `H` to the asked name and request. Fails for want of memory alone.
pub fn parts<H: Handlers>(
    alloc: Global,
    asked: &Arc<Asked>,
    reply: &Reply,
) -> Result<Parts<H>, AllocError>
    requires { reply.now ≡ H.reply_of (arc_value asked.now).name (arc_value asked.now).request }
    ensures { IfOk result (λ parts. parts ≡ record { asked = arc_value asked.now; next = 0 }) }
{
    let bytes = write_reply(alloc, reply)?;
    let rest = all_parts(alloc, asked, bytes.as_slice())?;
    Ok(Parts::over(Arc::try_clone(asked)?, rest))
}
