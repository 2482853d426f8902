//! What a chunk holds.
ghost use Rattle.std.specs.Prelude.{◌≡◌};
ghost use Rattle.std.specs.Arc.{arc_value};
ghost use Rattle.request_context.specs.Cutting.{PieceValue, IsPiece};

use crate::asked::Asked;
use std::marker::{Model, PhantomData};
use std::sync::Arc;
use unit_types::{Bytes, Handlers};

/// A piece of the reply of the handlers `H`: of its record, the piece `index` of the part `part`, 1 to 16,384 bytes.
///
/// That the record has this part and the part this piece, and that the bytes are those of it, is part of the type: where it
/// isn't shown, no piece is made.
#[derive(Drop)]
pub struct Piece<H: Handlers> {
    asked: Arc<Asked>,
    part: u32,
    index: u32,
    bytes: Bytes,
    handlers: PhantomData<H>,
}

impl<H: Handlers> Model for Piece<H> {
    ghost use Rattle.std.specs.Arc.{arc_value};
    ghost use Rattle.request_context.specs.Cutting.{PieceValue, IsPiece};

    ghost Value = { PieceValue };

    ghost view = { λ p. record { asked = arc_value p.asked; part = p.part; index = p.index; bytes = p.bytes } };

    ghost invariant = { λ p. IsPiece H.reply_of (arc_value p.asked) p.part p.index p.bytes };
}

impl<H: Handlers> Piece<H> {
    /// The piece with these numbers and bytes.
    ///
    /// There is such a piece, and the bytes are those of it.
    pub fn of(asked: Arc<Asked>, part: u32, index: u32, bytes: Bytes) -> Piece<H>
        requires { IsPiece H.reply_of (arc_value asked) part index bytes }
        ensures { result ≡ record {
          asked = arc_value asked;
          part = part;
          index = index;
          bytes = bytes;
        } }
    {
        Piece {
            asked,
            part,
            index,
            bytes,
            handlers: PhantomData,
        }
    }

    /// What was asked.
    pub fn asked(&self) -> &Arc<Asked>
        ensures { arc_value result.now ≡ self.now.asked }
    {
        &self.asked
    }

    /// The number of the part, from 0.
    pub fn part(&self) -> u32
        ensures { result ≡ self.now.part }
    {
        self.part
    }

    /// The number of the piece in its part, from 0.
    pub fn index(&self) -> u32
        ensures { result ≡ self.now.index }
    {
        self.index
    }

    /// The bytes, which are those of this piece of this part of the reply to what was asked; there is such a piece.
    pub fn bytes(&self) -> &[u8]
        ensures value { result.now ≡ self.now.bytes }
        ensures kept { IsPiece H.reply_of self.now.asked self.now.part self.now.index
            self.now.bytes }
    {
        self.bytes.as_slice()
    }

    /// What was asked, and the bytes.
    pub fn into_parts(self) -> (Arc<Asked>, Bytes)
        ensures asked { arc_value result.0 ≡ self.asked }
        ensures bytes { result.1 ≡ self.bytes }
    {
        (self.asked, self.bytes)
    }
}

/// The content of one chunk.
#[derive(Drop)]
pub enum Parcel<H: Handlers> {
    /// A piece of a request record.
    Ask(Bytes),
    /// A piece of a reply record.
    Answer(Piece<H>),
}
