//! Lists of parcels, with room for more.
ghost use Rattle.std.specs.Prelude.{◌≡◌, ◌≤◌, ◌<◌, ◌+◌, ◌++◌, ◌∷◌, [], length, IfOk, MatchOption, IsTrue};
ghost use Rattle.std.specs.Arc.{arc_value};
ghost use Rattle.std.specs.Option.{option_map};
ghost use Rattle.request_context.specs.Collecting.{carried, carried_by};
ghost use Rattle.request_context.specs.Parcels.{PiecesValue, IsEmptied, bytes_in};

use crate::asked::Asked;
use crate::piece::Parcel;
use std::alloc::{AllocError, Global};
use std::collections::VecDeque;
use std::marker::Model;
use std::sync::Arc;
use unit_types::{Bytes, Handlers};

/// A list of parcels with a spare: how many more it takes in without memory.
#[derive(Drop)]
pub struct Pieces<H: Handlers> {
    parcels: VecDeque<Parcel<H>>,
}

impl<H: Handlers> Model for Pieces<H> {
    ghost use Rattle.std.specs.Prelude.{◌-◌};
    ghost use Rattle.std.specs.VecDeque.{deque_len, deque_capacity};
    ghost use Rattle.request_context.specs.Parcels.{PiecesValue};

    ghost Value = { PiecesValue H };

    ghost view = { λ p. record { parcels = p.parcels.items; spare = deque_capacity p.parcels - deque_len p.parcels } };
}

impl<H: Handlers> Pieces<H> {
    /// An empty list with a spare of at least `n`.
    ///
    /// Fails for want of memory alone.
    pub fn room(alloc: Global, n: u32) -> Result<Pieces<H>, AllocError>
        ensures empty { IfOk result (λ p. p.parcels ≡ []) }
        ensures spare { IfOk result (λ p. n ≤ p.spare) }
    {
        Pieces::with_spare(alloc, n as usize)
    }

    pub(crate) fn with_spare(alloc: Global, n: usize) -> Result<Pieces<H>, AllocError>
        ensures empty { IfOk result (λ p. p.parcels ≡ []) }
        ensures spare { IfOk result (λ p. n ≤ p.spare) }
    {
        Ok(Pieces {
            parcels: VecDeque::with_capacity(alloc, n)?,
        })
    }

    /// How many parcels there are.
    pub fn len(&self) -> usize
        ensures { result ≡ length self.now.parcels }
    {
        self.parcels.len()
    }

    /// How many more parcels it takes in without memory.
    pub fn spare(&self) -> usize
        ensures { result ≡ self.now.spare }
    {
        self.parcels.capacity() - self.parcels.len()
    }

    /// Puts a parcel behind the others, without memory.
    ///
    /// The spare is at least 1, and falls by one.
    pub fn push(&mut self, parcel: Parcel<H>)
        requires { 0 < self.old.spare }
        ensures parcels { self.new.parcels ≡ self.old.parcels ++ parcel ∷ [] }
        ensures spare { self.new.spare + 1 ≡ self.old.spare }
    {
        self.parcels.push_back_reserved(parcel);
    }

    /// Takes the first parcel out, if there is one; the spare rises by one.
    pub fn pop(&mut self) -> Option<Parcel<H>>
        ensures { MatchOption result ((self.old.parcels ≡ []) × (self.new ≡ self.old))
            (λ parcel. (self.old.parcels ≡ parcel ∷ self.new.parcels)
            × (self.new.spare ≡ self.old.spare + 1)) }
    {
        self.parcels.pop_front()
    }

    /// Takes all parcels out and drops them; each raises the spare by one.
    pub fn clear(&mut self)
        ensures { IsEmptied self.old self.new }
    {
        self.parcels.clear();
    }

    /// What the first parcel says was asked, where it is a piece of a reply.
    pub fn asked(&self) -> Option<&Arc<Asked>>
        ensures { option_map (λ asked. arc_value asked.now) result ≡ carried self.now.parcels }
    {
        match self.parcels.front() {
            Some(parcel) => parcel.asked(),
            None => None,
        }
    }

    /// The parcels, as two slices: the second stands behind the first.
    pub fn as_slices(&self) -> (&[Parcel<H>], &[Parcel<H>])
        ensures { result.0.now ++ result.1.now ≡ self.now.parcels }
    {
        self.parcels.as_slices()
    }
}

impl<H: Handlers> Parcel<H> {
    /// What it says was asked, where it is a piece of a reply.
    pub fn asked(&self) -> Option<&Arc<Asked>>
        ensures { option_map (λ asked. arc_value asked.now) result ≡ carried_by self.now }
    {
        match self {
            Parcel::Ask(_) => None,
            Parcel::Answer(piece) => Some(piece.asked()),
        }
    }

    /// The bytes of the parcel.
    pub fn as_slice(&self) -> &[u8]
        ensures { result.now ≡ bytes_in self.now }
    {
        match self {
            Parcel::Ask(bytes) => bytes.as_slice(),
            Parcel::Answer(piece) => piece.bytes(),
        }
    }

    /// The bytes of the parcel, without a copy.
    pub fn into_bytes(self) -> Bytes
        ensures { result ≡ bytes_in self }
    {
        match self {
            Parcel::Ask(bytes) => bytes,
            Parcel::Answer(piece) => {
                let (_asked, bytes) = piece.into_parts();
                bytes
            }
        }
    }
}

fn is_shared<T: Send + Sync>(_value: &T) {}

// Where handlers are sent to threads and shared by them, so are parcels and lists of them.
fn are_shared<H: Handlers + Send + Sync>(parcel: &Parcel<H>, pieces: &Pieces<H>) {
    is_shared(parcel);
    is_shared(pieces);
}
