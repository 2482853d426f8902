//! What readers and the writer know of the shown edition: it is of the history that their type names.

use crate::edition::Edition;
use crate::history::Naming;
use crossbeam_utils::rule::{Outcome, Protocol};
use left_right::reader::Reader;
use left_right::writer::Writer;
use std::marker::PhantomData;

/// The rule that the shown edition is of this history.
pub struct Of<J: Naming> {
    of: PhantomData<J>,
}

impl<J: Naming> Protocol<Edition, u64> for Of<J> {
    ghost use Rattle.std.specs.Prelude.{◌≡◌};

    ghost holds = { λ shown views. shown.seen.book ≡ J.history };

    ghost first = { 0 };
}

impl<J: Naming> Outcome<Edition, u64> for Of<J> {
    ghost use Rattle.std.specs.Prelude.{◌≡◌};

    ghost then = { λ v x y w. (x.seen.book ≡ J.history) × (y.seen.book ≡ J.history) };
}

/// Reads editions of this history.
pub type EditionReader<J> = Reader<Edition, u64, Of<J>>;

/// Shows editions of this history, each of which is also the operation that puts it there.
pub type EditionWriter<J> = Writer<Edition, Edition, u64, Of<J>>;
