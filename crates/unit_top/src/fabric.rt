//! The fabric through which a command asks the handlers, which one thread plays.
ghost use Rattle.std.specs.Prelude.{List, ℕ, IfOk};
ghost use Rattle.plain_fabric.specs.Plains.{PlainValue};
ghost use Rattle.unit_top.specs.Posting.{HasPosted, IsFresh, Post};
ghost use Rattle.unit_top.specs.declared.fabric.Output.TheVariants.{Steps};
ghost use Rattle.unit_types.specs.declared.message.Reply.{Reply};
ghost use Rattle.unit_types.specs.declared.message.Request.{Request};

use plain_fabric::Plain;
use std::alloc::{AllocError, Global};
use unit_model::Shape;
use unit_types::Handlers;

/// What a command writes of the requests that it asks.
#[derive(Clone, Copy, Debug, Drop)]
pub enum Output {
    /// Their replies. The steps of each request are forgotten behind it.
    Replies,
    /// Their steps, which are kept till they are written.
    Steps,
}

const PLAIN: Shape = Shape {
    items: 8,
    back_items: 8,
    out_segments: 1,
    back_segments: 1,
    engines: 1,
    workers: 1,
    start: 8,
};

/// A fabric of the plain shape.
///
/// Fails for want of memory alone.
pub(crate) fn open_fabric<H: Handlers>(alloc: Global) -> Result<Plain<H>, AllocError>
    ensures { IfOk result (λ plain. IsFresh plain) }
{
    Plain::open(alloc, &PLAIN)
}

/// Behind a request: forgets its steps, where replies are written.
pub(crate) fn keep_steps<H: Handlers>(output: Output, plain: &mut Plain<H>)
    ensures { (reply_of : List ℕ → Request → Reply) (posts : List Post) (before : PlainValue)
        → HasPosted Steps reply_of posts before plain.old
        → HasPosted output reply_of posts before plain.new }
{
    match output {
        Output::Replies => plain.forget_trace(),
        Output::Steps => {}
    }
}
