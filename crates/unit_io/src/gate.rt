//! Points at which a schedule may hold a thread.

use std::sync::Wait;

/// A point of a run.
#[derive(Clone, Copy, Debug, PartialEq, Eq, Drop)]
pub enum Point {
    /// Before an item that was popped at this place is taken.
    BeforeTake(u64),
    /// Before the reply of this stream.
    BeforeReply(u64),
    /// After the reply of this stream.
    AfterReply(u64),
}

/// What may hold the points of a run. It changes no answer.
pub trait Gate {
    /// Returns, at last. It may hold the point for a bounded number of turns of its own loop.
    fn at(&self, point: Point);

    /// Waits as it likes; nothing is claimed.
    fn rest<R: Wait>(&self, rt: &R);
}
