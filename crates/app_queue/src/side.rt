//! The two rings of a queue.

/// A ring of a queue.
#[derive(Clone, Copy, Debug, PartialEq, Eq, Drop)]
pub enum Side {
    /// The items that nobody has.
    Free,
    /// The items that were pushed.
    Line,
}
