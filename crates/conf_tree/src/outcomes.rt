//! What the changes answer.

/// What `put` answers.
#[derive(Clone, Copy, Debug, Drop, PartialEq, Eq)]
pub enum Put {
    /// The value stands at the path.
    Done,
    /// The parent isn't there, or has no such item.
    Absent,
}

/// What `append` answers.
#[derive(Clone, Copy, Debug, Drop, PartialEq, Eq)]
pub enum Append {
    /// The value stands behind the items of the array at the path.
    Done,
    /// There is no value at the path.
    Absent,
    /// The value at the path is no array.
    NoArray,
}

/// What `remove` answers.
#[derive(Clone, Copy, Debug, Drop, PartialEq, Eq)]
pub enum Remove {
    /// The value at the path is gone.
    Done,
    /// There is no value at the path.
    Absent,
}
