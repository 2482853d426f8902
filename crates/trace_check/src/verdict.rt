//! What a check answers.

/// The verdict of a trace.
#[derive(Clone, Copy, Debug, PartialEq, Eq, Drop)]
pub enum Verdict {
    /// A line isn't of a trace's forms. It begins at this byte.
    Broken(u64),
    /// A step isn't enabled: its line, counted from 1, and the first of its conditions that isn't met, with what that one
    /// wants and what was found.
    Illegal {
        line: u64,
        rule: u8,
        want: u64,
        found: u64,
    },
    /// Each step is enabled in its turn: how many steps there are; how many chunks are free, and how many there are; and how
    /// many streams were drawn, and of these accepted, cancelled, abandoned, never posted, and open at the end.
    Legal {
        steps: u64,
        free: u64,
        chunks: u64,
        drawn: u64,
        accepted: u64,
        cancelled: u64,
        abandoned: u64,
        refused: u64,
        left_open: u64,
    },
}

/// The numbers of a core in which a legal trace ends.
#[derive(Clone, Copy, Debug, Drop)]
pub(crate) struct Tally {
    /// Chunks that no one has.
    pub(crate) free: u64,
    /// All chunks.
    pub(crate) chunks: u64,
    /// Streams that were drawn, and of these those that follow.
    pub(crate) drawn: u64,
    /// Their last part was received, and they weren't abandoned.
    pub(crate) accepted: u64,
    /// They were taken back.
    pub(crate) cancelled: u64,
    /// They were given up.
    pub(crate) abandoned: u64,
    /// They were never posted.
    pub(crate) refused: u64,
    /// They were posted, and are none of accepted, cancelled and abandoned.
    pub(crate) left_open: u64,
}

/// What became of a stream that was drawn.
#[derive(Clone, Copy, Debug, Drop)]
pub(crate) enum Outcome {
    /// Anything.
    Drawn,
    /// Its engine received its last part, and hasn't given it up.
    Accepted,
    /// Its engine took it back.
    Cancelled,
    /// Its engine gave it up.
    Abandoned,
    /// It was never posted.
    Refused,
    /// It was posted, and is none of accepted, cancelled and abandoned.
    LeftOpen,
}
