//! What a look at a status book gives.

/// The counts of up to four engines. Each was its word at one step of the call that looked, so this is a list of looks and not
/// one moment.
#[derive(Clone, Copy, Debug, Drop)]
pub struct Looks {
    /// Place `8 * engine + kind` has the count of a kind of an engine; past the last engine all are 0. The kinds are, from 0
    /// on: connections that have ended, and requests that ended as App, Busy, Cut, Gone, Late, Memory, Own.
    pub counts: [u64; 32],
}
