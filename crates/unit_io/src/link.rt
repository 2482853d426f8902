//! Where connections come from.
ghost use Rattle.std.specs.Prelude.{◌≡◌, ◌≢◌, ◌↔◌, ◌∷◌, [], ℕ, List, Option};
ghost use Rattle.unit_io.specs.Causes.{Rose};
ghost use Rattle.unit_io.specs.Told.{Adds, IsAtEnd};

use crate::conn::Conn;
use std::sync::Wait;

/// What a link gives.
#[derive(Drop)]
pub enum Accepted<C> {
    /// A new connection.
    Conn(C),
    /// No more connections come.
    End,
    /// None is there yet.
    NotYet,
    /// The link counted a fault.
    Failed,
}

/// Where connections come from.
///
/// `handed` are the numbers of the connections that were handed out, where the link tells them. `faults` counts what went
/// wrong and `waits` the answers `NotYet`; neither falls, and at `u64::MAX` each stands still.
pub trait Link: Drop {
    /// Its connections.
    type Conn: Conn;

    /// The numbers of the connections that were handed out, where they are told.
    ghost handed: { Self → Option (List ℕ) };

    /// An accept answered `End`: no more connections come.
    ghost at_end: { Self → Type 0 };

    /// The last accept answered `NotYet`: no connection was there.
    ghost idle: { Self → Type 0 };

    /// How many calls failed.
    ghost faults: { Self → ℕ };

    /// How many calls answered `NotYet`.
    ghost waits: { Self → ℕ };

    /// The next connection.
    ///
    /// `NotYet` and `Failed` come only where their counts rose in this call. The link is idle exactly behind a `NotYet`, and
    /// no answer but `End` brings it to its end or back from there.
    fn accept(&mut self) -> Accepted<Self::Conn>
        ensures conn { (c : Self.Conn) → result ≡ Accepted.Conn c
            → Adds (handed self.old) (handed self.new) (Self.Conn.number c ∷ []) }
        ensures fresh_came { (c : Self.Conn) → result ≡ Accepted.Conn c
            → IsAtEnd (Self.Conn.came c) }
        ensures fresh_went { (c : Self.Conn) → result ≡ Accepted.Conn c
            → IsAtEnd (Self.Conn.went c) }
        ensures fresh_faults { (c : Self.Conn) → result ≡ Accepted.Conn c → Self.Conn.faults c ≡ 0 }

        ensures end { result ≡ Accepted.End → at_end self.new }
        ensures end_handed { result ≡ Accepted.End → handed self.new ≡ handed self.old }
        ensures kept_end { result ≢ Accepted.End → (at_end self.new ↔ at_end self.old) }

        ensures not_yet { result ≡ Accepted.NotYet → Rose (waits self.old) (waits self.new) }
        ensures not_yet_idle { result ≡ Accepted.NotYet → idle self.new }
        ensures not_yet_handed { result ≡ Accepted.NotYet → handed self.new ≡ handed self.old }
        ensures ready { result ≢ Accepted.NotYet → waits self.new ≡ waits self.old }
        ensures not_idle { result ≢ Accepted.NotYet → idle self.new → ⊥ }

        ensures failed { result ≡ Accepted.Failed → Rose (faults self.old) (faults self.new) }
        ensures failed_handed { result ≡ Accepted.Failed → handed self.new ≡ handed self.old }
        ensures sound { result ≢ Accepted.Failed → faults self.new ≡ faults self.old };

    /// Waits until a connection may be there. All meanings and counts stay.
    fn rest<R: Wait>(&mut self, rt: &R)
        ensures handed { handed self.new ≡ handed self.old }
        ensures at_end { at_end self.new ↔ at_end self.old }
        ensures idle { idle self.new ↔ idle self.old }
        ensures faults { faults self.new ≡ faults self.old }
        ensures waits { waits self.new ≡ waits self.old };
}
