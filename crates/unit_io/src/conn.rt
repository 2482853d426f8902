//! A connection and what it was.
ghost use Rattle.std.specs.Prelude.{◌≡◌, ◌≢◌, ◌≤◌, ◌<◌, ◌⊎◌, ℕ, List, length, take, drop, Option, IsTrue, Bool, true};
ghost use Rattle.unit_types.specs.declared.message.Addr.{Addr};
ghost use Rattle.unit_io.specs.Causes.{Rose};
ghost use Rattle.unit_io.specs.Told.{Adds};

use unit_types::Addr;

/// What a connection was: its meanings alone, as it had them when it was closed.
pub trait Ticket {
    /// The connection's number.
    ghost number: { Self → ℕ };

    /// The name of the listener that accepted it.
    ghost listener_name: { Self → List ℕ };

    /// The client's address.
    ghost from_addr: { Self → Addr };

    /// The address at which it was accepted.
    ghost to_addr: { Self → Addr };

    /// The bytes that came, where they are told.
    ghost came: { Self → Option (List ℕ) };

    /// The bytes that went, where they are told.
    ghost went: { Self → Option (List ℕ) };

    /// Whether End was answered.
    ghost ended: { Self → Bool };

    /// How many calls failed.
    ghost faults: { Self → ℕ };
}

/// What a read of a connection gives.
#[derive(Clone, Copy, Debug, PartialEq, Eq, Drop)]
pub enum ConnRead {
    /// So many bytes came, at least one.
    Got(usize),
    /// No more bytes come.
    End,
    /// None are there yet.
    NotYet,
    /// The connection counted a fault.
    Failed,
}

/// What a write to a connection gives.
#[derive(Clone, Copy, Debug, PartialEq, Eq, Drop)]
pub enum ConnWrite {
    /// So many bytes went, at least one.
    Wrote(usize),
    /// None can go yet.
    NotYet,
    /// The connection counted a fault.
    Failed,
}

/// What a look at a connection gives.
#[derive(Clone, Copy, Debug, PartialEq, Eq, Drop)]
pub enum ConnCheck {
    /// Nothing speaks against it.
    Alive,
    /// The connection counted a fault.
    Failed,
}

/// A connection.
///
/// `came` and `went` are the bytes that came and went so far, where the connection tells them. `faults` counts what went
/// wrong and `waits` the answers `NotYet`; neither falls, and at `u64::MAX` each stands still. Number, listener and
/// addresses never change. A call changes only what its clauses say.
pub trait Conn: Drop {
    /// What is left of it once it is closed.
    type Ticket: Ticket + Send + Drop;

    /// Its number.
    ghost number: { Self → ℕ };

    /// The name of the listener that accepted it.
    ghost listener_name: { Self → List ℕ };

    /// The client's address.
    ghost from_addr: { Self → Addr };

    /// The address at which it was accepted.
    ghost to_addr: { Self → Addr };

    /// The bytes that came so far, where they are told.
    ghost came: { Self → Option (List ℕ) };

    /// The bytes that went so far, where they are told.
    ghost went: { Self → Option (List ℕ) };

    /// Whether End was answered.
    ghost ended: { Self → Bool };

    /// How many calls failed.
    ghost faults: { Self → ℕ };

    /// How many calls answered `NotYet`.
    ghost waits: { Self → ℕ };

    /// Moves bytes that came into the front of `buf`; what lies behind them in `buf` stays. After `End` it answers `End` or
    /// `Failed` alone.
    ///
    /// `NotYet` and `Failed` come only where their counts rose in this call. Then, as at `End`, no byte was moved, and all of
    /// `buf` stays.
    fn read(&mut self, buf: &mut [u8]) -> ConnRead
        requires { 0 < length buf.old }

        ensures some { (n : ℕ) → result ≡ ConnRead.Got n → (1 ≤ n) × (n ≤ length buf.old) }
        ensures got { (n : ℕ) → result ≡ ConnRead.Got n
            → Adds (came self.old) (came self.new) (take n buf.new) }
        ensures open { (n : ℕ) → result ≡ ConnRead.Got n → ended self.new ≡ ended self.old }
        ensures size { length buf.new ≡ length buf.old }
        ensures behind { (n : ℕ) → result ≡ ConnRead.Got n → drop n buf.new ≡ drop n buf.old }

        ensures end { result ≡ ConnRead.End → ended self.new ≡ true }
        ensures end_came { result ≡ ConnRead.End → came self.new ≡ came self.old }
        ensures end_buf { result ≡ ConnRead.End → buf.new ≡ buf.old }
        ensures past_end { ended self.old ≡ true
            → (result ≡ ConnRead.End) ⊎ (result ≡ ConnRead.Failed) }

        ensures not_yet { result ≡ ConnRead.NotYet → Rose (waits self.old) (waits self.new) }
        ensures not_yet_came { result ≡ ConnRead.NotYet → came self.new ≡ came self.old }
        ensures not_yet_buf { result ≡ ConnRead.NotYet → buf.new ≡ buf.old }
        ensures not_yet_open { result ≡ ConnRead.NotYet → ended self.new ≡ ended self.old }
        ensures ready { result ≢ ConnRead.NotYet → waits self.new ≡ waits self.old }

        ensures failed { result ≡ ConnRead.Failed → Rose (faults self.old) (faults self.new) }
        ensures failed_came { result ≡ ConnRead.Failed → came self.new ≡ came self.old }
        ensures failed_buf { result ≡ ConnRead.Failed → buf.new ≡ buf.old }
        ensures failed_open { result ≡ ConnRead.Failed → ended self.new ≡ ended self.old }
        ensures sound { result ≢ ConnRead.Failed → faults self.new ≡ faults self.old }

        ensures went { went self.new ≡ went self.old }
        ensures number { number self.new ≡ number self.old }
        ensures listener { listener_name self.new ≡ listener_name self.old }
        ensures addresses { (from_addr self.new ≡ from_addr self.old)
            × (to_addr self.new ≡ to_addr self.old) };

    /// Takes bytes from the front of `bytes`.
    ///
    /// `NotYet` and `Failed` come only where their counts rose in this call; then no byte was taken.
    fn write(&mut self, bytes: &[u8]) -> ConnWrite
        requires { 0 < length bytes.now }

        ensures some { (n : ℕ) → result ≡ ConnWrite.Wrote n → (1 ≤ n) × (n ≤ length bytes.now) }
        ensures wrote { (n : ℕ) → result ≡ ConnWrite.Wrote n
            → Adds (went self.old) (went self.new) (take n bytes.now) }

        ensures not_yet { result ≡ ConnWrite.NotYet → Rose (waits self.old) (waits self.new) }
        ensures not_yet_went { result ≡ ConnWrite.NotYet → went self.new ≡ went self.old }
        ensures ready { result ≢ ConnWrite.NotYet → waits self.new ≡ waits self.old }

        ensures failed { result ≡ ConnWrite.Failed → Rose (faults self.old) (faults self.new) }
        ensures failed_went { result ≡ ConnWrite.Failed → went self.new ≡ went self.old }
        ensures sound { result ≢ ConnWrite.Failed → faults self.new ≡ faults self.old }

        ensures came { came self.new ≡ came self.old }
        ensures ended { ended self.new ≡ ended self.old }
        ensures number { number self.new ≡ number self.old }
        ensures listener { listener_name self.new ≡ listener_name self.old }
        ensures addresses { (from_addr self.new ≡ from_addr self.old)
            × (to_addr self.new ≡ to_addr self.old) };

    /// Looks whether the connection still stands. No byte moves.
    ///
    /// `Failed` comes only where the count of faults rose in this call.
    fn check(&mut self) -> ConnCheck
        ensures failed { result ≡ ConnCheck.Failed → Rose (faults self.old) (faults self.new) }
        ensures sound { result ≢ ConnCheck.Failed → faults self.new ≡ faults self.old }

        ensures came { came self.new ≡ came self.old }
        ensures went { went self.new ≡ went self.old }
        ensures ended { ended self.new ≡ ended self.old }
        ensures waits { waits self.new ≡ waits self.old }
        ensures number { number self.new ≡ number self.old }
        ensures listener { listener_name self.new ≡ listener_name self.old }
        ensures addresses { (from_addr self.new ≡ from_addr self.old)
            × (to_addr self.new ≡ to_addr self.old) };

    /// The client's address.
    fn from(&self) -> Addr
        ensures { result ≡ from_addr self.now };

    /// The address at which it was accepted.
    fn to(&self) -> Addr
        ensures { result ≡ to_addr self.now };

    /// The name of the listener that accepted it.
    fn listener(&self) -> &[u8]
        ensures { result.now ≡ listener_name self.now };

    /// Ends the connection. The ticket says what it was.
    fn close(self) -> Self::Ticket
        ensures number { Self.Ticket.number result ≡ number self }
        ensures listener { Self.Ticket.listener_name result ≡ listener_name self }
        ensures from { Self.Ticket.from_addr result ≡ from_addr self }
        ensures to { Self.Ticket.to_addr result ≡ to_addr self }
        ensures came { Self.Ticket.came result ≡ came self }
        ensures went { Self.Ticket.went result ≡ went self }
        ensures ended { Self.Ticket.ended result ≡ ended self }
        ensures faults { Self.Ticket.faults result ≡ faults self };
}
