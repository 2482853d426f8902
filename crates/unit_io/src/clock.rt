//! A clock.
ghost use Rattle.std.specs.Prelude.{◌≡◌, ◌≤◌, ℕ, List, Option};
ghost use Rattle.unit_io.specs.Readings.{Notes};

/// A clock, which shows milliseconds and never falls.
pub trait Clock: Drop {
    /// What it showed last, or 0.
    ghost last: { Self → ℕ };

    /// What it showed so far, each reading once, where the clock tells it.
    ghost readings: { Self → Option (List ℕ) };

    /// The time in milliseconds.
    fn now(&mut self) -> u64
        ensures told { last self.new ≡ result }
        ensures later { last self.old ≤ result }
        ensures noted { Notes (readings self.old) (readings self.new) result };
}
