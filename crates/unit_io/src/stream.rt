//! Where bytes come from, and where they go.
ghost use Rattle.std.specs.Prelude.{◌≡◌, ◌≤◌, ◌<◌, ℕ, List, [], length, take, drop, IfOk, OnErr, Option};
ghost use Rattle.unit_io.specs.Causes.{HasCause};
ghost use Rattle.unit_io.specs.Told.{Adds, Takes, IsAtEnd};

/// A read or a write that failed. The object that answered it counted one fault more.
#[derive(Clone, Copy, Debug, Drop)]
pub struct Failed;

/// Where bytes come from.
///
/// `left` is what is still to come, where the source tells it. `faults` counts what went wrong; it never falls, and
/// stands still at `u64::MAX`.
pub trait Source {
    /// The bytes that are still to come, where the source tells them.
    ghost left: { Self → Option (List ℕ) };

    /// How many calls failed.
    ghost faults: { Self → ℕ };

    /// Moves bytes into the front of `buf`, and answers how many. With a `buf` that isn't empty, `Ok(0)` is the end. What
    /// lies behind them in `buf` stays.
    ///
    /// Fails only where the count of faults rose in this call; then no byte was moved, and all of `buf` stays.
    fn read(&mut self, buf: &mut [u8]) -> Result<usize, Failed>
        ensures bound { IfOk result (λ n. n ≤ length buf.new) }
        ensures size { length buf.new ≡ length buf.old }
        ensures bytes { IfOk result (λ n. Takes (left self.old) (left self.new) (take n buf.new)) }
        ensures end { IfOk result (λ n. n ≡ 0 → 0 < length buf.old → IsAtEnd (left self.old)) }
        ensures behind { IfOk result (λ n. drop n buf.new ≡ drop n buf.old) }
        ensures untouched { OnErr result (buf.new ≡ buf.old) }
        ensures same { OnErr result (left self.new ≡ left self.old) }
        ensures cause { HasCause (faults self.old) (faults self.new) result };
}

/// Where bytes go.
///
/// `written` is what was taken so far, where the sink tells it. `faults` counts what went wrong; it never falls, and
/// stands still at `u64::MAX`.
pub trait Sink {
    /// The bytes that were taken so far, where the sink tells them.
    ghost written: { Self → Option (List ℕ) };

    /// How many calls failed.
    ghost faults: { Self → ℕ };

    /// Takes bytes from the front of `bytes`, and answers how many: at least one, where there is one.
    ///
    /// Fails only where the count of faults rose in this call; then no byte was taken.
    fn write(&mut self, bytes: &[u8]) -> Result<usize, Failed>
        ensures bound { IfOk result (λ n. n ≤ length bytes.now) }
        ensures some { IfOk result (λ n. 0 < length bytes.now → 0 < n) }
        ensures bytes { IfOk result
            (λ n. Adds (written self.old) (written self.new) (take n bytes.now)) }
        ensures same { OnErr result (written self.new ≡ written self.old) }
        ensures cause { HasCause (faults self.old) (faults self.new) result };
}
