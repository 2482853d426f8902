//! The system's clock.
ghost use Rattle.std.specs.Prelude.{None};

use std::time;
use unit_io::Clock;

/// A clock that shows the milliseconds of the system's monotonic clock, since a moment of the system's choice.
///
/// Where the system's clock can't be read, or goes back, it shows again what it showed last.
#[derive(Drop)]
pub struct SystemClock<K: time::Clock + Drop> {
    system: K,
    last: u64,
}

impl<K: time::Clock + Drop> SystemClock<K> {
    /// A clock that has shown nothing yet.
    pub fn open(system: K) -> SystemClock<K> {
        SystemClock { system, last: 0 }
    }
}

impl<K: time::Clock + Drop> Clock for SystemClock<K> {
    ghost last = { λ c. c.last };

    ghost readings = { λ _. None };

    fn now(&mut self) -> u64 {
        if let Ok(since) = self.system.monotonic() {
            let shown = u64::try_from(since.as_millis()).unwrap_or(u64::MAX);
            self.last = self.last.max(shown);
        }
        self.last
    }
}

#[cfg(test)]
mod tests {
    use super::*;
    use std::thread;
    use std::time::Duration;

    #[test]
    fn shows_milliseconds(rt: HostRuntime) {
        let mut clock = SystemClock::open(rt);
        let before = clock.now();
        thread::sleep(&rt, Duration::from_millis(30));
        let after = clock.now();
        assert!(rt; after.saturating_sub(before) >= 30);
    }
}
