//! A clock over memory, which tells all that it showed.
ghost use Rattle.std.specs.Prelude.{◌≡◌, ◌≤◌, ◌<◌, length, slice_index_or};
ghost use Rattle.std.specs.List.Sorted.{IsNonDecreasing};

use crate::clock::Clock;
use std::marker::Model;

/// A clock that shows these readings, one a call; the last one repeats.
#[derive(Debug, Drop)]
pub struct ListClock {
    readings: Vec<u64>,
    shown: usize,
}

impl Model for ListClock {
    ghost use Rattle.std.specs.Prelude.{◌≤◌, ◌<◌, length};
    ghost use Rattle.std.specs.List.Sorted.{IsNonDecreasing};
    ghost use Rattle.unit_io.specs.Readings.{Showing};

    ghost Value = { Showing };

    ghost view = { λ c. record { script = c.readings.items; shown = c.shown } };

    ghost invariant = { λ c. (0 < length c.readings.items)
        × (c.shown ≤ length c.readings.items)
        × IsNonDecreasing c.readings.items };
}

impl ListClock {
    ghost use Rattle.unit_io.specs.Readings.{IsClock, Showing, after_showing, shown_next};

    /// A clock that has shown none of the readings yet.
    pub fn open(readings: Vec<u64>) -> ListClock
        requires some { 0 < length readings.items }
        requires rising { IsNonDecreasing readings.items }
        ensures { result ≡ record { script = readings.items; shown = 0 } }
    {
        ListClock { readings, shown: 0 }
    }

    // Shows the next reading.
    fn show(&mut self) -> u64
        ensures shows { result ≡ shown_next self.old }
        ensures after { self.new ≡ after_showing self.old }
        ensures clock { IsClock self.old }
    {
        if self.shown < self.readings.len() {
            self.shown += 1;
        }
        self.readings[self.shown - 1]
    }
}

impl Clock for ListClock {
    ghost use Rattle.std.specs.Prelude.{Some};
    ghost use Rattle.unit_io.specs.Readings.{Notes, after_showing, last_shown, readings_shown, shown_next};

    ghost last = { last_shown };

    ghost readings = { λ c. Some (readings_shown c) };

    fn now(&mut self) -> u64
        ensures shows { result ≡ shown_next self.old }
        ensures after { self.new ≡ after_showing self.old }
        ensures told { last_shown self.new ≡ result }
        ensures later { last_shown self.old ≤ result }
        ensures noted { Notes (Some (readings_shown self.old))
            (Some (readings_shown self.new)) result }
    {
        self.show()
    }
}

#[cfg(test)]
mod tests {
    use super::*;
    use crate::trial::room;

    #[test]
    fn the_last_reading_repeats(rt: HostRuntime) {
        let mut readings = room(&rt, 2);
        readings.push(5).expect(&rt, "pushed");
        readings.push(9).expect(&rt, "pushed");
        assert!(rt; readings.len() == 2);
        assert!(rt; readings[0] == 5 && readings[1] == 9);
        let mut clock = ListClock::open(readings);
        assert_eq!(rt; clock.now(), 5);
        assert_eq!(rt; clock.now(), 9);
        assert_eq!(rt; clock.now(), 9);
    }
}
