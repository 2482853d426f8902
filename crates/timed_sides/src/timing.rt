//! Times in nanoseconds: the least of many runs of two sides, and how their ratio is told.
ghost use Rattle.std.specs.Prelude.{◌≡◌, min, if◌then◌else◌};

use std::io;
use std::time::Instant;

/// What one run took, in nanoseconds, and whether it did all that it was to do.
#[derive(Clone, Copy, Drop)]
pub struct Timed {
    pub nanos: u64,
    pub is_whole: bool,
}

impl Timed {
    /// What a run that began at `start` has taken until now.
    pub fn since(rt: &HostRuntime, start: &Instant, is_whole: bool) -> io::Result<Timed> {
        let nanos = start.elapsed(rt)?.as_nanos();
        Ok(Timed {
            nanos: u64::try_from(nanos).unwrap_or(u64::MAX),
            is_whole,
        })
    }
}

/// The least times of the two sides of a measurement, in nanoseconds.
#[derive(Clone, Copy, Drop)]
pub struct Times {
    pub measured: u64,
    pub base: u64,
}

impl Times {
    /// The times before any run.
    pub fn untaken() -> Times {
        Times {
            measured: u64::MAX,
            base: u64::MAX,
        }
    }

    /// The least times after a further run of each side. A run counts only where it did all that it was to do.
    pub fn after(self, measured: Timed, base: Timed) -> Times
        ensures measured { result.measured ≡ (if measured.is_whole
            then min self.measured measured.nanos else self.measured) }
        ensures base { result.base
            ≡ (if base.is_whole then min self.base base.nanos else self.base) }
    {
        Times {
            measured: best(self.measured, measured),
            base: best(self.base, base),
        }
    }
}

// The lower of a time and that of a later run, where the run did all that it was to do.
fn best(best: u64, run: Timed) -> u64
    ensures { result ≡ (if run.is_whole then min best run.nanos else best) }
{
    if run.is_whole {
        best.min(run.nanos)
    } else {
        best
    }
}

/// One side of a measurement.
pub trait Side {
    /// Runs once.
    fn run(&self, rt: &HostRuntime) -> io::Result<Timed>;
}

/// Times two sides, each run so many times, by turns.
pub fn least_times<M: Side, B: Side>(
    rt: &HostRuntime,
    runs: u32,
    measured: &M,
    base: &B,
) -> io::Result<Times> {
    let mut least = Times::untaken();
    for _ in 0..runs {
        least = least.after(measured.run(rt)?, base.run(rt)?);
    }
    Ok(least)
}

/// Prints a line with the ratio of two times in hundredths, the most that it may be, and both times in nanoseconds.
pub fn report(rt: &HostRuntime, name: &str, most: u64, times: Times) -> io::Result<()> {
    let Times { measured, base } = times;
    let ratio = measured.saturating_mul(100) / base.max(1);
    println!(rt; "{name} ratio {ratio} hundredths, at most {most}: {measured} ns to {base} ns")
}
