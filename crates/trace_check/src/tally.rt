//! The numbers of a core in which a legal trace ends.
ghost use Rattle.std.specs.BTreeMap.{get};
ghost use Rattle.std.specs.Ordering.{nat_cmp};
ghost use Rattle.std.specs.Prelude.{◌≡◌, ◌+◌, ◌<◌, ◌≤◌, ◌*◌, count_by};
ghost use Rattle.trace_check.specs.Outcomes.{has_outcome};
ghost use Rattle.trace_check.specs.Shows.{Shows};
ghost use Rattle.trace_check.specs.Streams.{known};
ghost use Rattle.trace_check.specs.Verdicts.{is_free, tally_of};
ghost use Rattle.unit_model.specs.Weights.{below, one_if};
ghost use Rattle.unit_model.specs.declared.machine.Core.{Core};

use crate::frame::Frame;
use crate::machine::Machine;
use crate::streams::Stream;
use crate::verdict::{Outcome, Tally};

fn has_outcome(outcome: Outcome, stream: &Option<Stream>) -> bool
    ensures { result ≡ known (has_outcome outcome) stream.now }
{
    let Some(stream) = stream else {
        return false;
    };
    let accepted = stream.received_last && !stream.abandoned;
    match outcome {
        Outcome::Drawn => true,
        Outcome::Accepted => accepted,
        Outcome::Cancelled => stream.cancelled,
        Outcome::Abandoned => stream.abandoned,
        Outcome::Refused => !stream.posted,
        Outcome::LeftOpen => {
            stream.posted && !(accepted || stream.cancelled || stream.abandoned)
        }
    }
}

impl Frame {
    // How many chunks no one has.
    fn free_chunks(&self) -> u64
        ensures { result ≡ count_by is_free self.now.owners }
    {
        let mut free = 0;
        for number in 0..self.chunk_count() {
            if self.owner_code_at(number) == 0 {
                free += 1;
            }
        }
        free
    }
}

impl Machine {
    // How many streams of this outcome there are.
    #[tactic(auto, using(crate::proofs::Tallied::below_more))]
    fn count(&self, outcome: Outcome) -> u64
        ensures { result ≡ below
            (λ s. one_if (known (has_outcome outcome) (get nat_cmp self.now.streams s))) self.now.frame.next }
    {
        let mut count = 0;
        for number in 0..self.frame.next_stream() {
            if has_outcome(outcome, &self.stream(number)) {
                count += 1;
            }
        }
        count
    }

    /// The numbers of the core.
    pub(crate) fn tally(&self) -> Tally
        ensures { (core : Core) → Shows core self.now → result ≡ tally_of core }
    {
        Tally {
            free: self.frame.free_chunks(),
            chunks: self.frame.chunk_count(),
            drawn: self.count(Outcome::Drawn),
            accepted: self.count(Outcome::Accepted),
            cancelled: self.count(Outcome::Cancelled),
            abandoned: self.count(Outcome::Abandoned),
            refused: self.count(Outcome::Refused),
            left_open: self.count(Outcome::LeftOpen),
        }
    }
}
