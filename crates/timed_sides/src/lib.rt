//! What programs that measure share: a timing loop over two sides, how their ratio is told beside its mark, the words of
//! a program's measurements, and what several of them are run on.
#![tactic(auto)]

mod letters;
mod samples;
mod timing;
mod words;

pub use letters::Letters;
pub use samples::{CopyBytes, repeated, request};
pub use timing::{Side, Timed, Times, least_times, report};
pub use words::{named, print_words};
