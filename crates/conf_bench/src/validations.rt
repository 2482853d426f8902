//! Validating a configuration of a megabyte, beside reading it as a document.

use crate::documents::{ReadTree, configuration, handlers, tree_of};
use conf_validate::validate;
use std::io;
use std::time::Instant;
use timed_sides::{Side, Timed, least_times, report};

const RUNS: u32 = 20;

/// Prints how many times as long as its reading the validation of a document takes.
pub fn measure(rt: &HostRuntime) -> io::Result<()> {
    let text = &configuration(rt.alloc())?;
    let times = least_times(rt, RUNS, &Validate { text }, &ReadTree { text })?;
    report(rt, "validate", 500, times)
}

/// Validates what a text says as a document; only the validation is timed.
#[derive(Drop)]
struct Validate<'a> {
    text: &'a [u8],
}

impl Side for Validate<'_> {
    fn run(&self, rt: &HostRuntime) -> io::Result<Timed> {
        let tree = tree_of(rt.alloc(), self.text)?;
        let handlers = handlers(rt.alloc())?;
        let start = Instant::now(rt)?;
        let conf = validate(rt.alloc(), &tree, &handlers);
        let run = Timed::since(rt, &start, conf.is_ok());
        drop(conf);
        run
    }
}
