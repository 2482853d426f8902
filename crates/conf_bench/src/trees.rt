//! Reading and writing a document of a megabyte, beside `serde_json` alone on the same bytes.

use crate::documents::{ReadTree, tree_of};
use conf_tree::write_tree;
use serde_json::Value;
use std::alloc::{AllocError, Global};
use std::io;
use std::time::Instant;
use timed_sides::{Side, Timed, least_times, report};

const RUNS: u32 = 20;

/// How many routes the document has.
const ROUTES: u32 = 8000;

/// Prints how many times as long as `serde_json` the trees take.
pub fn measure(rt: &HostRuntime) -> io::Result<()> {
    let text = &document(rt.alloc())?;
    read_times(rt, text)?;
    write_times(rt, text)
}

fn read_times(rt: &HostRuntime, text: &[u8]) -> io::Result<()> {
    let times = least_times(rt, RUNS, &ReadTree { text }, &ReadValue { text })?;
    report(rt, "read_tree", 200, times)
}

fn write_times(rt: &HostRuntime, text: &[u8]) -> io::Result<()> {
    let value = &value_of(rt.alloc(), text)?;
    let times = least_times(rt, RUNS, &WriteTree { text }, &WriteValue { value })?;
    report(rt, "write_tree", 400, times)
}

/// A document of routes with about a megabyte.
fn document(alloc: Global) -> Result<Vec<u8>, AllocError> {
    let mut text = Vec::from_slice(alloc, b"{\"routes\":[0")?;
    for route in 0..ROUTES {
        let step = format!(in alloc;
            ",{{\"action\":{{\"pass\":\"applications/hello\"}},\"match\":{{\"host\":[\"localhost\",\"*.example.com\"],\"uri\":\"/hello/{route}\"}},\"weight\":{route}}}"
        )?;
        text.extend_from_slice(step.as_bytes())?;
    }
    text.extend_from_slice(b"]}")?;
    Ok(text)
}

fn value_of(alloc: Global, text: &[u8]) -> Result<Value, AllocError> {
    match Value::from_slice(alloc, text) {
        Ok(value) => Ok(value),
        Err(_) => Err(AllocError),
    }
}

#[derive(Drop)]
struct ReadValue<'a> {
    text: &'a [u8],
}

impl Side for ReadValue<'_> {
    fn run(&self, rt: &HostRuntime) -> io::Result<Timed> {
        let start = Instant::now(rt)?;
        let value = value_of(rt.alloc(), self.text)?;
        let run = Timed::since(rt, &start, true);
        drop(value);
        run
    }
}

/// Writes what a text says as a document; only the writing is timed.
#[derive(Drop)]
pub struct WriteTree<'a> {
    pub text: &'a [u8],
}

impl Side for WriteTree<'_> {
    fn run(&self, rt: &HostRuntime) -> io::Result<Timed> {
        let tree = tree_of(rt.alloc(), self.text)?;
        let start = Instant::now(rt)?;
        let text = write_tree(rt.alloc(), &tree)?;
        let run = Timed::since(rt, &start, true);
        drop(text);
        run
    }
}

#[derive(Drop)]
struct WriteValue<'a> {
    value: &'a Value,
}

impl Side for WriteValue<'_> {
    fn run(&self, rt: &HostRuntime) -> io::Result<Timed> {
        let start = Instant::now(rt)?;
        let text = self.value.to_vec(rt.alloc())?;
        let run = Timed::since(rt, &start, true);
        drop(text);
        run
    }
}
