//! Paths, patterns and expansions at twice the size: the time may grow by 2.3 at most.

use path_normal::{expand, normal_path};
use pattern_text::TextPattern;
use std::io;
use std::time::Instant;
use timed_sides::{Side, Timed, least_times, repeated, report, request};
use unit_types::Request;

const RUNS: u32 = 400;

/// How many bytes the longer text has.
const SIZE: u64 = 16_384;

/// `normal_path` of a path of many segments, some of which go up.
pub fn normal_paths(rt: &HostRuntime) -> io::Result<()> {
    let text = repeated(rt.alloc(), b"/ab/c/../%64e/.", SIZE / 15)?;
    let half = &text[..text.len() / 2];
    let times = least_times(
        rt,
        RUNS,
        &NormalPath { raw: &text },
        &NormalPath { raw: half },
    )?;
    report(rt, "normal_path", 230, times)
}

/// `matches` of `*a*a*a*b` on bytes `a`.
pub fn patterns(rt: &HostRuntime) -> io::Result<()> {
    let pattern = &TextPattern::parse(rt.alloc(), b"*a*a*a*b")?;
    let text = repeated(rt.alloc(), b"a", SIZE)?;
    let whole = Matches {
        pattern,
        text: &text,
    };
    let half = Matches {
        pattern,
        text: &text[..text.len() / 2],
    };
    let times = least_times(rt, RUNS, &whole, &half)?;
    report(rt, "matches", 230, times)
}

/// `expand` of a text of many variables.
pub fn expansions(rt: &HostRuntime) -> io::Result<()> {
    let request = &request(rt.alloc(), b"example.org", b"/a/b c")?;
    let text = repeated(rt.alloc(), b"$host and ${uri}", SIZE / 16)?;
    let whole = Expand {
        text: &text,
        request,
    };
    let half = Expand {
        text: &text[..text.len() / 2],
        request,
    };
    let times = least_times(rt, RUNS, &whole, &half)?;
    report(rt, "expand", 230, times)
}

#[derive(Drop)]
struct NormalPath<'a> {
    raw: &'a [u8],
}

impl Side for NormalPath<'_> {
    fn run(&self, rt: &HostRuntime) -> io::Result<Timed> {
        let start = Instant::now(rt)?;
        let path = normal_path(rt.alloc(), self.raw)?;
        Timed::since(rt, &start, !path.as_slice().is_empty())
    }
}

#[derive(Drop)]
struct Matches<'a> {
    pattern: &'a TextPattern,
    text: &'a [u8],
}

impl Side for Matches<'_> {
    fn run(&self, rt: &HostRuntime) -> io::Result<Timed> {
        let start = Instant::now(rt)?;
        let matched = self.pattern.matches(self.text);
        Timed::since(rt, &start, !matched)
    }
}

#[derive(Drop)]
struct Expand<'a> {
    text: &'a [u8],
    request: &'a Request,
}

impl Side for Expand<'_> {
    fn run(&self, rt: &HostRuntime) -> io::Result<Timed> {
        let start = Instant::now(rt)?;
        let expansion = expand(rt.alloc(), self.text, self.request, true)?;
        Timed::since(rt, &start, !expansion.as_slice().is_empty())
    }
}
