//! Routing through many steps, beside a loop that compares as many texts.

use crate::documents::tree_of;
use conf_validate::{Conf, validate};
use route_match::{Target, route};
use std::alloc::{AllocError, Global};
use std::io;
use std::time::Instant;
use timed_sides::{Side, Timed, least_times, report, request};
use unit_types::{Bytes, Request};

const RUNS: u32 = 400;

/// How many steps the configuration has, each with a host and a path.
const STEPS: u32 = 1000;

/// The paths of the steps.
#[derive(Clone, Copy, Drop)]
enum Paths {
    /// Each step has its own, so that most steps are left at their path.
    Own,
    /// All have one, so that the host of each step is compared too.
    Same,
}

/// The hosts and the paths of all steps.
#[derive(Drop)]
struct Texts {
    hosts: Vec<Bytes>,
    paths: Vec<Bytes>,
}

/// Prints how many times as long a request to the last step takes as a loop that compares its host and its path with
/// those of all steps.
pub fn measure(rt: &HostRuntime) -> io::Result<()> {
    measure_paths(rt, "route", Paths::Own)?;
    measure_paths(rt, "route, all paths the same", Paths::Same)
}

fn measure_paths(rt: &HostRuntime, name: &str, paths: Paths) -> io::Result<()> {
    let texts = &texts_of(rt.alloc(), paths)?;
    let conf = &configuration(rt.alloc(), paths)?;
    let request = &last_request(rt.alloc(), paths)?;
    let times = least_times(
        rt,
        RUNS,
        &Route { conf, request },
        &Compare { texts, request },
    )?;
    report(rt, name, 400, times)
}

#[derive(Drop)]
struct Route<'a> {
    conf: &'a Conf,
    request: &'a Request,
}

impl Side for Route<'_> {
    fn run(&self, rt: &HostRuntime) -> io::Result<Timed> {
        let start = Instant::now(rt)?;
        let target = route(self.conf, b"*:80", self.request);
        Timed::since(rt, &start, is_last(target))
    }
}

fn is_last(target: Target) -> bool {
    match target {
        Target::Return { step, status } => step == 999 && status == 200,
        _ => false,
    }
}

#[derive(Drop)]
struct Compare<'a> {
    texts: &'a Texts,
    request: &'a Request,
}

impl Side for Compare<'_> {
    fn run(&self, rt: &HostRuntime) -> io::Result<Timed> {
        let start = Instant::now(rt)?;
        let same_hosts = equal_texts(&self.texts.hosts, &self.request.host);
        let same_paths = equal_texts(&self.texts.paths, &self.request.path);
        Timed::since(rt, &start, same_hosts == 1 && same_paths > 0)
    }
}

fn equal_texts(texts: &[Bytes], wanted: &Bytes) -> u64 {
    let mut equal = 0u64;
    for text in texts {
        if text.is_equal(wanted) {
            equal = equal.saturating_add(1);
        }
    }
    equal
}

/// The host of a step.
fn host(alloc: Global, step: u32) -> Result<String, AllocError> {
    format!(in alloc; "www.example.shop{:04}", step)
}

/// The path of a step.
fn path(alloc: Global, paths: Paths, step: u32) -> Result<String, AllocError> {
    match paths {
        Paths::Own => format!(in alloc; "/articles/of-{:04}", step),
        Paths::Same => format!(in alloc; "/articles/of-today"),
    }
}

fn texts_of(alloc: Global, paths: Paths) -> Result<Texts, AllocError> {
    let mut texts = Texts {
        hosts: Vec::new(alloc),
        paths: Vec::new(alloc),
    };
    for step in 0..STEPS {
        let host = host(alloc, step)?;
        texts.hosts.push(Bytes::copy_of(alloc, host.as_bytes())?)?;
        let path = path(alloc, paths, step)?;
        texts.paths.push(Bytes::copy_of(alloc, path.as_bytes())?)?;
    }
    Ok(texts)
}

fn last_request(alloc: Global, paths: Paths) -> Result<Request, AllocError> {
    let host = host(alloc, STEPS - 1)?;
    let path = path(alloc, paths, STEPS - 1)?;
    request(alloc, host.as_bytes(), path.as_bytes())
}

/// The configuration of the steps.
fn configuration(alloc: Global, paths: Paths) -> Result<Conf, AllocError> {
    let text = document(alloc, paths)?;
    let tree = tree_of(alloc, &text)?;
    match validate(alloc, &tree, &[]) {
        Ok(conf) => Ok(conf),
        Err(_) => Err(AllocError),
    }
}

fn document(alloc: Global, paths: Paths) -> Result<Vec<u8>, AllocError> {
    let mut text = Vec::from_slice(
        alloc,
        b"{\"listeners\":{\"*:80\":{\"pass\":\"routes\"}},\"routes\":[",
    )?;
    for step in 0..STEPS {
        let host = host(alloc, step)?;
        let path = path(alloc, paths, step)?;
        append_step(&mut text, host.as_bytes(), path.as_bytes())?;
    }
    text.pop();
    text.extend_from_slice(b"]}")?;
    Ok(text)
}

/// Puts the step for a host and a path behind the text, and a comma.
fn append_step(text: &mut Vec<u8>, host: &[u8], path: &[u8]) -> Result<(), AllocError> {
    text.extend_from_slice(b"{\"action\":{\"return\":200},\"match\":{\"host\":\"")?;
    text.extend_from_slice(host)?;
    text.extend_from_slice(b"\",\"uri\":\"")?;
    text.extend_from_slice(path)?;
    text.extend_from_slice(b"\"}},")
}
