//! What several measurements are run on: a configuration of about a megabyte, what a text says as a document, and its
//! reading.
ghost use Rattle.std.specs.Prelude.{◌≤◌, All, IfOk, length};
ghost use Rattle.conf_tree.specs.Document.{IsDocument};
ghost use Rattle.conf_tree.specs.View.{data_of};

use conf_tree::{Tree, read_tree};
use std::alloc::{AllocError, Global};
use std::io;
use std::time::Instant;
use timed_sides::{Side, Timed};
use unit_types::Bytes;

/// How many listeners, applications and routes of four steps the configuration has.
const PARTS: u32 = 2000;

/// The tree of a text that is a document.
pub fn tree_of(alloc: Global, text: &[u8]) -> Result<Tree, AllocError>
    ensures { IfOk result (λ tree. IsDocument (data_of tree)) }
{
    match read_tree(alloc, text)? {
        Some(tree) => Ok(tree),
        None => Err(AllocError),
    }
}

/// Reads a text as a document.
#[derive(Drop)]
pub struct ReadTree<'a> {
    pub text: &'a [u8],
}

impl Side for ReadTree<'_> {
    fn run(&self, rt: &HostRuntime) -> io::Result<Timed> {
        let start = Instant::now(rt)?;
        let tree = tree_of(rt.alloc(), self.text)?;
        let run = Timed::since(rt, &start, true);
        drop(tree);
        run
    }
}

/// The handlers that the configuration asks for.
pub fn handlers(alloc: Global) -> Result<[Bytes; 1], AllocError>
    ensures { IfOk result (λ names. All (λ name. length name ≤ 255) names) }
{
    Ok([Bytes::copy_of(alloc, b"hello")?])
}

/// A configuration of about a megabyte.
pub fn configuration(alloc: Global) -> Result<Vec<u8>, AllocError> {
    let mut text = Vec::from_slice(alloc, b"{\"applications\":{")?;
    append_parts(alloc, &mut text, Part::Application)?;
    text.extend_from_slice(b"},\"listeners\":{")?;
    append_parts(alloc, &mut text, Part::Listener)?;
    text.extend_from_slice(b"},\"routes\":{")?;
    append_parts(alloc, &mut text, Part::Route)?;
    text.extend_from_slice(b"}}")?;
    Ok(text)
}

/// What a part of a configuration is.
#[derive(Clone, Copy, Drop)]
enum Part {
    Application,
    Listener,
    Route,
}

fn append_parts(alloc: Global, text: &mut Vec<u8>, part: Part) -> Result<(), AllocError> {
    for number in 1..=PARTS {
        if number > 1 {
            text.push(b',')?;
        }
        let member = match part {
            Part::Application => application(alloc, number)?,
            Part::Listener => listener(alloc, number)?,
            Part::Route => route(alloc, number)?,
        };
        text.extend_from_slice(member.as_bytes())?;
    }
    Ok(())
}

fn application(alloc: Global, number: u32) -> Result<String, AllocError> {
    format!(in alloc;
        "\"a{number}\":{{\"executable\":\"hello\",\"limits\":{{\"timeout\":30}},\"type\":\"external\"}}"
    )
}

fn listener(alloc: Global, number: u32) -> Result<String, AllocError> {
    format!(in alloc; "\"*:{number}\":{{\"pass\":\"routes/r{number}\"}}")
}

/// A route of four steps: to an application, to itself, to another place, and to an application with what it changes.
fn route(alloc: Global, number: u32) -> Result<String, AllocError> {
    format!(in alloc;
        "\"r{number}\":[{{\"action\":{{\"pass\":\"applications/a{number}\"}},\"match\":{{\"host\":[\"localhost\",\"*.example.com\"],\"method\":\"GET\",\"uri\":\"/hello/{number}/*\"}}}},{{\"action\":{{\"pass\":\"routes/r{number}\"}},\"match\":{{\"arguments\":{{\"a\":\"!b\"}},\"source\":\"10.0.0.0/8\"}}}},{{\"action\":{{\"location\":\"https://$host/{number}\",\"return\":301}},\"match\":{{\"headers\":{{\"X-A\":[\"a\",\"b*\"]}}}}}},{{\"action\":{{\"pass\":\"applications/a{number}\",\"response_headers\":{{\"X-Route\":\"{number}\"}},\"rewrite\":\"/v1$uri\"}}}}]"
    )
}
