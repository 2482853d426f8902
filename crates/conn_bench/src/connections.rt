//! Connections over memory: a configuration, a machine over all bytes of a client, and its handlers.
ghost use Rattle.std.specs.Prelude.{◌≡◌, ◌≤◌, All, IfOk, length};
ghost use Rattle.conf_tree.specs.Document.{IsDocument};
ghost use Rattle.conf_tree.specs.View.{data_of};
ghost use Rattle.conf_validate.specs.Current.{numbered};
ghost use Rattle.conn_machine.specs.declared.receipt.Need.TheVariants.{Ask};
ghost use Rattle.conn_machine.specs.Shows.{IsAfter, need_in};

use crate::handlers::Measured;
use conf_tree::{Tree, read_tree};
use conf_validate::{Current, validate};
use conn_machine::{Machine, Need};
use std::alloc::{AllocError, Global};
use std::io;
use std::sync::Arc;
use std::time::Instant;
use timed_sides::{Side, Timed};
use unit_types::{Addr, Bytes, Handlers};

/// The address of a host on this machine.
pub fn local(port: u16) -> Addr {
    Addr {
        ip: 0x7f00_0001,
        port,
    }
}

/// The configuration that a document says; None where it is none.
pub fn configuration(alloc: Global, text: &[u8]) -> Result<Current, AllocError> {
    let tree = tree_of(alloc, text)?;
    match validate(alloc, &tree, &handlers(alloc)?) {
        Ok(conf) => Ok(Current {
            number: 0,
            conf: Arc::new(alloc, conf)?,
        }),
        Err(_) => Err(AllocError),
    }
}

fn tree_of(alloc: Global, text: &[u8]) -> Result<Tree, AllocError>
    ensures { IfOk result (λ tree. IsDocument (data_of tree)) }
{
    match read_tree(alloc, text)? {
        Some(tree) => Ok(tree),
        None => Err(AllocError),
    }
}

// The handlers that configurations ask for.
fn handlers(alloc: Global) -> Result<[Bytes; 2], AllocError>
    ensures { IfOk result (λ names. All (λ name. length name ≤ 255) names) }
{
    Ok([
        Bytes::copy_of(alloc, b"echo")?,
        Bytes::copy_of(alloc, b"hello")?,
    ])
}

/// A connection that a client's bytes are given to in one piece. All that the machine shows is written at once.
#[derive(Drop)]
pub struct Serving<'a> {
    pub conf: &'a Current,
    pub input: &'a [u8],
    /// How many requests the input has.
    pub requests: usize,
}

impl Side for Serving<'_> {
    fn run(&self, rt: &HostRuntime) -> io::Result<Timed> {
        let start = Instant::now(rt)?;
        let machine = served(rt.alloc(), self.conf, self.input, self.requests)?;
        let Timed { nanos, .. } = Timed::since(rt, &start, true)?;
        let (receipts, lines) = machine.close();
        drop(lines);
        Ok(Timed {
            nanos,
            is_whole: receipts.as_slice().len() == self.requests,
        })
    }
}

// The machine behind the requests of the input, of which there are so many.
fn served(
    alloc: Global,
    conf: &Current,
    input: &[u8],
    requests: usize,
) -> Result<Machine<Measured>, AllocError> {
    let listener = Bytes::copy_of(alloc, b"*:8080")?;
    let mut machine = Machine::open(alloc, listener, local(40000), local(8080))?;
    machine.on_bytes(alloc, conf, input)?;
    // each request is asked, and its answer written
    for _ in 0..requests.saturating_mul(2) {
        serve(alloc, &mut machine, conf)?;
    }
    Ok(machine)
}

// What the machine waits for is done once.
fn serve(alloc: Global, machine: &mut Machine<Measured>, conf: &Current) -> Result<(), AllocError>
    requires { IsAfter machine.old.met (numbered conf.now) }
    ensures { IsAfter machine.new.met (numbered conf.now) }
{
    match machine.need() {
        Need::Write => {
            let len = machine.out().len();
            machine.wrote(len);
            Ok(())
        }
        Need::Ask => reply(alloc, machine, conf),
        Need::Read | Need::Close => Ok(()),
    }
}

// The handler's reply to what is asked.
fn reply(alloc: Global, machine: &mut Machine<Measured>, conf: &Current) -> Result<(), AllocError>
    requires ask { need_in machine.old ≡ Ask }
    requires after { IsAfter machine.old.met (numbered conf.now) }
    ensures { IsAfter machine.new.met (numbered conf.now) }
{
    let Some((name, request)) = machine.asking() else {
        return Ok(());
    };
    let reply = Measured.reply(alloc, name.as_slice(), request)?;
    machine.on_reply(alloc, 1, &reply, conf)
}
