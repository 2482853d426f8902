//! A connection whose bytes are all there, served by the machine of connections. What it asks goes through a fabric.
ghost use Rattle.std.specs.Prelude.{◌≡◌, ◌++◌, ◌+◌, ◌<◌, ◌≤◌, ◌^◌, ℕ, List, [], false, length, map, take, IfOk, OnOk};
ghost use Rattle.conf_validate.specs.Current.{numbered};
ghost use Rattle.conn_machine.specs.Answers.{Connection};
ghost use Rattle.conn_machine.specs.Asks.{asks_of};
ghost use Rattle.conn_machine.specs.Calls.{Account, wrote};
ghost use Rattle.conn_machine.specs.Shows.{IsAfter, Shows};
ghost use Rattle.unit_top.specs.Connections.{IsServing, IsShown, Serves, client_address, connection_at, listener_address, output_of};
ghost use Rattle.unit_top.specs.Posting.{Asked, Asking, HasPosted, Withdrawn, kept};

use crate::fabric::{Output, keep_steps};
use conf_validate::Current;
use conn_machine::{Machine, laws_of_asks, laws_of_ends, laws_of_one_configuration};
use plain_fabric::Plain;
use std::alloc::{AllocError, Global};
use unit_types::{Addr, Bytes, Handlers};

/// 127.0.0.1
const LOOPBACK: u32 = 0x7F00_0001;

/// What came on a connection that a listener accepted: all of it.
#[derive(Drop)]
pub(crate) struct Arrived {
    pub listener: Bytes,
    pub port: u16,
    pub bytes: Bytes,
}

/// The address of each client.
fn client_address() -> Addr
    ensures { result ≡ client_address }
{
    Addr {
        ip: LOOPBACK,
        port: 40000,
    }
}

/// The address at which a listener with this port accepts.
fn listener_address(port: u16) -> Addr
    ensures { result ≡ listener_address port }
{
    Addr { ip: LOOPBACK, port }
}

/// Passes by all that is to be written.
fn pass_by<H: Handlers>(machine: &mut Machine<H>)
    ensures value { machine.new ≡ record machine.old { out = [] } }
    ensures shows { (c : Connection) (a : Account) → Shows H.reply_of c a machine.old
        → Shows H.reply_of c (wrote (length machine.old.out) a) machine.new }
{
    let len = machine.out().len();
    machine.wrote(len);
}

/// Moves all that is to be written behind `out`.
fn pass_out<H: Handlers>(machine: &mut Machine<H>, out: &mut Bytes) -> Result<(), AllocError>
    ensures value { OnOk result (machine.new ≡ record machine.old { out = [] }) }
    ensures out { OnOk result (out.new ≡ out.old ++ machine.old.out) }
    ensures shows { OnOk result ((c : Connection) (a : Account) → Shows H.reply_of c a machine.old
        → Shows H.reply_of c (wrote (length machine.old.out) a) machine.new) }
{
    out.append(machine.out())?;
    pass_by(machine);
    Ok(())
}

/// The machine of a connection on which this came, and its end.
///
/// Fails for want of memory alone.
fn begun<H: Handlers>(
    alloc: Global,
    arrived: Arrived,
    conf: &Current,
) -> Result<Machine<H>, AllocError>
    ensures serving { IfOk result (λ machine. IsServing H.reply_of
        (connection_at H.reply_of arrived.listener arrived.port) (numbered conf.now) arrived.bytes
        [] (asks_of (connection_at H.reply_of arrived.listener arrived.port) (numbered conf.now).1
        arrived.bytes) machine) }
    ensures left { IfOk result (λ machine. machine.left ≤ 1000) }
    ensures after { IfOk result (λ machine. IsAfter machine.met (numbered conf.now)) }
{
    // From the first call on it stays under this configuration, and all its asks are left.
    laws_of_one_configuration();
    laws_of_asks();
    let from = client_address();
    let to = listener_address(arrived.port);
    let mut machine = Machine::over(alloc, arrived.listener, from, to, arrived.bytes, conf)?;
    machine.on_end(alloc, conf)?;
    Ok(machine)
}

/// Moves all that is to be written behind `out`, and answers what is asked then, whose steps stand behind those that the
/// fabric keeps; false where nothing is asked, since all is written.
///
/// Fails for want of memory alone.
fn serve_next<H: Handlers>(
    alloc: Global,
    handlers: &H,
    plain: &mut Plain<H>,
    machine: &mut Machine<H>,
    conf: &Current,
    out: &mut Bytes,
) -> Result<bool, AllocError>
    requires after { IsAfter machine.old.met (numbered conf.now) }
    requires shown { IsShown H.reply_of machine.old }
    requires whole { plain.old.failed ≡ false }
    requires early { plain.old.drawn < 2 ^ 48 }
    ensures serves { IfOk result (λ goes. (c : Connection) (bytes : List ℕ) (asks : List Asking)
        → IsServing H.reply_of c (numbered conf.now) bytes out.old asks machine.old
        → Serves H.reply_of c (numbered conf.now) bytes out.new asks machine.old machine.new
        plain.old plain.new goes) }
    ensures after { IfOk result (λ _. IsAfter machine.new.met (numbered conf.now)) }
{
    // It needs no more bytes, and a reply leaves fewer requests; what is written in the end is its session.
    laws_of_one_configuration();
    laws_of_ends();
    laws_of_asks();
    pass_out(machine, out)?;
    let Some(asked) = machine.asking() else {
        return Ok(false);
    };
    let reply = plain.ask(alloc, handlers, asked.0.as_slice(), &asked.1)?;
    machine.on_reply(alloc, plain.drawn(), &reply, conf)?;
    Ok(true)
}

/// What a connection gets on which this came, where this is the configuration, and the handlers answer what is asked, one
/// request after another.
///
/// Fails for want of memory alone.
pub(crate) fn connection_output<H: Handlers>(
    alloc: Global,
    handlers: &H,
    plain: &mut Plain<H>,
    output: Output,
    arrived: Arrived,
    conf: &Current,
) -> Result<Bytes, AllocError>
    requires whole { plain.old.failed ≡ false }
    requires early { plain.old.drawn + 1000 < 2 ^ 48 }
    requires kept { plain.old.trace ≡ kept output plain.old.trace }
    ensures out { IfOk result (λ out. out
        ≡ output_of (connection_at H.reply_of arrived.listener arrived.port) (numbered conf.now).1
        arrived.bytes) }
    ensures posted { OnOk result (HasPosted output H.reply_of (map Asked
        (asks_of (connection_at H.reply_of arrived.listener arrived.port) (numbered conf.now).1
        arrived.bytes)) plain.old plain.new) }
    ensures few { OnOk result (plain.new.drawn ≤ plain.old.drawn + 1000) }
{
    let mut machine: Machine<H> = begun(alloc, arrived, conf)?;
    let mut out = Bytes::of(Vec::new(alloc));
    while serve_next(alloc, handlers, plain, &mut machine, conf, &mut out)? {
        keep_steps(output, plain);
    }
    Ok(out)
}

/// Posts what a connection asks first on which this came, and cancels it, since the client has hung up.
///
/// Fails for want of memory alone.
pub(crate) fn withdraw_first<H: Handlers>(
    alloc: Global,
    plain: &mut Plain<H>,
    output: Output,
    arrived: Arrived,
    conf: &Current,
) -> Result<(), AllocError>
    requires whole { plain.old.failed ≡ false }
    requires early { plain.old.drawn < 2 ^ 48 }
    requires kept { plain.old.trace ≡ kept output plain.old.trace }
    ensures posted { OnOk result (HasPosted output H.reply_of (map Withdrawn (take 1
        (asks_of (connection_at H.reply_of arrived.listener arrived.port) (numbered conf.now).1
        arrived.bytes))) plain.old plain.new) }
    ensures few { OnOk result (plain.new.drawn ≤ plain.old.drawn + 1000) }
{
    // Where nothing is asked, nothing was left.
    laws_of_one_configuration();
    laws_of_ends();
    laws_of_asks();
    let mut machine: Machine<H> = begun(alloc, arrived, conf)?;
    pass_by(&mut machine);
    let Some(asked) = machine.asking() else {
        return Ok(());
    };
    plain.ask_gone(alloc, asked.0.as_slice(), &asked.1)?;
    keep_steps(output, plain);
    Ok(())
}
