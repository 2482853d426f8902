//! The words of `serve`, read by `clap`.
ghost use Rattle.std.specs.Prelude.{◌≡◌, ◌↔◌, ℕ, List, false, map, string_bytes};
ghost use Rattle.std.specs.Prelude.{IfOk, IfSome, IsSome};
ghost use Rattle.clap.specs.Words.{app_of, rule_of, HasMatchesOf};
ghost use Rattle.unit_serve.specs.Serve.{EachReadsAs, HasMatches, IsRead, ReadsAs};
ghost use Rattle.unit_serve.specs.Serve as spec;

use clap::error::ErrorKind;
use clap::{Arg, ArgMatches, Command, value_parser};
use std::alloc::{AllocError, Global};

/// What `serve` is asked for.
#[derive(Debug, Drop)]
pub struct ServeWords {
    /// The port of the control interface.
    pub control: u16,
    /// One to four ports, one for each engine.
    pub ports: Vec<u16>,
    /// The number of workers, 1 to 4.
    pub workers: u32,
    /// Connections that an engine has at a time, 1 to 8,192.
    pub accept: u32,
}

fn workers_arg<'a>(alloc: Global) -> Arg<'a>
    ensures rule { rule_of result ≡ spec.workers }
    ensures local { result.global ≡ false }
{
    Arg::new(alloc, "workers")
        .long("workers")
        .value_parser(value_parser!(u32).range(1..=4))
        .default_value("2")
}

fn accept_arg<'a>(alloc: Global) -> Arg<'a>
    ensures rule { rule_of result ≡ spec.accept }
    ensures local { result.global ≡ false }
{
    Arg::new(alloc, "accept")
        .long("accept")
        .value_parser(value_parser!(u32).range(1..=8192))
        .default_value("8192")
}

fn control_arg<'a>(alloc: Global) -> Arg<'a>
    ensures rule { rule_of result ≡ spec.control }
    ensures local { result.global ≡ false }
{
    Arg::new(alloc, "control")
        .required(true)
        .value_parser(value_parser!(u16).range(1..))
}

fn ports_arg<'a>(alloc: Global) -> Arg<'a>
    ensures rule { rule_of result ≡ spec.ports }
    ensures local { result.global ≡ false }
{
    Arg::new(alloc, "ports")
        .required(true)
        .num_args(1..=4)
        .value_parser(value_parser!(u16).range(1..=65535))
}

fn serve_command<'a>(alloc: Global) -> Result<Command<'a>, AllocError>
    ensures { IfOk result (λ c. app_of c ≡ spec.serve) }
{
    let command = Command::new(alloc, "serve")
        .arg(workers_arg(alloc))?
        .arg(accept_arg(alloc))?
        .arg(control_arg(alloc))?
        .arg(ports_arg(alloc))?;
    Ok(command)
}

/// What the words after the program's name ask for, of which the first is `serve`. None exactly
/// where `clap` has no matches for them as that command, or help is asked; else each field is the
/// number that the value of the matches writes, and lies in its range.
///
/// `clap` takes a number with a plus in front or with leading zeros, as `+8080` and `08080`. Fails
/// for want of memory alone.
pub fn serve_words(alloc: Global, words: &[String]) -> Result<Option<ServeWords>, AllocError>
    ensures some { IfOk result (λ o. IsSome o ↔ HasMatches (map string_bytes words.now)) }
    ensures values { IfOk result (λ o. IfSome o (IsRead (map string_bytes words.now))) }
{
    let command = serve_command(alloc)?;
    match command.try_get_matches_from(words) {
        Ok(matches) => Ok(Some(read(alloc, &matches)?)),
        Err(e) => if e.kind() == ErrorKind::OutOfMemory {
            Err(AllocError)
        } else {
            Ok(None)
        },
    }
}

// The numbers of the matches. Each argument has a value that writes a number in its range, so that
// no 0 below is ever told.
fn read(alloc: Global, matches: &ArgMatches<'_>) -> Result<ServeWords, AllocError>
    ensures { IfOk result (λ r. (words : List (List ℕ)) → HasMatches words
        → HasMatchesOf spec.serve words matches.now → IsRead words r) }
{
    let control = matches.get_str("control");
    let workers = matches.get_str("workers");
    let accept = matches.get_str("accept");
    let ports = ports_of(alloc, matches.get_strs("ports"))?;
    Ok(ServeWords {
        control: port_of(control),
        ports,
        workers: number_of(workers),
        accept: number_of(accept),
    })
}

fn port_of(text: Option<&str>) -> u16
    ensures { IfSome text.entry (λ t. ReadsAs 16 t.now result) }
{
    match text {
        Some(text) => port_in(text),
        None => 0,
    }
}

fn port_in(text: &str) -> u16
    ensures { ReadsAs 16 text.now result }
{
    match text.parse::<u16>() {
        Ok(port) => port,
        Err(_) => 0,
    }
}

fn ports_of(alloc: Global, texts: Option<&[&str]>) -> Result<Vec<u16>, AllocError>
    ensures { IfOk result (λ ports. IfSome texts.entry
        (λ ts. EachReadsAs 16 (map (λ t. t.now) ts.now) ports.items)) }
{
    match texts {
        Some(texts) => ports_in(alloc, texts),
        None => Ok(Vec::new(alloc)),
    }
}

fn ports_in(alloc: Global, texts: &[&str]) -> Result<Vec<u16>, AllocError>
    ensures { IfOk result (λ ports. EachReadsAs 16 (map (λ t. t.now) texts.now) ports.items) }
{
    let mut ports = Vec::with_capacity(alloc, texts.len())?;
    for text in texts {
        ports.push(port_in(text))?;
    }
    Ok(ports)
}

fn number_of(text: Option<&str>) -> u32
    ensures { IfSome text.entry (λ t. ReadsAs 32 t.now result) }
{
    match text {
        Some(text) => number_in(text),
        None => 0,
    }
}

fn number_in(text: &str) -> u32
    ensures { ReadsAs 32 text.now result }
{
    match text.parse::<u32>() {
        Ok(number) => number,
        Err(_) => 0,
    }
}
