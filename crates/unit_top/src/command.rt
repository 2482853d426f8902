//! The words of the command line.
ghost use Rattle.std.specs.Prelude.{◌≡◌, bytes_eq, map, string_bytes, IfSome, IfNone, Some, None};
ghost use Rattle.unit_top.specs.Command.{asked, is_listed, command_of, load_command};

use unit_types::{Bytes, plain_decimal};

/// The most requests of a load. More are no form of the command line (status 2).
const LOAD_LIMIT: u64 = 10_000;

/// What the words ask for.
#[derive(Clone, Copy, Debug, Drop)]
pub enum Command<'a> {
    /// One connection on the source, every request of which goes to the handler of this name.
    Once(&'a str),
    /// The script on the source.
    Exchange,
    /// The trace of the script on the source.
    Trace,
    /// The check of a trace on the source.
    Check,
    /// A made script of so many requests, by draws from a seed.
    Load { requests: u16, seed: u64 },
}

fn is_same(name: &[u8], known: &Bytes) -> bool
    ensures { result ≡ bytes_eq name.now known.now }
{
    name == known.as_slice()
}

// Whether `name` is one of the names.
fn is_name(names: &[Bytes], name: &[u8]) -> bool
    ensures { result ≡ is_listed names.now name.now }
{
    names.iter().any(|known| is_same(name, known))
}

// `load N SEED`.
#[tactic(auto, unfolding(crate::specs::Command::load_command))]
fn load_command<'a>(word: &str, requests: &str, seed: &str) -> Option<Command<'a>>
    ensures some { IfSome result
        (λ command. load_command word.now requests.now seed.now ≡ Some (asked command)) }
    ensures none { IfNone result (load_command word.now requests.now seed.now ≡ None) }
{
    if word != "load" {
        return None;
    }
    let requests = plain_decimal(requests.as_bytes(), LOAD_LIMIT)?;
    let seed = plain_decimal(seed.as_bytes(), u64::MAX)?;
    if requests < 1 {
        return None;
    }
    Some(Command::Load {
        requests: requests as u16,
        seed,
    })
}

/// What the words ask for: `once HANDLER`, where a handler has that name, `exchange`, `trace`, `check` or `load N SEED`.
/// None where they are none of these.
pub fn command_of<'a>(names: &[Bytes], words: &'a [String]) -> Option<Command<'a>>
    ensures some { IfSome result
        (λ command. command_of names.now (map string_bytes words.now) ≡ Some (asked command)) }
    ensures none { IfNone result (command_of names.now (map string_bytes words.now) ≡ None) }
{
    match words {
        [word] if word.as_str() == "exchange" => Some(Command::Exchange),
        [word] if word.as_str() == "trace" => Some(Command::Trace),
        [word] if word.as_str() == "check" => Some(Command::Check),
        [word, handler] if word.as_str() == "once" && is_name(names, handler.as_bytes()) => {
            Some(Command::Once(handler.as_str()))
        }
        [word, requests, seed] => load_command(word.as_str(), requests.as_str(), seed.as_str()),
        _ => None,
    }
}
