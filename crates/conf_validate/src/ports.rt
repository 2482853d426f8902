//! The port of a listener's name.
ghost use Rattle.std.specs.Prelude.{◌≡◌, MatchOption, None, Some};
ghost use Rattle.conf_validate.specs.Ports.{port_number, port_of, port_text};

use crate::names::is_port;
use unit_types::plain_decimal;

/// What stands behind the last `:` of a listener's name; None where there is no `:`.
pub fn port_text(name: &[u8]) -> Option<&[u8]>
    ensures { MatchOption result (port_text name.now ≡ None)
        (λ port. port_text name.now ≡ Some port.now) }
{
    let mut behind = None;
    for (at, byte) in name.iter().enumerate() {
        if *byte == b':' {
            behind = Some(&name[at + 1..]);
        }
    }
    behind
}

/// The port of a listener's name: the number behind its last `:`. None where that is no number from 1 to 65535
/// without a leading zero.
pub fn port_of(name: &[u8]) -> Option<u16>
    ensures { result ≡ port_of name.now }
{
    match port_text(name) {
        Some(port) => port_number(port),
        None => None,
    }
}

fn port_number(text: &[u8]) -> Option<u16>
    ensures { result ≡ port_number text.now }
{
    if !is_port(text) {
        return None;
    }
    let number = plain_decimal(text, 65535)?;
    u16::try_from(number).ok()
}
