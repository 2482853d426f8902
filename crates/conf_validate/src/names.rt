//! The forms of names.
ghost use Rattle.std.specs.Prelude.{◌≡◌, ◌≤◌, ◌==◌};
ghost use Rattle.std.specs.List.{list_all, list_any};
ghost use Rattle.unit_types.specs.Token.{is_tchar};
ghost use Rattle.conf_validate.specs.Forms.{are_numbers, is_header_name, is_host, is_listener_name, is_number, is_of_connection, is_port, is_target_name, is_token};

use http_header::is_token_char;
use unit_types::{cut, plain_decimal};

/// Whether the text is digits without a leading zero, of a value of at most `limit`.
fn is_number(text: &[u8], limit: u16) -> bool
    ensures { result ≡ is_number limit text.now }
{
    plain_decimal(text, u64::from(limit)).is_some()
}

/// Whether the text is so many numbers up to 255, each with a period behind it, and one more.
fn are_numbers(count: u8, text: &[u8]) -> bool
    ensures { result ≡ are_numbers count text.now }
{
    if count == 0 {
        return is_number(text, 255);
    }
    match cut(text, b'.') {
        Some((first, rest)) => is_number(first, 255) && are_numbers(count - 1, rest),
        None => false,
    }
}

fn is_host(text: &[u8]) -> bool
    ensures { result ≡ is_host text.now }
{
    text == b"*".as_slice() || are_numbers(3, text)
}

pub(crate) fn is_port(text: &[u8]) -> bool
    ensures { result ≡ is_port text.now }
{
    is_number(text, 65535) && !(text == b"0".as_slice())
}

/// Whether the name is one of a listener: HOST`:`PORT, where HOST is `*` or four numbers up to 255 with periods between
/// them, PORT is 1 to 65535, and no number has a leading zero.
pub(crate) fn is_listener_name(name: &[u8]) -> bool
    ensures { result ≡ is_listener_name name.now }
{
    match cut(name, b':') {
        Some((host, port)) => is_host(host) && is_port(port),
        None => false,
    }
}

/// Whether a pass can have the name behind its `/`: it isn't empty and has no `/`.
pub(crate) fn is_target_name(name: &[u8]) -> bool
    ensures { result ≡ is_target_name name.now }
{
    !name.is_empty() && !has_slash(name)
}

fn has_slash(name: &[u8]) -> bool
    ensures { result ≡ list_any (λ b. b == 47) name.now }
{
    name.iter().any(|b| *b == b'/')
}

/// Whether the byte may stand in a token (RFC 9110, section 5.6.2).
fn is_tchar(byte: u8) -> bool
    ensures { result ≡ is_tchar byte }
{
    is_token_char(byte)
}

fn is_token(name: &[u8]) -> bool
    ensures { result ≡ is_token name.now }
{
    !name.is_empty() && has_only_tchars(name)
}

fn has_only_tchars(name: &[u8]) -> bool
    ensures { result ≡ list_all is_tchar name.now }
{
    name.iter().all(|b| is_tchar(*b))
}

/// Whether the field belongs to the connection: Content-Length, Connection or Transfer-Encoding, in any case.
fn is_of_connection(name: &[u8]) -> bool
    ensures { result ≡ is_of_connection name.now }
{
    name.eq_ignore_ascii_case(b"content-length")
        || name.eq_ignore_ascii_case(b"connection")
        || name.eq_ignore_ascii_case(b"transfer-encoding")
}

/// Whether the header field may be changed.
pub(crate) fn is_header_name(name: &[u8]) -> bool
    ensures { result ≡ is_header_name name.now }
{
    is_token(name) && !is_of_connection(name)
}
