//! The forms of texts.
ghost use Rattle.std.specs.Prelude.{◌≡◌, map, nat_le};
ghost use Rattle.std.specs.List.{list_all};
ghost use Rattle.conf_validate.specs.Forms.{has_form, has_variables, is_in_line, is_location, is_log_format, is_rewrite, is_text_pattern, log_variables};

use crate::place::Form;
use path_normal::variable_count;
use pattern_addr::AddrPattern;

/// Whether the text has the form.
pub(crate) fn has_form(form: Form, text: &[u8]) -> bool
    ensures { result ≡ has_form form text.now }
{
    match form {
        Form::TextPattern => is_text_pattern(text),
        Form::AddressPattern => AddrPattern::parse(text).is_some(),
        Form::Pass => has_variables(text, &[], 4),
        Form::Location | Form::HeaderText => is_location(text),
        Form::Rewrite => is_rewrite(text),
        Form::External => text == b"external".as_slice(),
        Form::Handler => true,
        Form::Format => is_log_format(text),
    }
}

/// Whether each `$` begins a variable, or one of the further ones, and there are at most so many.
fn has_variables(text: &[u8], further: &[&[u8]], most: usize) -> bool
    ensures { result ≡ has_variables (map (λ name. name.now) further.now) most text.now }
{
    match variable_count(text, further) {
        Some(count) => count <= most,
        None => false,
    }
}

/// Whether the text is a pattern; `~` would begin a regular expression, which there is none of.
fn is_text_pattern(text: &[u8]) -> bool
    ensures { result ≡ is_text_pattern text.now }
{
    !text.starts_with(b"~") && !text.starts_with(b"!~")
}

/// Whether there is no NUL, LF or CR.
fn is_in_line(text: &[u8]) -> bool
    ensures { result ≡ is_in_line text.now }
{
    text.iter()
        .all(|b| !(*b == 0) && (!(*b == b'\n') && !(*b == b'\r')))
}

fn is_location(text: &[u8]) -> bool
    ensures { result ≡ is_location text.now }
{
    is_in_line(text) && has_variables(text, &[], 4)
}

fn is_rewrite(text: &[u8]) -> bool
    ensures { result ≡ is_rewrite text.now }
{
    text.starts_with(b"/") && text.len() <= 1024 && is_location(text)
}

/// Whether the text is the format of an access log: at most 1,024 bytes, none of them below 0x20, and at most 32
/// variables; each `$` begins a variable of a request, or `status`, `body_bytes_sent` or `request_line`.
pub fn is_log_format(text: &[u8]) -> bool
    ensures { result ≡ is_log_format text.now }
{
    text.len() <= 1024 && is_visible(text) && has_log_variables(text)
}

/// Whether there is no byte below 0x20.
fn is_visible(text: &[u8]) -> bool
    ensures { result ≡ list_all (λ b. nat_le 32 b) text.now }
{
    text.iter().all(|b| *b >= 0x20)
}

fn has_log_variables(text: &[u8]) -> bool
    ensures { result ≡ has_variables log_variables 32 text.now }
{
    has_variables(text, &[b"status", b"body_bytes_sent", b"request_line"], 32)
}
