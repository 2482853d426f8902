//! Whether the case of ASCII letters counts.
ghost use Rattle.std.specs.Prelude.{◌≡◌, ◌==◌};
ghost use Rattle.std.specs.Char.{to_ascii_lowercase};
ghost use Rattle.std.specs.Str.{bytes_eq, str_to_ascii_lowercase};
ghost use Rattle.pattern_text.specs.Case.{folded, folded_all};

/// Whether the case of ASCII letters counts.
#[derive(Clone, Copy, Drop)]
pub(crate) enum Case {
    Exact,
    Ignored,
}

/// What a byte is compared as.
pub(crate) fn fold(case: Case, byte: u8) -> u8
    ensures { result ≡ folded case byte }
{
    match case {
        Case::Exact => byte,
        Case::Ignored => byte.to_ascii_lowercase(),
    }
}

/// Whether two texts are compared as the same bytes.
pub(crate) fn is_same(text: &[u8], other: &[u8], case: Case) -> bool
    ensures { result ≡ bytes_eq (folded_all case text.now) (folded_all case other.now) }
{
    match case {
        Case::Exact => text == other,
        Case::Ignored => is_same_ignoring_case(text, other),
    }
}

/// Whether two texts are the same in lower case.
fn is_same_ignoring_case(text: &[u8], other: &[u8]) -> bool
    ensures { result
        ≡ bytes_eq (str_to_ascii_lowercase text.now) (str_to_ascii_lowercase other.now) }
{
    if text.len() != other.len() {
        return false;
    }
    for (at, byte) in text.iter().enumerate() {
        if !is_same_letter(*byte, other[at]) {
            return false;
        }
    }
    true
}

/// Whether two bytes are the same in lower case. Mostly they are the same as they stand, and only those that differ are
/// folded.
fn is_same_letter(byte: u8, other: u8) -> bool
    ensures { result ≡ (to_ascii_lowercase byte == to_ascii_lowercase other) }
{
    byte == other || byte.to_ascii_lowercase() == other.to_ascii_lowercase()
}
