//! Texts of bytes, cut and in lower case.
ghost use Rattle.std.specs.Prelude.{◌≡◌, option_map, IfOk};
ghost use Rattle.std.specs.Str.{str_to_ascii_lowercase};
ghost use Rattle.unit_types.specs.Text as spec;

use crate::bytes::Bytes;
use std::alloc::{AllocError, Global};

/// The text in front of the first separator and the text behind it, where there is a separator.
pub fn cut(text: &[u8], separator: u8) -> Option<(&[u8], &[u8])>
    ensures { option_map (λ parts. (parts.0.now, parts.1.now)) result
        ≡ spec.cut separator text.now }
{
    let at = text.iter().position(|b| *b == separator)?;
    Some((&text[..at], &text[at + 1..]))
}

/// The text with its ASCII letters in lower case.
///
/// Fails for want of memory alone.
pub fn lowercase(alloc: Global, text: &[u8]) -> Result<Bytes, AllocError>
    ensures { IfOk result (λ lower. lower ≡ str_to_ascii_lowercase text.now) }
{
    let mut lower = Vec::from_slice(alloc, text)?;
    lower.as_mut_slice().make_ascii_lowercase();
    Ok(Bytes::of(lower))
}

#[cfg(test)]
mod tests {
    use super::*;

    #[test]
    fn cuts_at_the_first_separator(rt: HostRuntime) {
        let parts = cut(b"a:b:c", b':');
        assert!(rt; matches!(parts, Some((b"a", b"b:c"))));
        assert!(rt; cut(b"abc", b':').is_none());
    }

    #[test]
    fn lowers_letters_alone(rt: HostRuntime) {
        let lower = lowercase(rt.alloc(), b"Content-Length: 5Z[").expect(&rt, "copied");
        assert!(rt; lower.as_slice() == b"content-length: 5z[".as_slice());
    }
}
