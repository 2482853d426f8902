//! A text cut at its first separator.
ghost use Rattle.std.specs.Prelude.{◌≡◌, ◌≢◌, ◌<◌, ◌==◌, ◌∷◌, All, IfSome, length};
ghost use Rattle.std.specs.List.{slice_split, before_first, after_first};
ghost use Rattle.path_normal.specs.Cut.{parts_behind, text_behind};

/// The part in front of the first separator, and the text behind it where there is one.
pub(crate) fn cut(text: &[u8], separator: u8) -> (&[u8], Option<&[u8]>)
    ensures parts { slice_split (λ b. b == separator) text.now
        ≡ result.0.now ∷ parts_behind separator result.1 }
    ensures front { result.0.now ≡ before_first (λ b. b == separator) text.now }
    ensures behind { text_behind result.1 ≡ after_first (λ b. b == separator) text.now }
    ensures clean { All (λ b. b ≢ separator) result.0.now }
    ensures shorter { IfSome result.1 (λ rest. length rest.now < length text.now) }
{
    match unit_types::cut(text, separator) {
        Some((front, behind)) => (front, Some(behind)),
        None => (text, None),
    }
}
