//! What stands at the front of bytes: a number or a text, with the bytes behind it, where there is one.
ghost use Rattle.std.specs.Prelude.{◌≡◌};
ghost use Rattle.std.specs.Int.{w8, w16, w32, w64};
ghost use Rattle.std.specs.Option.{option_map};
ghost use Rattle.request_context.specs.Reading.{number_at, text_at, minor_at};

// A number of one byte.
#[tactic(auto, unfolding(crate::specs::Reading::number_at))]
pub(crate) fn u8_at(bytes: &[u8]) -> Option<(u8, &[u8])>
    ensures { option_map (λ x. (x.0, x.1.now)) result ≡ number_at w8 bytes.now }
{
    if bytes.len() < 1 {
        return None;
    }
    let (front, rest) = bytes.split_at(1);
    Some((front[0], rest))
}

// A number of two bytes.
#[tactic(auto, unfolding(crate::specs::Reading::number_at))]
pub(crate) fn u16_at(bytes: &[u8]) -> Option<(u16, &[u8])>
    ensures { option_map (λ x. (x.0, x.1.now)) result ≡ number_at w16 bytes.now }
{
    if bytes.len() < 2 {
        return None;
    }
    let (front, rest) = bytes.split_at(2);
    Some((u16::from_be_bytes([front[0], front[1]]), rest))
}

// A number of four bytes.
#[tactic(auto, unfolding(crate::specs::Reading::number_at))]
pub(crate) fn u32_at(bytes: &[u8]) -> Option<(u32, &[u8])>
    ensures { option_map (λ x. (x.0, x.1.now)) result ≡ number_at w32 bytes.now }
{
    if bytes.len() < 4 {
        return None;
    }
    let (front, rest) = bytes.split_at(4);
    let number = u32::from_be_bytes([front[0], front[1], front[2], front[3]]);
    Some((number, rest))
}

// A number of eight bytes.
#[tactic(auto, unfolding(crate::specs::Reading::number_at))]
pub(crate) fn u64_at(bytes: &[u8]) -> Option<(u64, &[u8])>
    ensures { option_map (λ x. (x.0, x.1.now)) result ≡ number_at w64 bytes.now }
{
    if bytes.len() < 8 {
        return None;
    }
    let (front, rest) = bytes.split_at(8);
    let number = u64::from_be_bytes([
        front[0], front[1], front[2], front[3], front[4], front[5], front[6], front[7],
    ]);
    Some((number, rest))
}

// A minor version.
#[tactic(auto, unfolding(crate::specs::Reading::minor_at))]
pub(crate) fn minor_at(bytes: &[u8]) -> Option<(u8, &[u8])>
    ensures { option_map (λ x. (x.0, x.1.now)) result ≡ minor_at bytes.now }
{
    let (minor, rest) = u8_at(bytes)?;
    if minor > 1 {
        return None;
    }
    Some((minor, rest))
}

// A text behind its length.
#[tactic(auto, unfolding(crate::specs::Reading::text_at))]
pub(crate) fn text_at(bytes: &[u8]) -> Option<(&[u8], &[u8])>
    ensures { option_map (λ x. (x.0.now, x.1.now)) result ≡ text_at bytes.now }
{
    let (len, rest) = u32_at(bytes)?;
    let len = len as usize;
    if rest.len() < len {
        return None;
    }
    Some(rest.split_at(len))
}
