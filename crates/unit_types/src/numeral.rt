//! Decimal numbers.
ghost use Rattle.std.specs.Prelude.{◌≡◌, ◌≤◌, IfSome};
ghost use Rattle.unit_types.specs.Numeral.{decimal_within, has_leading_zero, plain_decimal_within};

/// The number of at most `limit` that the text writes: one decimal digit or more, leading zeros too.
pub fn decimal(text: &[u8], limit: u64) -> Option<u64>
    ensures value { result ≡ decimal_within limit text.now }
    ensures small { IfSome result (λ n. n ≤ limit) }
{
    if text.is_empty() {
        return None;
    }
    let mut number = 0u64;
    for digit in text {
        if !digit.is_ascii_digit() {
            return None;
        }
        number = number
            .checked_mul(10)?
            .checked_add(u64::from(*digit - b'0'))?;
        if number > limit {
            return None;
        }
    }
    Some(number)
}

// Whether several bytes begin with the digit 0.
fn has_leading_zero(text: &[u8]) -> bool
    ensures { result ≡ has_leading_zero text.now }
{
    text.len() > 1 && text[0] == b'0'
}

/// The number of at most `limit` that the text writes: one decimal digit or more, without a leading zero; `0` is one.
pub fn plain_decimal(text: &[u8], limit: u64) -> Option<u64>
    ensures value { result ≡ plain_decimal_within limit text.now }
    ensures small { IfSome result (λ n. n ≤ limit) }
{
    if has_leading_zero(text) {
        return None;
    }
    decimal(text, limit)
}

#[cfg(test)]
mod tests {
    use super::*;

    #[test]
    fn reads_numbers_up_to_the_limit(rt: HostRuntime) {
        assert_eq!(rt; decimal(b"0080", 80), Some(80));
        assert_eq!(rt; decimal(b"81", 80), None);
        assert_eq!(rt; decimal(b"", 80), None);
        assert_eq!(rt; decimal(b"8a", 80), None);
        assert_eq!(rt; decimal(b"18446744073709551616", u64::MAX), None);
        assert_eq!(rt; plain_decimal(b"080", 80), None);
        assert_eq!(rt; plain_decimal(b"0", 80), Some(0));
    }
}
