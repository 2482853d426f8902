//! Numbers in decimal digits.
ghost use Rattle.std.specs.Prelude.{◌≡◌, ◌<◌, ◌≤◌, IfSome, IfNone};
ghost use Rattle.http_front.specs.Framing.{number_of};

/// The number that the digits write, where it is at most `limit`.
pub(crate) fn number_within(digits: &[u8], limit: u64) -> Option<u64>
    ensures is { IfSome result (λ n. n ≡ number_of digits.now) }
    ensures small { IfSome result (λ n. n ≤ limit) }
    ensures above { IfNone result (limit < number_of digits.now) }
{
    let mut number: u64 = 0;
    for digit in digits {
        number = number
            .checked_mul(10)?
            .checked_add(u64::from(digit.saturating_sub(b'0')))?;
    }
    if number <= limit { Some(number) } else { None }
}
