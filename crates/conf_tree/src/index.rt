//! Indices of items in a path.
ghost use Rattle.conf_tree.specs.Places.{IsIndexBelow, IsNumberBelow};

/// The index that a key names: digits without a leading zero. None where it names none, or none below `len`.
pub(crate) fn index_below(key: &[u8], len: usize) -> Option<usize>
    ensures { IsIndexBelow key.now len result }
{
    if key.len() > 1 && key[0] == b'0' {
        return None;
    }
    if key.is_empty() {
        return None;
    }
    number_below(key, len)
}

/// The number that these digits write. None where they aren't digits, or where it isn't below `len`.
fn number_below(digits: &[u8], len: usize) -> Option<usize>
    ensures { IsNumberBelow digits.now len result }
{
    let mut number: usize = 0;
    for digit in digits {
        if !digit.is_ascii_digit() {
            return None;
        }
        number = number
            .checked_mul(10)?
            .checked_add((*digit - b'0') as usize)?;
    }
    if number < len { Some(number) } else { None }
}
