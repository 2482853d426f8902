//! The text of a status.
ghost use Rattle.std.specs.Prelude.{◌≡◌, ◌++◌, ◌<◌, decimal, IfOk, OnOk};
ghost use Rattle.control_status.specs.Status as spec;

use itoa::Buffer;
use status_book::Looks;
use std::alloc::{AllocError, Global};
use unit_types::Bytes;

/// The counts in sum over the engines, as JSON.
///
/// Fails for want of memory alone.
pub(crate) fn status_text(alloc: Global, looks: &Looks) -> Result<Bytes, AllocError>
    ensures { IfOk result (λ text. text ≡ spec.status_text looks.now.counts) }
{
    let mut text = Bytes::copy_of(alloc, b"")?;
    put_count(&mut text, b"{\"connections\":", looks, 0)?;
    put_count(&mut text, b",\"requests\":{\"app\":", looks, 1)?;
    put_count(&mut text, b",\"busy\":", looks, 2)?;
    put_count(&mut text, b",\"cut\":", looks, 3)?;
    put_count(&mut text, b",\"gone\":", looks, 4)?;
    put_count(&mut text, b",\"late\":", looks, 5)?;
    put_count(&mut text, b",\"memory\":", looks, 6)?;
    put_count(&mut text, b",\"own\":", looks, 7)?;
    text.append(b"}}")?;
    Ok(text)
}

/// Puts a count in sum over the engines behind the text, under its label.
fn put_count(text: &mut Bytes, label: &[u8], looks: &Looks, kind: usize) -> Result<(), AllocError>
    requires { kind < 8 }
    ensures { OnOk result (text.new
        ≡ text.old ++ label.now ++ decimal (spec.sum_of_kind looks.now.counts kind)) }
{
    let mut digits = Buffer::new();
    text.append(label)?;
    text.append(digits.format(sum_of_kind(looks, kind)).as_bytes())
}

// Four numbers of 64 bits are below 2^66 in sum.
fn sum_of_kind(looks: &Looks, kind: usize) -> u128
    requires { kind < 8 }
    ensures { result ≡ spec.sum_of_kind looks.now.counts kind }
{
    let counts = &looks.counts;
    counts[kind] as u128
        + counts[8 + kind] as u128
        + counts[16 + kind] as u128
        + counts[24 + kind] as u128
}
