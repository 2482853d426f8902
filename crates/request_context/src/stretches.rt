//! Bytes in stretches of one length.
ghost use Rattle.std.specs.Prelude.{◌≡◌, ◌≤◌, ◌<◌, ◌*◌, length};
ghost use Rattle.request_context.specs.Parts.{part_size, piece_size, stretch_count, stretch_of};

/// The bytes of a part of a reply record, of which one message carries one. Part of the record's format.
pub const PART_SIZE: usize = 262_144;

// How many stretches of this size the bytes have; the last one may be shorter.
#[tactic(auto, unfolding(crate::specs::Parts::stretch_count))]
pub(crate) fn count_stretches(bytes: &[u8], size: usize) -> usize
    requires some { 0 < size }
    requires small { size ≤ part_size }
    ensures { result ≡ stretch_count size bytes.now }
{
    (bytes.len() + (size - 1)) / size
}

// Stretch `number` of the bytes.
#[tactic(auto, unfolding(crate::specs::Parts::stretch_of))]
pub(crate) fn stretch(bytes: &[u8], size: usize, number: usize) -> &[u8]
    requires { size * number ≤ length bytes.now }
    ensures value { result.now ≡ stretch_of size bytes.now number }
    ensures short { length result.now ≤ size }
{
    let (_, rest) = bytes.split_at(size * number);
    if rest.len() <= size {
        return rest;
    }
    let (stretch, _) = rest.split_at(size);
    stretch
}
