//! Part words.
ghost use Rattle.std.specs.Prelude.{◌≡◌, ◌<◌, ◌^◌, ℕ, Bool};
ghost use Rattle.port_message.specs.Words.{part_word_of};
ghost use Rattle.unit_model.specs.Core.{is_last_in, number_in};

/// The word of a part: its number, and whether it is the last of its reply.
pub fn part_word(part: u32, last: bool) -> u64
    ensures { result ≡ part_word_of part last }
{
    2 * part as u64 + last as u64
}

/// The part of a word: its number, and whether it is the last of its reply.
pub fn part_of(word: u64) -> (u32, bool)
    requires { word < 2 ^ 33 }
    ensures { result ≡ (number_in word, is_last_in word) }
{
    ((word / 2) as u32, word % 2 == 1)
}

/// `part_word` and `part_of` undo each other. This does nothing: its contract is the law.
pub fn part_words_are_inverse()
    ensures number { (part : ℕ) (last : Bool) → number_in (part_word_of part last) ≡ part }
    ensures last { (part : ℕ) (last : Bool) → is_last_in (part_word_of part last) ≡ last }
    ensures word { (word : ℕ) → part_word_of (number_in word) (is_last_in word) ≡ word }
    ensures bound { (part : ℕ) (last : Bool) → part < 2 ^ 32 → part_word_of part last < 2 ^ 33 }
{}
