//! The words by which a program's measurements are asked for.

use std::io;

/// The measurement of this word, where there is one.
pub fn named<M: Copy>(words: &[(&str, M)], word: &str) -> Option<M> {
    for (name, measurement) in words {
        if *name == word {
            return Some(*measurement);
        }
    }
    None
}

/// Prints the words, with a space between them.
pub fn print_words<M>(rt: &HostRuntime, words: &[(&str, M)]) -> io::Result<()> {
    for (at, (word, _)) in words.iter().enumerate() {
        if at > 0 {
            print!(rt; " ")?;
        }
        print!(rt; "{word}")?;
    }
    println!(rt; "")
}
