//! Readers of what is published.
ghost use Rattle.std.specs.Prelude.{◌≡◌, ◌+◌, ◌-◌, ◌^◌, ◌≤◌, length, min, IfOk, IfSome, OnErr, IsTrue};
ghost use mathlib.Core.List.{IsPrefix};
ghost use Rattle.conf_validate.specs.Current.{numbered};
ghost use Rattle.conf_shared.specs.Lists.{IsNewest};

use crate::edition::Edition;
use crate::history::Naming;
use crate::rule::{EditionReader, Of};
use conf_validate::Current;
use core::mem::replace_with;
use std::alloc::AllocError;
use std::marker::Model;

/// A reader of the published configurations, which may be in another thread than what publishes them, and waits for
/// nobody. Contracts see the list of configurations that it has seen, and how often it entered.
#[derive(Drop)]
pub struct ConfReader<J: Naming> {
    inner: EditionReader<J>,
    seen: Edition,
    enters: u64,
}

impl<J: Naming> Model for ConfReader<J> {
    ghost use Rattle.std.specs.Prelude.{◌≡◌, List, ℕ};
    ghost use Rattle.conf_validate.specs.Configuration.{Configuration};

    ghost Value = { List Configuration × ℕ };

    ghost view = { λ r. (r.seen.seen.log, r.enters) };

    ghost invariant = { λ r. r.seen.seen.book ≡ J.history };
}

impl<J: Naming> ConfReader<J> {
    pub(crate) fn over(inner: EditionReader<J>, seen: Edition) -> ConfReader<J>
        requires { seen.seen.book ≡ J.history }
        ensures { result ≡ (seen.seen.log, 0) }
    {
        ConfReader {
            inner,
            seen,
            enters: 0,
        }
    }

    /// The newest configuration of the list that it has then seen, which begins with what it had seen before. Where no
    /// reading can be had the list stays, and its newest one is given again.
    ///
    /// Fails for want of memory alone; it counts as an enter all the same, and the list is as before.
    #[tactic(auto, using(crate::proofs::PrefixLemmas::prefix_length))]
    pub fn enter(&mut self) -> Result<Current, AllocError>
        ensures newest { IfOk result (λ c. IsNewest self.new.0 (numbered c)) }
        ensures no_less { IfOk result (λ c. length self.old.0 ≤ c.number + 1) }
        ensures later { IsPrefix self.old.0 self.new.0 }
        ensures err { OnErr result (self.new.0 ≡ self.old.0) }
        ensures count { self.new.1 ≡ min (self.old.1 + 1) (2 ^ 64 - 1) }
    {
        self.enters = self.enters.saturating_add(1);
        let newer = replace_with(
            &mut self.inner,
            &self.seen,
            |inner, seen| -> (EditionReader<J>, Result<Option<Edition>, AllocError>)
                requires { seen.now.seen.book ≡ J.history }
                ensures { IfOk result.1 (λ o. IfSome o (λ e. (e.seen.book ≡ J.history)
                    × IsPrefix seen.now.seen.log e.seen.log)) }
            { look::<J>(inner, seen) },
        );
        match newer? {
            Some(edition) => {
                let current = edition.last().another()?;
                self.seen = edition;
                Ok(current)
            }
            None => self.seen.last().another(),
        }
    }

    /// The number of the newest configuration that it has seen. It takes no memory.
    pub fn last(&self) -> u64
        ensures { result + 1 ≡ length self.now.0 }
    {
        self.seen.number()
    }

    /// How often it entered; the count stands still at `u64::MAX`. It takes no memory.
    pub fn enters(&self) -> u64
        ensures { result ≡ self.now.1 }
    {
        self.enters
    }

    pub(crate) fn begins(&self, edition: &Edition) -> bool
        requires { edition.now.seen.book ≡ J.history }
        ensures { IsTrue result → IsPrefix self.now.0 edition.now.seen.log }
    {
        self.seen.begins(edition)
    }
}

/// What is shown now, if it is longer than what was seen, and the reader again.
fn look<J: Naming>(
    reader: EditionReader<J>,
    seen: &Edition,
) -> (EditionReader<J>, Result<Option<Edition>, AllocError>)
    requires { seen.now.seen.book ≡ J.history }
    ensures { IfOk result.1 (λ o. IfSome o (λ e. (e.seen.book ≡ J.history)
        × IsPrefix seen.now.seen.log e.seen.log)) }
{
    match reader.enter_as::<Of<J>>() {
        Ok(reading) => {
            let newer = newer_of(reading.get(), seen);
            (reading.leave(), newer)
        }
        Err(reader) => (reader, Ok(None)),
    }
}

fn newer_of(shown: &Edition, seen: &Edition) -> Result<Option<Edition>, AllocError>
    requires { seen.now.seen.book ≡ shown.now.seen.book }
    ensures { IfOk result (λ o. IfSome o (λ e. (e.seen.book ≡ shown.now.seen.book)
        × IsPrefix seen.now.seen.log e.seen.log)) }
{
    if shown.len() > seen.len() && seen.begins(shown) {
        Ok(Some(shown.another()?))
    } else {
        Ok(None)
    }
}
