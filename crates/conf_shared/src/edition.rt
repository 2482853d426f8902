//! A beginning of the history, with its newest configuration at hand.
ghost use Rattle.std.specs.Prelude.{◌≡◌, ◌+◌, ◌-◌, ◌^◌, ◌++◌, ◌∷◌, ◌<◌, [], length, map, IfOk, OnOk, IsTrue, IfSome};
ghost use Rattle.std.specs.Arc.{arc_value};
ghost use mathlib.Core.List.{IsPrefix};
ghost use Rattle.conf_validate.specs.Current.{numbered};
ghost use Rattle.conf_shared.specs.Lists.{IsNewest, bare_configurations};

use crate::history::{Add, Entry, Front, Head, Law, Naming, Nothing};
use conf_validate::Current;
use left_right::Absorb;
use logbook::Offer;
use std::alloc::AllocError;
use std::sync::Arc;

/// What readers see of the history. Its list exists in proofs alone, as `seen.log`: an edition takes no memory for it, and
/// keeps no configuration but the newest.
#[derive(Drop)]
pub struct Edition {
    pub seen: Front,
    last: Current,
    ghost newest: { IsNewest seen.log (numbered last) },
    ghost fits: { last.number + 1 < 2 ^ 64 },
}

/// An edition takes the place of the one before.
impl Absorb<Edition> for Edition {
    type State = Front;

    ghost state = { λ e. e.seen };

    ghost applied = { λ before next. next.seen };

    fn absorb_first(&mut self, operation: &Edition, _other: &Edition) -> Result<(), AllocError> {
        *self = operation.another()?;
        Ok(())
    }

    fn absorb_second(&mut self, operation: Edition, _other: &Edition) -> Result<(), Edition> {
        *self = operation;
        Ok(())
    }
}

/// This configuration under another number; nothing of it is copied.
fn under(number: u64, current: &Current) -> Result<Current, AllocError>
    ensures { IfOk result (λ c. (c.number ≡ number)
        × (arc_value c.conf ≡ arc_value current.now.conf)) }
{
    Ok(Current {
        number,
        conf: Arc::try_clone(&current.conf)?,
    })
}

/// What was seen and then this configuration, if the history is no longer than what was seen.
fn written<J: Naming>(head: &Head<J>, seen: &Front, count: u64, current: &Current) -> Option<Front>
    requires { (seen.now.book ≡ J.history) × (count ≡ length seen.now.log)
        × (count < 2 ^ 64 - 1) }
    ensures { IfSome result (λ s. (s.book ≡ J.history)
        × (s.log ≡ seen.now.log ++ arc_value current.now.conf ∷ [])) }
{
    let mut seen = seen.again();
    let mut offer: Offer<Entry, u64, Law, Nothing> = seen.plain::<Nothing, Current, Add>(current);
    let mut pen = seen.no_pen();
    let found = head
        .head
        .compare_exchange::<Add, Nothing>(count, count + 1, &mut seen, &mut offer, &mut pen);
    if found == count { Some(seen) } else { None }
}

impl Edition {
    /// The edition of one configuration, the first of its history.
    pub fn first<J: Naming>(
        head: &Head<J>,
        seen: &Front,
        current: &Current,
    ) -> Result<Edition, AllocError>
        requires { (seen.now.book ≡ J.history) × (seen.now.log ≡ []) }
        ensures { IfOk result (λ e. (e.seen.book ≡ J.history)
            × (e.seen.log ≡ arc_value current.now.conf ∷ [])) }
    {
        let last = under(0, current)?;
        match written(head, seen, 0, current) {
            Some(seen) => Ok(Edition { seen, last }),
            None => Err(AllocError),
        }
    }

    /// The number of its newest configuration.
    pub fn number(&self) -> u64
        ensures { result + 1 ≡ length self.now.seen.log }
    {
        self.last.number
    }

    /// The length of its list.
    pub fn len(&self) -> u64
        ensures { result ≡ length self.now.seen.log }
    {
        self.last.number + 1
    }

    /// Its newest configuration.
    pub fn last(&self) -> &Current
        ensures { IsNewest self.now.seen.log (numbered result.now) }
    {
        &self.last
    }

    /// The same edition.
    pub fn another(&self) -> Result<Edition, AllocError>
        ensures { IfOk result (λ e. e.seen ≡ self.now.seen) }
    {
        let last = under(self.last.number, &self.last)?;
        Ok(Edition {
            seen: self.seen.again(),
            last,
        })
    }

    /// Whether its list begins the other's. Of two beginnings of one history the shorter begins the longer.
    pub fn begins(&self, other: &Edition) -> bool
        requires { self.now.seen.book ≡ other.now.seen.book }
        ensures { IsTrue result → IsPrefix self.now.seen.log other.now.seen.log }
    {
        let mut both = self.seen.again();
        both.learn(&other.seen);
        self.last.number <= other.last.number
    }

    /// The edition with this configuration behind its list.
    ///
    /// Fails for want of memory or of numbers, or where its list isn't the whole history.
    pub fn add<J: Naming>(&self, head: &Head<J>, current: &Current) -> Result<Edition, AllocError>
        requires { self.now.seen.book ≡ J.history }
        ensures { IfOk result (λ e. (e.seen.book ≡ J.history)
            × (e.seen.log ≡ self.now.seen.log ++ arc_value current.now.conf ∷ [])) }
    {
        let count = self.len();
        if count == u64::MAX {
            return Err(AllocError);
        }
        let last = under(count, current)?;
        match written(head, &self.seen, count, current) {
            Some(seen) => Ok(Edition { seen, last }),
            None => Err(AllocError),
        }
    }

    /// Goes on to the end of the list, which begins with its own. What was added before an `Err` stays.
    pub fn follow<J: Naming>(&mut self, head: &Head<J>, list: &[Current]) -> Result<(), AllocError>
        requires book { self.old.seen.book ≡ J.history }
        requires begins { IsPrefix self.old.seen.log (bare_configurations (map numbered list.now)) }
        ensures book { self.new.seen.book ≡ J.history }
        ensures all { OnOk result (self.new.seen.log
            ≡ bare_configurations (map numbered list.now)) }
        ensures longer { IsPrefix self.old.seen.log self.new.seen.log }
        ensures within { IsPrefix self.new.seen.log (bare_configurations (map numbered list.now)) }
    {
        while self.len() < list.len() as u64 {
            *self = self.add(head, &list[self.len() as usize])?;
        }
        Ok(())
    }
}
