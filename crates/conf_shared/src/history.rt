//! One history of all configurations that were published, of which each reader has seen a beginning. It exists in proofs
//! alone; what threads share of it is a word, its length.
ghost use Rattle.std.specs.Prelude.{◌≡◌, []};
ghost use Rattle.conf_shared.specs.History.{head_of};

use conf_validate::{Conf, Current};
use logbook::{Gain, Plain, Play, Rule, Seen, Start, Word};
use std::marker::{Brand, Model, PhantomData};

/// What stands in the history: configurations, each under its index. No value of this type is made for it.
pub type Entry = Conf;

/// What has been seen of the history.
pub type Front = Seen<Entry, u64, Law>;

/// The rule of the history: its word is its length.
pub struct Law;

impl Rule<Entry, u64> for Law {
    ghost use Rattle.std.specs.Prelude.{[]};
    ghost use base.Fml.{ftrue};
    ghost use Rattle.conf_shared.specs.History.{IsKept};

    ghost holds = { λ cells log. IsKept cells log };

    ghost first = { [] };

    ghost hinted = { λ n log. Unit {0} };

    ghost shows = { λ log. [] };

    ghost keeps = { λ names log. ftrue };

    ghost moves = { λ ask before after answer. Unit {0} };
}

/// Nobody gains anything by a step on the history.
pub struct Nothing;

impl Gain<Entry, u64> for Nothing {
    ghost use base.Fml.{ftrue};

    ghost after = { λ names about answer. ftrue };
}

/// The step that puts a configuration behind the others.
pub struct Add;

impl Play<Entry, u64> for Add {
    ghost use Rattle.conf_shared.specs.History.{Adds};

    ghost then = { Adds };
}

impl Plain<Current, Entry, u64> for Add {
    ghost use Rattle.std.specs.Arc.{arc_value};
    ghost use Rattle.std.specs.Prelude.{None};

    ghost ask = { λ c. arc_value c.conf };

    ghost state = { λ c. None };
}

/// Which history it is, as a type: what is published and its readers have the same. It is picked where the history is
/// opened, by a call at `Brand` whose `ghosts` are `record { history = opened }`.
pub trait Naming {
    ghost use Rattle.logbook.specs.Pages.{Book};

    ghost history: { Book };
}

impl Naming for Brand {
    ghost history = { record { number = 0; log_name = 0; cells_name = 0 } };
}

/// The mark of a history in which nothing stands yet. Contracts see it as the history.
#[derive(Drop)]
pub struct Opened {
    head: Word<Entry, u64, Law>,
    seen: Front,
}

impl Model for Opened {
    ghost use Rattle.std.specs.Prelude.{◌≡◌, []};
    ghost use Rattle.logbook.specs.Pages.{Book, book_coded};
    ghost use Rattle.conf_shared.specs.History.{head_of};

    ghost Value = { Book };

    ghost coded = { book_coded };

    ghost view = { λ o. o.seen.book };

    ghost invariant = { λ o. (o.seen.log ≡ []) × (o.head ≡ head_of o.seen.book) };
}

impl Opened {
    /// A new history. It takes no memory.
    pub fn new() -> Opened {
        let (seen, mut first, _second) = Seen::open(Start::alone(), 0, 0);
        Opened {
            head: Word::tracked(0, &mut first),
            seen,
        }
    }

    /// The history under its name, and its beginning of which nothing was seen.
    pub(crate) fn named<J: Naming>(self) -> (Head<J>, Front)
        requires { self ≡ J.history }
        ensures { (result.1.book ≡ J.history) × (result.1.log ≡ []) }
    {
        let Opened { head, seen } = self;
        (
            Head {
                head,
                of: PhantomData,
            },
            seen,
        )
    }
}

/// The word that is the length of the history.
#[derive(Drop)]
pub struct Head<J: Naming> {
    pub head: Word<Entry, u64, Law>,
    of: PhantomData<J>,
    pub ghost head_is: { head ≡ head_of J.history },
}
