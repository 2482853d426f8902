//! The parts of a reply, one after the other.
ghost use Rattle.request_context.specs.Cutting.{PartsValue};
ghost use Rattle.request_context.specs.Parcels.{AreLeft, NextIs};
ghost use Rattle.std.specs.Prelude.{◌≡◌};
ghost use Rattle.std.specs.Arc.{arc_value};

use crate::asked::Asked;
use crate::pieces::Pieces;
use std::collections::VecDeque;
use std::marker::Model;
use std::sync::Arc;
use unit_types::Handlers;

/// The parts of the reply of the handlers `H` to what was asked, in order. All of them are made before.
#[derive(Drop)]
pub struct Parts<H: Handlers> {
    asked: Arc<Asked>,
    next: u32,
    rest: VecDeque<Pieces<H>>,
}

impl<H: Handlers> Model for Parts<H> {
    ghost use Rattle.std.specs.Arc.{arc_value};
    ghost use Rattle.request_context.specs.Cutting.{PartsValue};

    ghost Value = { PartsValue };

    ghost use Rattle.request_context.specs.Parcels.{AreLeft};

    ghost view = { λ p. record { asked = arc_value p.asked; next = p.next } };

    ghost invariant = { λ p. AreLeft H.reply_of (arc_value p.asked) p.next p.rest.items };
}

impl<H: Handlers> Parts<H> {
    // All parts.
    pub(crate) fn over(asked: Arc<Asked>, rest: VecDeque<Pieces<H>>) -> Parts<H>
        requires { AreLeft H.reply_of (arc_value asked) 0 rest.items }
        ensures { result ≡ record { asked = arc_value asked; next = 0 } }
    {
        Parts {
            asked,
            next: 0,
            rest,
        }
    }

    /// The next part: its number, whether it is the last one, and its pieces; `None` exactly behind the last.
    ///
    /// Takes no memory.
    pub fn next(&mut self) -> Option<(u32, bool, Pieces<H>)>
        ensures { NextIs H.reply_of self.old self.new result }
    {
        match self.rest.pop_front() {
            None => None,
            Some(pieces) => {
                let number = self.next;
                self.next = number + 1;
                Some((number, self.rest.is_empty(), pieces))
            }
        }
    }
}
