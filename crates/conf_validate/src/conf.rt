//! Configurations as they are used.
ghost use Rattle.std.specs.Prelude.{◌≡◌, ◌<◌, length, option_and_then, option_map, slice_get, Some, List, ℕ};
ghost use Rattle.std.specs.Iterator.{AlwaysYields, IsFinite};
ghost use Rattle.conf_validate.specs.Configuration.{action_goal, changes_at, goal_named, handler_at, listener_index, location_at, plain_goal, rewrite_at};
ghost use Rattle.conf_validate.specs.Kept.{IsKept};

use crate::matching::Match;
use crate::search::{goal_at, listener_at};
use std::marker::Model;
use unit_types::Bytes;

/// Where a pass leads.
#[derive(Debug, Clone, Copy, Drop)]
pub enum Goal {
    /// To the application of this index.
    Application(usize),
    /// To the route whose steps begin at the index `first` and are `count`.
    Route { first: usize, count: usize },
}

/// What a pass can name.
#[derive(Debug, Drop)]
pub struct Destination {
    /// The text of such a pass, as `applications/a`, `routes` or `routes/b`.
    pub name: Bytes,
    /// Where it leads.
    pub goal: Goal,
}

/// A listener.
#[derive(Debug, Drop)]
pub struct Listener {
    /// Its name.
    pub name: Bytes,
    /// The text of its `pass`, as written.
    pub pass: Bytes,
}

/// An application.
#[derive(Debug, Drop)]
pub struct Application {
    /// Its name.
    pub name: Bytes,
    /// The name of its handler.
    pub handler: Bytes,
    /// After how many seconds a request to it is late.
    pub timeout: Option<u64>,
}

/// What a step does with a request that meets its conditions.
#[derive(Debug, Drop)]
pub enum Action {
    /// The request goes where this pass leads; the text is as written.
    Pass(Bytes),
    /// The reply has this status.
    Return(u16),
}

/// The header fields of a reply that are changed, in ascending byte order of their names: each with its new text, or
/// with None where it is taken away. Contracts see the list itself.
#[derive(Debug, Drop)]
pub struct Changes {
    list: Vec<(Bytes, Option<Bytes>)>,
}

impl Model for Changes {
    ghost use Rattle.std.specs.Prelude.{List, ℕ, Option};

    ghost Value = { List (List ℕ × Option (List ℕ)) };

    ghost view = { λ c. c.list.items };
}

impl Changes {
    pub(crate) fn of(list: Vec<(Bytes, Option<Bytes>)>) -> Changes
        ensures { result ≡ list.items }
    {
        Changes { list }
    }

    /// The changes as a slice.
    pub fn as_slice(&self) -> &[(Bytes, Option<Bytes>)]
        ensures { result.now ≡ self.now }
    {
        self.list.as_slice()
    }
}

/// A step of a route.
#[derive(Debug, Drop)]
pub struct Step {
    /// What it asks of a request.
    pub conditions: Match,
    /// What it does with a request that meets them.
    pub action: Action,
    /// The text of its `location`, as written.
    pub location: Option<Bytes>,
    /// The text of its `rewrite`, as written.
    pub rewrite: Option<Bytes>,
    /// The texts of its `response_headers`, as written.
    pub changes: Changes,
}

/// A valid configuration. Contracts see what its document says.
///
/// Its type keeps that its numbers are in their ranges and its texts have their forms, that the name of a handler has
/// at most 255 bytes, that names ascend, and that what a pass can name is there (`is_kept`).
#[derive(Debug, Drop)]
pub struct Conf {
    pub(crate) applications: Vec<Application>,
    pub(crate) listeners: Vec<Listener>,
    pub(crate) destinations: Vec<Destination>,
    pub(crate) steps: Vec<Step>,
    pub(crate) max_body: u64,
    pub(crate) log_format: Option<Bytes>,
    /// Where each listener's pass leads, if it has no `$`.
    pub(crate) listener_goals: Vec<Option<Goal>>,
    /// Where each step's pass leads, if it has one without `$`.
    pub(crate) step_goals: Vec<Option<Goal>>,
}

impl Model for Conf {
    ghost use Rattle.conf_validate.specs.Configuration.{Configuration};
    ghost use Rattle.conf_validate.specs.Kept.{IsCompiled};

    ghost Value = { Configuration };

    ghost view = { λ c. record { applications = c.applications.items; listeners = c.listeners.items; destinations = c.destinations.items; steps = c.steps.items; max_body = c.max_body; log_format = c.log_format } };

    ghost invariant = { λ c. IsCompiled (record {
      applications = c.applications.items;
      listeners = c.listeners.items;
      destinations = c.destinations.items;
      steps = c.steps.items;
      max_body = c.max_body;
      log_format = c.log_format;
    }) c.listener_goals.items c.step_goals.items };
}

impl Conf {
    /// What each configuration keeps, as a fact of its value: ranges, forms of texts, the order of names, and that
    /// destinations lead to what is there. It does nothing.
    pub fn is_kept(&self)
        ensures { IsKept self.now }
    {
        let _max_body = self.max_body;
    }

    /// How many applications there are.
    pub fn application_count(&self) -> usize
        ensures { result ≡ length self.now.applications }
    {
        self.applications.len()
    }

    /// The applications by their index, in ascending byte order of their names.
    pub fn applications(&self) -> &[Application]
        ensures { result.now ≡ self.now.applications }
    {
        self.applications.as_slice()
    }

    /// The listeners by their index, in ascending byte order of their names.
    pub fn listeners(&self) -> &[Listener]
        ensures { result.now ≡ self.now.listeners }
    {
        self.listeners.as_slice()
    }

    /// What passes can name, in ascending byte order of the names.
    pub fn destinations(&self) -> &[Destination]
        ensures { result.now ≡ self.now.destinations }
    {
        self.destinations.as_slice()
    }

    /// The index of the listener whose name has exactly these bytes.
    pub fn listener<I: Iterator<Item = u8> + Copy>(&self, name: I) -> Option<usize>
        requires can { I.can_next name }
        requires ends { IsFinite (I.remaining name) }
        ensures { (bytes : List ℕ) → AlwaysYields I.next_gives (λ b. b) name bytes
            → result ≡ listener_index bytes self.now.listeners }
    {
        listener_at(self.listeners.as_slice(), name)
    }

    /// Where a pass of these bytes leads: the goal of the destination of this name.
    pub fn goal<I: Iterator<Item = u8> + Copy>(&self, text: I) -> Option<Goal>
        requires can { I.can_next text }
        requires ends { IsFinite (I.remaining text) }
        ensures { (bytes : List ℕ) → AlwaysYields I.next_gives (λ b. b) text bytes
            → result ≡ goal_named bytes self.now.destinations }
    {
        goal_at(self.destinations.as_slice(), text)
    }

    /// Where the pass of this listener leads. None where its text has a `$`, and where there is no such listener.
    pub fn listener_goal(&self, listener: usize) -> Option<Goal>
        ensures { result ≡ option_and_then (λ l. plain_goal self.now l.pass)
            (slice_get self.now.listeners listener) }
    {
        match self.listener_goals.get(listener) {
            Some(goal) => *goal,
            None => None,
        }
    }

    /// Where the pass of this step leads. None where its text has a `$`, where it has none, and where there is no such
    /// step.
    pub fn step_goal(&self, step: usize) -> Option<Goal>
        ensures { result
            ≡ option_and_then (λ s. action_goal self.now s.action) (slice_get self.now.steps step) }
    {
        match self.step_goals.get(step) {
            Some(goal) => *goal,
            None => None,
        }
    }

    /// The steps of all routes by their index.
    pub fn steps(&self) -> &[Step]
        ensures { result.now ≡ self.now.steps }
    {
        self.steps.as_slice()
    }

    /// The name of an application's handler.
    pub fn handler(&self, app: usize) -> &[u8]
        requires { app < length self.now.applications }
        ensures { handler_at self.now app ≡ Some result.now }
    {
        self.applications[app].handler.as_slice()
    }

    /// The text of a step's `location`, as written.
    pub fn location(&self, step: usize) -> Option<&[u8]>
        ensures { option_map (λ t. t.now) result ≡ location_at self.now step }
    {
        match self.steps.get(step) {
            Some(step) => match &step.location {
                Some(text) => Some(text.as_slice()),
                None => None,
            },
            None => None,
        }
    }

    /// The text of a step's `rewrite`, as written.
    pub fn rewrite(&self, step: usize) -> Option<&[u8]>
        ensures { option_map (λ t. t.now) result ≡ rewrite_at self.now step }
    {
        match self.steps.get(step) {
            Some(step) => match &step.rewrite {
                Some(text) => Some(text.as_slice()),
                None => None,
            },
            None => None,
        }
    }

    /// The texts of a step's `response_headers`, as written, in ascending byte order of their names; None stands for
    /// null. Where there is no such step or it has no such member, there are none.
    pub fn changes(&self, step: usize) -> &[(Bytes, Option<Bytes>)]
        ensures { result.now ≡ changes_at (slice_get self.now.steps step) }
    {
        match self.steps.get(step) {
            Some(step) => step.changes.as_slice(),
            None => &[],
        }
    }

    /// The largest content of a request, in bytes.
    pub fn max_body(&self) -> u64
        ensures { result ≡ self.now.max_body }
    {
        self.max_body
    }

    /// The format of the access log; None where there is no log.
    pub fn log_format(&self) -> Option<&[u8]>
        ensures { option_map (λ t. t.now) result ≡ self.now.log_format }
    {
        match &self.log_format {
            Some(text) => Some(text.as_slice()),
            None => None,
        }
    }
}
