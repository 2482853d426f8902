//! Laws of the schedules. Each function does nothing: its contract is the law.
ghost use Rattle.plain_fabric.specs.Laws.{AnsweredLaw, HungUpLaw, NoneLeftOpen, OpenedLaw, TraceLaw};

/// The core of a valid shape with one engine and one worker begins at rest.
pub fn a_plain_core_begins_at_rest()
    ensures { OpenedLaw }
{}

/// From a core at rest each step of an answered request is enabled in its turn, and behind them the
/// core is at rest.
pub fn a_request_is_answered_from_rest_to_rest()
    ensures { AnsweredLaw }
{}

/// So it is with a request whose client has hung up.
pub fn a_request_is_cancelled_from_rest_to_rest()
    ensures { HungUpLaw }
{}

/// The trace of any requests is a legal run of the machine from its opened core, and leads to rest:
/// all chunks are free, no item has a tag, lines are empty, each item is in its free list, and the
/// engine has nothing open.
pub fn any_trace_is_legal()
    ensures { TraceLaw }
{}

/// Behind it no stream is left open.
pub fn no_stream_is_left_open()
    ensures { NoneLeftOpen }
{}
