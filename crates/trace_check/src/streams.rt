//! What is kept of each stream, in place of what each seat has done.
ghost use Rattle.std.specs.Prelude.{◌≡◌, ◌+◌, ◌<◌, ◌^◌, ◌==◌, ◌&&◌, ◌||◌, Bool, get_or, set, true};
ghost use Rattle.trace_check.specs.Streams.{abandoned_by, abandoned_stream, armed_stream, cancelled_by, drawn_by, drawn_stream, known, posted_by, sent_of, settled_stream, taken_by};

use unit_model::Item;

/// What is kept of a stream once it is drawn.
#[derive(Clone, Copy, Debug, Drop)]
pub(crate) struct Stream {
    /// The engine that drew it.
    pub(crate) engine: u32,
    /// The engine posted it.
    pub(crate) posted: bool,
    /// The engine took it back.
    pub(crate) cancelled: bool,
    /// The engine gave it up.
    pub(crate) abandoned: bool,
    /// The engine received its last part.
    pub(crate) received_last: bool,
    /// Some worker took it.
    pub(crate) taken: bool,
    /// Which seats took it.
    pub(crate) takers: [bool; 8],
    /// How many parts of it were sent.
    pub(crate) sent: u64,
    /// Its last part was sent.
    pub(crate) last_sent: bool,
    /// A worker took its last message back.
    pub(crate) closed: bool,
}

pub(crate) fn drawn_by(seat: u32, stream: &Option<Stream>) -> bool
    ensures { result ≡ drawn_by seat stream.now }
{
    match stream {
        Some(stream) => stream.engine == seat,
        None => false,
    }
}

pub(crate) fn posted_by(seat: u32, stream: &Option<Stream>) -> bool
    ensures { result ≡ posted_by seat stream.now }
{
    match stream {
        Some(stream) => stream.engine == seat && stream.posted,
        None => false,
    }
}

pub(crate) fn taken_by(seat: u32, stream: &Option<Stream>) -> bool
    ensures { result ≡ taken_by seat stream.now }
{
    match stream {
        Some(stream) => seat < 8 && stream.takers[seat as usize],
        None => false,
    }
}

pub(crate) fn is_taken(stream: &Option<Stream>) -> bool
    ensures { result ≡ known (λ s. s.taken) stream.now }
{
    match stream {
        Some(stream) => stream.taken,
        None => false,
    }
}

pub(crate) fn cancelled_by(seat: u32, stream: &Option<Stream>) -> bool
    ensures { result ≡ cancelled_by seat stream.now }
{
    match stream {
        Some(stream) => stream.engine == seat && stream.cancelled,
        None => false,
    }
}

pub(crate) fn abandoned_by(seat: u32, stream: &Option<Stream>) -> bool
    ensures { result ≡ abandoned_by seat stream.now }
{
    match stream {
        Some(stream) => stream.engine == seat && stream.abandoned,
        None => false,
    }
}

pub(crate) fn is_received(stream: &Option<Stream>) -> bool
    ensures { result ≡ known (λ s. s.received_last) stream.now }
{
    match stream {
        Some(stream) => stream.received_last,
        None => false,
    }
}

pub(crate) fn is_last_sent(stream: &Option<Stream>) -> bool
    ensures { result ≡ known (λ s. s.last_sent) stream.now }
{
    match stream {
        Some(stream) => stream.last_sent,
        None => false,
    }
}

pub(crate) fn is_closed(stream: &Option<Stream>) -> bool
    ensures { result ≡ known (λ s. s.closed) stream.now }
{
    match stream {
        Some(stream) => stream.closed,
        None => false,
    }
}

pub(crate) fn sent_of(stream: &Option<Stream>) -> u64
    ensures { result ≡ sent_of stream.now }
{
    match stream {
        Some(stream) => stream.sent,
        None => 0,
    }
}

impl Stream {
    /// A stream that this seat draws.
    pub(crate) fn drawn(seat: u32) -> Stream
        ensures { result ≡ drawn_stream seat }
    {
        Stream {
            engine: seat,
            posted: false,
            cancelled: false,
            abandoned: false,
            received_last: false,
            taken: false,
            takers: [false; 8],
            sent: 0,
            last_sent: false,
            closed: false,
        }
    }

    /// The stream after an item of the queue is armed for it.
    pub(crate) fn armed(self, queue: u32, item: &Item) -> Stream
        ensures { result ≡ armed_stream queue item.now self }
    {
        if queue == 0 {
            Stream {
                posted: true,
                ..self
            }
        } else {
            Stream {
                sent: item.part / 2 + 1,
                last_sent: self.last_sent || item.part % 2 == 1,
                ..self
            }
        }
    }

    /// The stream after the seat has won the message of an item of the queue.
    pub(crate) fn settled(self, is_engine: bool, seat: u32, queue: u32, item: &Item) -> Stream
        ensures { result ≡ settled_stream is_engine seat queue item.now self }
    {
        match (is_engine, queue) {
            (true, 0) => Stream {
                cancelled: true,
                ..self
            },
            (true, _) => Stream {
                received_last: self.received_last || self.engine == seat && item.part % 2 == 1,
                ..self
            },
            (false, 0) => Stream {
                taken: true,
                takers: with_taker(self.takers, seat),
                ..self
            },
            (false, _) => Stream {
                closed: true,
                ..self
            },
        }
    }

    /// The stream after its engine gave it up.
    pub(crate) fn given_up(self) -> Stream
        ensures { result ≡ abandoned_stream self }
    {
        Stream {
            abandoned: true,
            ..self
        }
    }
}

fn with_taker(takers: [bool; 8], seat: u32) -> [bool; 8]
    ensures { result ≡ set takers seat true }
{
    let mut takers = takers;
    if seat < 8 {
        takers[seat as usize] = true;
    }
    takers
}
