//! Messages that go one at a time: of each queue one is over before the next one begins.
ghost use Rattle.std.specs.Prelude.{◌≡◌, ◌+◌, ◌<◌, ◌≤◌, ◌^◌};
ghost use Rattle.plain_fabric.specs.Schedule.{item_of_message, part_message, place_behind, place_of_message, request_message, run_of_message};
ghost use Rattle.unit_model.specs.Holding.{items_of};

use port_message::part_word;
use unit_model::{Run, Shape};

/// A message from one seat to another.
#[derive(Clone, Copy, Debug, Drop)]
pub struct Message {
    /// The seat that sends it.
    pub from: u32,
    /// The seat that takes it.
    pub to: u32,
    /// The queue.
    pub queue: u32,
    /// How many messages went through the queue before.
    pub before: u64,
    /// Its bytes.
    pub size: u32,
    /// Its part word.
    pub part: u64,
    /// Its stream.
    pub stream: u64,
}

impl Message {
    /// The record of a request, with so many streams drawn before.
    pub fn of_request(drawn: u64, size: u32) -> Message
        requires { drawn < 2 ^ 48 }
        ensures { result ≡ request_message drawn size }
    {
        Message {
            from: 0,
            to: 1,
            queue: 0,
            before: drawn,
            size,
            part: 0,
            stream: drawn + 1,
        }
    }

    /// A part of the reply, with so many parts sent before.
    pub fn of_part(drawn: u64, sent: u64, number: u32, last: bool, size: u32) -> Message
        requires { drawn < 2 ^ 48 }
        ensures { result ≡ part_message drawn sent number last size }
    {
        Message {
            from: 1,
            to: 0,
            queue: 1,
            before: sent,
            size,
            part: part_word(number, last),
            stream: drawn + 1,
        }
    }

    // How many items the queue has.
    fn items(&self, shape: &Shape) -> u32
        ensures { result ≡ items_of shape.now self.now.queue }
    {
        if self.queue == 0 {
            shape.items
        } else {
            shape.back_items
        }
    }

    /// The item that carries it: the items of a queue take turns.
    pub fn item(&self, shape: &Shape) -> u32
        requires { (1 ≤ shape.now.items) × (1 ≤ shape.now.back_items) }
        ensures { result ≡ item_of_message shape.now self.now }
    {
        (self.before % self.items(shape) as u64) as u32
    }

    /// The place at which its item is got, pushed and popped.
    pub fn place(&self, shape: &Shape) -> u64
        requires { place_of_message shape.now self.now < 2 ^ 64 }
        ensures { result ≡ place_of_message shape.now self.now }
    {
        shape.start + self.before
    }

    /// The place at which its item is given back: behind all others.
    pub fn place_behind(&self, shape: &Shape) -> u64
        requires { place_behind shape.now self.now < 2 ^ 64 }
        ensures { result ≡ place_behind shape.now self.now }
    {
        shape.start + self.items(shape) as u64 + self.before
    }

    /// Its chunks: the lowest ones of the side of those who fill the queue.
    pub fn run(&self, shape: &Shape) -> Run
        requires { shape.now.out_segments ≤ 8 }
        ensures { result ≡ run_of_message shape.now self.now }
    {
        let segment = if self.queue == 0 {
            0
        } else {
            shape.out_segments as u16
        };
        Run {
            segment,
            chunk: 0,
            size: self.size,
        }
    }
}
