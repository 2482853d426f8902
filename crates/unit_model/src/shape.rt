//! The shape of a fabric.
ghost use Rattle.std.specs.Prelude.{◌≡◌, ◌==◌, ◌↔◌, ◌<◌, ◌^◌, IsTrue};
ghost use Rattle.unit_model.specs.Shapes.{IsFrom1To, IsValid, role_code, role_in, side_end_in, side_start_in};

use crate::limits::{LAST_START, MOST_ITEMS, MOST_SEATS, MOST_SEGMENTS};

/// How many queues, items, segments and seats a fabric has, and where its places begin.
#[derive(Clone, Copy, Debug, PartialEq, Eq, Drop)]
pub struct Shape {
    /// Items of the line.
    pub items: u32,
    /// Items of each back queue.
    pub back_items: u32,
    /// Segments of the engines' side.
    pub out_segments: u32,
    /// Segments of the workers' side.
    pub back_segments: u32,
    /// Engines, each with a seat and a back queue.
    pub engines: u32,
    /// Workers, each with a seat.
    pub workers: u32,
    /// The first place of each ring.
    pub start: u64,
}

/// What a seat is.
#[derive(Clone, Copy, Debug, Drop)]
pub enum Role {
    /// An engine's seat.
    Engine,
    /// A worker's seat.
    Worker,
    /// There is no such seat.
    NoSeat,
}

impl Role {
    /// The role as a number: 0 an engine, 1 a worker, 3 no seat.
    pub fn code(self) -> u64
        ensures { result ≡ role_code self }
    {
        match self {
            Role::Engine => 0,
            Role::Worker => 1,
            Role::NoSeat => 3,
        }
    }

    /// Whether it is an engine's.
    pub fn is_engine(self) -> bool
        ensures { result ≡ (role_code self == 0) }
    {
        match self {
            Role::Engine => true,
            Role::Worker | Role::NoSeat => false,
        }
    }
}

impl Shape {
    /// Whether a fabric can have this shape: 1 to 16,384 items of each queue, 1 to 8 segments a side, 1 to 4 engines and
    /// workers, and a start that is at least the number of items and at most 2^62 - 16,385.
    pub fn valid(&self) -> bool
        ensures { IsTrue result ↔ IsValid self.now }
    {
        let queues = is_from_1_to(MOST_ITEMS, self.items)
            && is_from_1_to(MOST_ITEMS, self.back_items);
        if !queues {
            return false;
        }
        let sides = is_from_1_to(MOST_SEGMENTS, self.out_segments)
            && is_from_1_to(MOST_SEGMENTS, self.back_segments);
        if !sides {
            return false;
        }
        let seats = is_from_1_to(MOST_SEATS, self.engines)
            && is_from_1_to(MOST_SEATS, self.workers);
        if !seats {
            return false;
        }
        let most = self.items.max(self.back_items) as u64;
        most <= self.start && self.start <= LAST_START
    }

    /// The role of the seat of this number: engines come first, then workers.
    pub fn role(&self, seat: u32) -> Role
        ensures { role_code result ≡ role_in self.now seat }
    {
        let seat = seat as u64;
        let engines = self.engines as u64;
        if seat < engines {
            Role::Engine
        } else if seat < engines + self.workers as u64 {
            Role::Worker
        } else {
            Role::NoSeat
        }
    }

    /// The first segment of a seat's side.
    pub fn side_start(&self, seat: u32) -> u64
        ensures value { result ≡ side_start_in self.now seat }
        ensures small { result < 2 ^ 33 }
    {
        if self.role(seat).is_engine() {
            0
        } else {
            self.out_segments as u64
        }
    }

    /// The segment behind the last of a seat's side.
    pub fn side_end(&self, seat: u32) -> u64
        ensures value { result ≡ side_end_in self.now seat }
        ensures small { result < 2 ^ 33 }
    {
        if self.role(seat).is_engine() {
            self.out_segments as u64
        } else {
            self.out_segments as u64 + self.back_segments as u64
        }
    }
}

fn is_from_1_to(most: u32, n: u32) -> bool
    ensures { IsTrue result ↔ IsFrom1To most n }
{
    1 <= n && n <= most
}
