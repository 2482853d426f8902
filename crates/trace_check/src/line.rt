//! The lines of a trace, read without their LF.
ghost use Rattle.std.specs.Prelude.{◌≡◌, ◌≤◌, ◌^◌, option_map, IfSome};
ghost use Rattle.trace_check.specs.Lines.{item_step, kind_of, on_item, rest_of_shape, run_of, seat_and_chunk, seat_and_number, set_run_of, shape_of, step_of, step_with, u32_limit};
ghost use Rattle.trace_check.specs.Numbers.{first_number, number_of};

use crate::number::first_number;
use unit_model::{Run, Shape, Step};
use unit_types::{cut, plain_decimal};

const U16_LIMIT: u64 = u16::MAX as u64;

const U32_LIMIT: u64 = u32::MAX as u64;

/// The kinds of steps.
#[derive(Clone, Copy, Debug, Drop)]
pub(crate) enum Kind {
    Draw,
    Abandon,
    Open,
    Claim,
    Release,
    SetRun,
    OnItem(ItemKind),
}

/// The kinds of steps whose lines have a seat, an item of a queue, and a place, part or stream.
#[derive(Clone, Copy, Debug, Drop)]
pub(crate) enum ItemKind {
    GetItem,
    SetPart,
    Arm,
    Push,
    Pop,
    Settle,
    GiveItem,
}

/// A seat, an item of a queue, and a place, part or stream.
#[derive(Clone, Copy, Debug, Drop)]
pub(crate) struct ItemNumbers {
    pub(crate) seat: u32,
    pub(crate) queue: u32,
    pub(crate) item: u32,
    pub(crate) number: u64,
}

/// The kind of step that a line's first word names.
#[tactic(auto, unfolding(crate::specs::Lines::kind_of))]
fn kind_of(name: &[u8]) -> Option<Kind>
    ensures { result ≡ kind_of name.now }
{
    if name == b"draw".as_slice() {
        Some(Kind::Draw)
    } else if name == b"claim".as_slice() {
        Some(Kind::Claim)
    } else if name == b"release".as_slice() {
        Some(Kind::Release)
    } else if name == b"open".as_slice() {
        Some(Kind::Open)
    } else if name == b"getitem".as_slice() {
        Some(Kind::OnItem(ItemKind::GetItem))
    } else if name == b"setrun".as_slice() {
        Some(Kind::SetRun)
    } else if name == b"setpart".as_slice() {
        Some(Kind::OnItem(ItemKind::SetPart))
    } else if name == b"arm".as_slice() {
        Some(Kind::OnItem(ItemKind::Arm))
    } else if name == b"push".as_slice() {
        Some(Kind::OnItem(ItemKind::Push))
    } else if name == b"pop".as_slice() {
        Some(Kind::OnItem(ItemKind::Pop))
    } else if name == b"settle".as_slice() {
        Some(Kind::OnItem(ItemKind::Settle))
    } else if name == b"giveitem".as_slice() {
        Some(Kind::OnItem(ItemKind::GiveItem))
    } else if name == b"abandon".as_slice() {
        Some(Kind::Abandon)
    } else {
        None
    }
}

// A number of 32 bits in front of the first space, and the text behind the space.
fn first_u32(text: &[u8]) -> Option<(u32, &[u8])>
    ensures { option_map (λ parts. (parts.0, parts.1.now)) result
        ≡ first_number u32_limit text.now }
{
    let (number, rest) = first_number(text, U32_LIMIT)?;
    Some((number as u32, rest))
}

fn u32_of(text: &[u8]) -> Option<u32>
    ensures { result ≡ number_of u32_limit text.now }
{
    Some(plain_decimal(text, U32_LIMIT)? as u32)
}

// `SEAT NUMBER`
#[tactic(auto, unfolding(crate::specs::Lines::seat_and_number))]
fn seat_and_number(text: &[u8], limit: u64) -> Option<(u32, u64)>
    ensures value { result ≡ seat_and_number limit text.now }
    ensures small { IfSome result (λ n. n.1 ≤ limit) }
{
    let (seat, rest) = first_u32(text)?;
    Some((seat, plain_decimal(rest, limit)?))
}

// `SEAT SEGMENT CHUNK`
#[tactic(auto, unfolding(crate::specs::Lines::seat_and_chunk))]
fn seat_and_chunk(text: &[u8]) -> Option<(u32, u32, u32)>
    ensures { result ≡ seat_and_chunk text.now }
{
    let (seat, rest) = first_u32(text)?;
    let (segment, rest) = first_u32(rest)?;
    Some((seat, segment, u32_of(rest)?))
}

// `SEAT QUEUE ITEM NUMBER`
#[tactic(auto, unfolding(crate::specs::Lines::on_item))]
fn on_item(text: &[u8]) -> Option<ItemNumbers>
    ensures { result ≡ on_item text.now }
{
    let (seat, rest) = first_u32(text)?;
    let (queue, rest) = first_u32(rest)?;
    let (item, rest) = first_u32(rest)?;
    let number = plain_decimal(rest, u64::MAX)?;
    Some(ItemNumbers {
        seat,
        queue,
        item,
        number,
    })
}

// `SEGMENT CHUNK SIZE`
#[tactic(auto, unfolding(crate::specs::Lines::run_of))]
fn run_of(text: &[u8]) -> Option<Run>
    ensures { result ≡ run_of text.now }
{
    let (segment, rest) = first_number(text, U16_LIMIT)?;
    let (chunk, rest) = first_number(rest, U16_LIMIT)?;
    let size = u32_of(rest)?;
    Some(Run {
        segment: segment as u16,
        chunk: chunk as u16,
        size,
    })
}

// `SEAT QUEUE ITEM SEGMENT CHUNK SIZE`
#[tactic(auto, unfolding(crate::specs::Lines::set_run_of))]
fn set_run_of(text: &[u8]) -> Option<Step>
    ensures { result ≡ set_run_of text.now }
{
    let (seat, rest) = first_u32(text)?;
    let (queue, rest) = first_u32(rest)?;
    let (item, rest) = first_u32(rest)?;
    let run = run_of(rest)?;
    Some(Step::SetRun {
        seat,
        queue,
        item,
        run,
    })
}

#[tactic(auto, unfolding(crate::specs::Lines::item_step))]
fn item_step(kind: ItemKind, numbers: ItemNumbers) -> Step
    ensures { result ≡ item_step kind numbers }
{
    let ItemNumbers {
        seat,
        queue,
        item,
        number,
    } = numbers;
    match kind {
        ItemKind::GetItem => Step::GetItem {
            seat,
            queue,
            item,
            place: number,
        },
        ItemKind::SetPart => Step::SetPart {
            seat,
            queue,
            item,
            part: number,
        },
        ItemKind::Arm => Step::Arm {
            seat,
            queue,
            item,
            stream: number,
        },
        ItemKind::Push => Step::Push {
            seat,
            queue,
            item,
            place: number,
        },
        ItemKind::Pop => Step::Pop {
            seat,
            queue,
            item,
            place: number,
        },
        ItemKind::Settle => Step::Settle {
            seat,
            queue,
            item,
            stream: number,
        },
        ItemKind::GiveItem => Step::GiveItem {
            seat,
            queue,
            item,
            place: number,
        },
    }
}

// The step of this kind with these numbers.
#[tactic(auto, unfolding(crate::specs::Lines::step_with))]
fn step_with(kind: Kind, numbers: &[u8]) -> Option<Step>
    ensures { result ≡ step_with kind numbers.now }
{
    match kind {
        Kind::Draw => {
            let (seat, stream) = seat_and_number(numbers, u64::MAX)?;
            Some(Step::Draw { seat, stream })
        }
        Kind::Abandon => {
            let (seat, stream) = seat_and_number(numbers, u64::MAX)?;
            Some(Step::Abandon { seat, stream })
        }
        Kind::Open => {
            let (seat, count) = seat_and_number(numbers, U32_LIMIT)?;
            Some(Step::Open {
                seat,
                count: count as u32,
            })
        }
        Kind::Claim => {
            let (seat, segment, chunk) = seat_and_chunk(numbers)?;
            Some(Step::Claim {
                seat,
                segment,
                chunk,
            })
        }
        Kind::Release => {
            let (seat, segment, chunk) = seat_and_chunk(numbers)?;
            Some(Step::Release {
                seat,
                segment,
                chunk,
            })
        }
        Kind::SetRun => set_run_of(numbers),
        Kind::OnItem(kind) => Some(item_step(kind, on_item(numbers)?)),
    }
}

/// The step that a line says: its kind in lower case and then its numbers, each after one space.
#[tactic(auto, unfolding(crate::specs::Lines::step_of))]
pub(crate) fn step_of(line: &[u8]) -> Option<Step>
    ensures { result ≡ step_of line.now }
{
    let (name, numbers) = cut(line, b' ')?;
    step_with(kind_of(name)?, numbers)
}

// `OUT BACK ENGINES WORKERS START`, behind the numbers of items and back items.
#[tactic(auto, unfolding(crate::specs::Lines::rest_of_shape))]
fn rest_of_shape(items: u32, back_items: u32, text: &[u8]) -> Option<Shape>
    ensures { result ≡ rest_of_shape items back_items text.now }
{
    let (out_segments, rest) = first_u32(text)?;
    let (back_segments, rest) = first_u32(rest)?;
    let (engines, rest) = first_u32(rest)?;
    let (workers, rest) = first_u32(rest)?;
    let start = plain_decimal(rest, u64::MAX)?;
    Some(Shape {
        items,
        back_items,
        out_segments,
        back_segments,
        engines,
        workers,
        start,
    })
}

/// The shape, valid or not, that a line says: `shape ITEMS BACK_ITEMS OUT BACK ENGINES WORKERS START`.
#[tactic(auto, unfolding(crate::specs::Lines::shape_of))]
pub(crate) fn shape_of(line: &[u8]) -> Option<Shape>
    ensures { result ≡ shape_of line.now }
{
    let (name, numbers) = cut(line, b' ')?;
    if name != b"shape".as_slice() {
        return None;
    }
    let (items, rest) = first_u32(numbers)?;
    let (back_items, rest) = first_u32(rest)?;
    rest_of_shape(items, back_items, rest)
}
