//! The lines of steps in a trace.
ghost use Rattle.std.specs.Prelude.{◌≡◌, ◌∷◌, ◌++◌, [], decimal, IfOk, OnOk, OnErr};
ghost use Rattle.unit_model.specs.Lines.{line, line_of, numbers_text};

use crate::machine::Step;
use itoa::Buffer;
use std::alloc::{AllocError, Global};
use unit_types::Bytes;

/// Puts the trace line of the step behind `out`: the step's name, its numbers in decimal, each after a space, and LF.
///
/// Fails for want of memory alone; `out` is then as before.
pub fn step_line(alloc: Global, step: &Step, out: &mut Bytes) -> Result<(), AllocError>
    ensures ok { OnOk result (out.new ≡ out.old ++ line_of step.now) }
    ensures err { OnErr result (out.new ≡ out.old) }
{
    let text = line_of(alloc, step)?;
    out.append(text.as_slice())
}

#[tactic(auto, unfolding(crate::specs::Lines::line_of))]
fn line_of(alloc: Global, step: &Step) -> Result<Vec<u8>, AllocError>
    ensures { IfOk result (λ text. text.items ≡ line_of step.now) }
{
    match *step {
        Step::Draw { seat, stream } => line(alloc, b"draw", &[seat as u64, stream]),
        Step::Claim {
            seat,
            segment,
            chunk,
        } => {
            line(
                alloc,
                b"claim",
                &[seat as u64, segment as u64, chunk as u64],
            )
        }
        Step::Release {
            seat,
            segment,
            chunk,
        } => {
            line(
                alloc,
                b"release",
                &[seat as u64, segment as u64, chunk as u64],
            )
        }
        Step::Open { seat, count } => line(alloc, b"open", &[seat as u64, count as u64]),
        Step::GetItem {
            seat,
            queue,
            item,
            place,
        } => {
            line(
                alloc,
                b"getitem",
                &[seat as u64, queue as u64, item as u64, place],
            )
        }
        Step::SetRun {
            seat,
            queue,
            item,
            run,
        } => line(
            alloc,
            b"setrun",
            &[
                seat as u64,
                queue as u64,
                item as u64,
                run.segment as u64,
                run.chunk as u64,
                run.size as u64,
            ],
        ),
        Step::SetPart {
            seat,
            queue,
            item,
            part,
        } => {
            line(
                alloc,
                b"setpart",
                &[seat as u64, queue as u64, item as u64, part],
            )
        }
        Step::Arm {
            seat,
            queue,
            item,
            stream,
        } => {
            line(
                alloc,
                b"arm",
                &[seat as u64, queue as u64, item as u64, stream],
            )
        }
        Step::Push {
            seat,
            queue,
            item,
            place,
        } => {
            line(
                alloc,
                b"push",
                &[seat as u64, queue as u64, item as u64, place],
            )
        }
        Step::Pop {
            seat,
            queue,
            item,
            place,
        } => {
            line(
                alloc,
                b"pop",
                &[seat as u64, queue as u64, item as u64, place],
            )
        }
        Step::Settle {
            seat,
            queue,
            item,
            stream,
        } => {
            line(
                alloc,
                b"settle",
                &[seat as u64, queue as u64, item as u64, stream],
            )
        }
        Step::GiveItem {
            seat,
            queue,
            item,
            place,
        } => {
            line(
                alloc,
                b"giveitem",
                &[seat as u64, queue as u64, item as u64, place],
            )
        }
        Step::Abandon { seat, stream } => line(alloc, b"abandon", &[seat as u64, stream]),
    }
}

fn line(alloc: Global, name: &[u8], numbers: &[u64]) -> Result<Vec<u8>, AllocError>
    ensures { IfOk result (λ text. text.items ≡ line name.now numbers.now) }
{
    let mut text = Vec::from_slice(alloc, name)?;
    append_numbers(&mut text, numbers)?;
    match text.push(b'\n') {
        Ok(()) => Ok(text),
        Err(_) => Err(AllocError),
    }
}

// Puts the numbers behind `text`, each after a space.
fn append_numbers(text: &mut Vec<u8>, numbers: &[u64]) -> Result<(), AllocError>
    ensures { OnOk result (text.new.items ≡ text.old.items ++ numbers_text numbers.now) }
{
    match numbers {
        [] => Ok(()),
        [first, rest @ ..] => {
            append_number(text, *first)?;
            append_numbers(text, rest)
        }
    }
}

fn append_number(text: &mut Vec<u8>, number: u64) -> Result<(), AllocError>
    ensures { OnOk result (text.new.items ≡ text.old.items ++ (32 ∷ decimal number)) }
{
    let mut buffer = Buffer::new();
    match text.push(b' ') {
        Ok(()) => text.extend_from_slice(buffer.format(number).as_bytes()),
        Err(_) => Err(AllocError),
    }
}
