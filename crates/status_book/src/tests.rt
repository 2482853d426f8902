ghost use Rattle.std.specs.Prelude.{◌≡◌, map, replicate, IfOk};
ghost use Rattle.std.specs.List.{All};
ghost use Rattle.status_book.specs.Seats.{CountsIn, LooksAt, sums_of};
ghost use Rattle.status_book.specs.Words.{kinds};

use super::*;
use std::alloc::AllocError;
use std::test::*;
use std::thread;
use std::thread::Threads;

/// Adds 1 a thousand times.
fn add_thousand(book: &StatusBook, mut seat: CountSeat) -> CountSeat
    requires own { CountsIn book.now seat }
    requires new { sums_of seat ≡ replicate kinds 0 }
    ensures own { CountsIn book.now result }
    ensures engine { result.engine ≡ seat.engine }
{
    for done in 0..1000u64 {
        book.add(&mut seat, 1, 1);
    }
    seat
}

/// Adds with all seats, each in a thread of its own.
#[tactic(auto, using(crate::proofs::NewSeats::same_engines))]
fn add_all<R: Threads + Sync>(
    rt: &R,
    book: &StatusBook,
    counts: Vec<CountSeat>,
) -> Result<Vec<CountSeat>, AllocError>
    requires own { All (CountsIn book.now) counts.items }
    requires new { All (λ seat. sums_of seat ≡ replicate kinds 0) counts.items }
    ensures own { IfOk result (λ v. All (CountsIn book.now) v.items) }
    ensures engines { IfOk result (λ v. map (λ seat. seat.engine) v.items
        ≡ map (λ seat. seat.engine) counts.items) }
{
    thread::map_vec(rt, counts, &|seat| add_thousand(book, seat))
}

/// Looks a thousand times: gives the seat back, and whether no number fell.
fn look_on(book: &StatusBook, mut look: LookSeat) -> (LookSeat, bool)
    requires { LooksAt book.now look }
    ensures { LooksAt book.now result.0 }
{
    let mut last = book.look(&mut look);
    let mut rose = true;
    for round in 0..1000u64 {
        let next = book.look(&mut look);
        rose &= last
            .counts
            .iter()
            .zip(next.counts.iter())
            .all(|(before, after)| before <= after);
        last = next;
    }
    (look, rose)
}

#[test]
fn four_threads_add_while_a_fifth_looks(rt: HostRuntime) -> Result<(), Fail> {
    let (book, counts, look) = StatusBook::open(rt.alloc(), 4)?;
    let (added, (look, rose)) = thread::join(
        &rt,
        || add_all(&rt, &book, counts),
        || look_on(&book, look),
    );
    assert!(rt; rose);
    let last = book.close(added?, look);
    // so 4,000 in sum
    let is_told = last.counts.iter().enumerate().all(|(place, count)| *count
        == if place % 8 == 1 { 1000 } else { 0 });
    assert!(rt; is_told);
    Ok(())
}
