//! Readers of published configurations, on one thread and in three.
ghost use Rattle.std.specs.Prelude.{◌≡◌, ◌<◌, ◌≤◌, IfOk};
ghost use Rattle.std.specs.Thread.{IsSync};
ghost use mathlib.Core.List.{IsPrefix};
ghost use Rattle.conf_shared.specs.Lists.{list_of};

use crate::{ConfReader, Naming, Opened, Published, Shared};
use conf_book::Book;
use conf_tree::read_tree;
use conf_validate::validate;
use std::alloc::{AllocError, Global};
use std::marker::Brand;
use std::sync::Wait;
use std::test::Fail;
use std::thread::{Threads, join};
use unit_types::Bytes;

/// Publishes `{}` in the book once more.
#[tactic(auto, using(crate::proofs::PrefixLemmas::same_begins))]
fn change(alloc: Global, book: &mut Book) -> Result<(), AllocError>
    ensures { IsPrefix (list_of book.old) (list_of book.new) }
{
    book.is_book();
    let Some(tree) = read_tree(alloc, b"{}")? else {
        return Err(AllocError);
    };
    let Ok(conf) = validate(alloc, &tree, book.names()) else {
        return Err(AllocError);
    };
    book.publish(alloc, tree, conf)?;
    Ok(())
}

fn no_names() -> [Bytes; 0] {
    []
}

/// What is published of a new book.
#[tactic(auto, using(crate::proofs::PrefixLemmas::same_begins))]
fn begun<J: Naming>(
    alloc: Global,
    opened: Opened,
    readers: u32,
) -> Result<(Shared<J>, Book), AllocError>
    requires history { opened ≡ J.history }
    requires readers { (0 < readers) × (readers ≤ 4) }
    ensures { IfOk result (λ r. IsPrefix r.0.1 (list_of r.1)) }
{
    let book = Book::open(alloc, &no_names())?;
    let shared = Shared::open(alloc, opened, &book, readers)?;
    Ok((shared, book))
}

/// The number of a change, and what a reader then finds at once.
fn found<J: Naming, R: Wait>(
    rt: &R,
    alloc: Global,
    shared: &mut Shared<J>,
    book: Book,
) -> Result<(u64, u64), AllocError>
    requires { IsPrefix shared.old.1 (list_of book) }
{
    let mut book = book;
    let mut reader = shared.reader()?;
    change(alloc, &mut book)?;
    let published = shared.publish(rt, &book)?;
    let current = reader.enter()?;
    shared.meet(rt, &mut reader);
    Ok((published.number(), current.number))
}

fn found_by_one<J: Naming, R: Wait>(
    rt: &R,
    alloc: Global,
    opened: Opened,
) -> Result<(u64, u64), AllocError>
    requires { opened ≡ J.history }
{
    let (mut shared, book) = begun::<J>(alloc, opened, 1)?;
    let found = found(rt, alloc, &mut shared, book);
    shared.end(rt);
    found
}

/// Publishes changes up to this number, and tells of the last one.
fn publish_to<J: Naming, R: Wait>(
    rt: &R,
    alloc: Global,
    shared: &mut Shared<J>,
    book: Book,
    number: u64,
) -> Option<Published>
    requires { IsPrefix shared.old.1 (list_of book) }
{
    let mut book = book;
    let mut last = None;
    for _ in rt.forever() {
        if let Ok(published) = publish_next(rt, alloc, shared, &mut book) {
            let ends = published.number() >= number;
            last = Some(published);
            if ends {
                break;
            }
        }
    }
    last
}

fn publish_next<J: Naming, R: Wait>(
    rt: &R,
    alloc: Global,
    shared: &mut Shared<J>,
    book: &mut Book,
) -> Result<Published, AllocError>
    requires { IsPrefix shared.old.1 (list_of book.old) }
    ensures { IsPrefix shared.new.1 (list_of book.new) }
{
    change(alloc, book)?;
    shared.publish(rt, book)
}

/// Enters until this number is found, and once more. It tells whether the numbers never fell.
fn enter_to<J: Naming, R: Wait>(
    rt: &R,
    reader: ConfReader<J>,
    number: u64,
) -> (ConfReader<J>, bool) {
    let mut reader = reader;
    let mut rises = true;
    for _ in rt.forever() {
        let before = reader.last();
        let now = reader.enter().map_or(before, |current| current.number);
        rises = rises && before <= now && now == reader.last();
        if before >= number {
            break;
        }
    }
    (reader, rises)
}

fn both_enter_to<J: Naming + Send + Sync, R: Threads + Wait + Sync>(
    rt: &R,
    one: ConfReader<J>,
    other: ConfReader<J>,
    number: u64,
) -> ((ConfReader<J>, bool), (ConfReader<J>, bool)) {
    join(
        rt,
        || enter_to(rt, one, number),
        || enter_to(rt, other, number),
    )
}

/// Publishes changes up to this number while two readers enter.
fn beside<J: Naming + Send + Sync, R: Threads + Wait + Sync>(
    rt: &R,
    alloc: Global,
    shared: &mut Shared<J>,
    book: Book,
    readers: (ConfReader<J>, ConfReader<J>),
    number: u64,
) -> (
    Option<Published>,
    ((ConfReader<J>, bool), (ConfReader<J>, bool)),
)
    requires { IsPrefix shared.old.1 (list_of book) }
{
    let (one, other) = readers;
    join(
        rt,
        || -> Option<Published>
            requires { IsPrefix shared.now.1 (list_of book) }
        { publish_to(rt, alloc, shared, book, number) },
        || -> ((ConfReader<J>, bool), (ConfReader<J>, bool))
            requires { IsSync R.row }
        { both_enter_to(rt, one, other, number) },
    )
}

/// The last number that was published, what each of two readers then saw last, and whether their numbers never fell.
fn seen_by_two<J: Naming + Send + Sync, R: Threads + Wait + Sync>(
    rt: &R,
    alloc: Global,
    shared: &mut Shared<J>,
    book: Book,
    number: u64,
) -> Result<(u64, u64, u64, bool), AllocError>
    requires { IsPrefix shared.old.1 (list_of book) }
{
    let readers = (shared.reader()?, shared.reader()?);
    let (last, ((mut one, one_rises), (mut other, other_rises))) = beside(
        rt, alloc, shared, book, readers, number,
    );
    shared.meet(rt, &mut one);
    shared.meet(rt, &mut other);
    let last = last.map_or(0, |published| published.number());
    Ok((last, one.last(), other.last(), one_rises && other_rises))
}

fn seen_in_threads<J: Naming + Send + Sync, R: Threads + Wait + Sync>(
    rt: &R,
    alloc: Global,
    opened: Opened,
    number: u64,
) -> Result<(u64, u64, u64, bool), AllocError>
    requires { opened ≡ J.history }
{
    let (mut shared, book) = begun::<J>(alloc, opened, 2)?;
    let seen = seen_by_two(rt, alloc, &mut shared, book, number);
    shared.end(rt);
    seen
}

#[test]
fn a_change_is_found_by_the_next_enter(rt: HostRuntime) -> Result<(), Fail> {
    let found = found_by_one::<Brand, HostRuntime>(&rt, rt.alloc(), Opened::new())?;
    assert_eq!(rt; found, (1, 1));
    Ok(())
}

#[test]
fn two_threads_find_rising_numbers(rt: HostRuntime) -> Result<(), Fail> {
    let seen = seen_in_threads::<Brand, HostRuntime>(&rt, rt.alloc(), Opened::new(), 1000)?;
    assert_eq!(rt; seen, (1000, 1000, 1000, true));
    Ok(())
}
