//! What is published to readers in other threads.
ghost use Rattle.std.specs.Prelude.{◌≡◌, ◌+◌, ◌<◌, ◌≤◌, length, drop, IfOk, OnErr, MatchResult};
ghost use mathlib.Core.List.{IsPrefix};
ghost use Rattle.conf_shared.specs.Lists.{list_of};
ghost use Rattle.conf_shared.specs.Newest.{newest};

use crate::edition::Edition;
use crate::history::{Head, Naming, Opened};
use crate::reader::ConfReader;
use crate::rule::{EditionWriter, Of};
use conf_book::Book;
use core::mem::replace_with;
use left_right::writer::Writer;
use std::alloc::{AllocError, Global};
use std::marker::Model;
use std::snapshot::Snapshot;
use std::sync::Wait;

/// What readers in other threads see of a book. A reader finds one configuration as a whole, never a part of a change.
///
/// Contracts see two lists of configurations, in which a number is an index: the published one, and the given one, which
/// goes on where a `publish` failed. It isn't `Drop`: `end` ends it.
pub struct Shared<J: Naming> {
    writer: EditionWriter<J>,
    head: Head<J>,
    given: Edition,
}

impl<J: Naming> Model for Shared<J> {
    ghost use Rattle.std.specs.Prelude.{◌≡◌, List};
    ghost use mathlib.Core.List.{IsPrefix};
    ghost use Rattle.conf_validate.specs.Configuration.{Configuration};

    ghost Value = { List Configuration × List Configuration };

    ghost view = { λ s. (s.writer.desk.shown.value.seen.log, s.given.seen.log) };

    ghost invariant = { λ s. (s.writer.desk.shown.value.seen.book ≡ J.history)
        × (s.given.seen.book ≡ J.history)
        × IsPrefix s.writer.desk.shown.value.seen.log s.given.seen.log };
}

/// Tells of one call of `publish`, which alone makes it. Contracts see the book as that call published it.
#[derive(Drop)]
pub struct Published {
    number: u64,
    book: Snapshot<Book>,
}

impl Model for Published {
    ghost use Rattle.std.specs.Prelude.{◌≡◌, ◌+◌, length};
    ghost use Rattle.conf_book.specs.Books.{Publications, publications_code};

    ghost Value = { Publications };

    ghost coded = { publications_code };

    ghost view = { λ p. p.book.value };

    ghost invariant = { λ p. p.number + 1 ≡ length p.book.value.configurations };
}

impl Published {
    fn of(number: u64, book: &Book) -> Published
        requires { number + 1 ≡ length book.now.configurations }
        ensures { result ≡ book.now }
    {
        Published {
            number,
            book: Snapshot::of(book),
        }
    }

    /// The number of the newest configuration that was published. It takes no memory.
    pub fn number(&self) -> u64
        ensures { result + 1 ≡ length self.now.configurations }
    {
        self.number
    }
}

impl<J: Naming> Shared<J> {
    /// Publishes the book's list, for at most so many readers. The history is new, and is the one that `J` names.
    ///
    /// Fails for want of memory.
    pub fn open(
        alloc: Global,
        opened: Opened,
        book: &Book,
        readers: u32,
    ) -> Result<Shared<J>, AllocError>
        requires history { opened ≡ J.history }
        requires readers { (0 < readers) × (readers ≤ 4) }
        ensures { IfOk result (λ shared. shared ≡ (list_of book.now, list_of book.now)) }
    {
        book.is_book();
        let (head, seen) = opened.named::<J>();
        let currents = book.currents();
        let mut given = Edition::first(&head, &seen, &currents[0])?;
        given.follow(&head, currents)?;
        let (first, second) = (given.another()?, given.another()?);
        let writer = Writer::new(alloc, first, second, readers as usize)?;
        Ok(Shared {
            writer,
            head,
            given,
        })
    }

    /// Publishes the book's list as it is now by one step. It may wait for readers.
    ///
    /// Fails for want of memory; readers then see what they saw, and a later call may publish.
    pub fn publish<R: Wait>(&mut self, rt: &R, book: &Book) -> Result<Published, AllocError>
        requires { IsPrefix self.old.1 (list_of book.now) }
        ensures shared { IfOk result (λ _. self.new ≡ (list_of book.now, list_of book.now)) }
        ensures told { IfOk result (λ published. published ≡ book.now) }
        ensures err { OnErr result (self.new.0 ≡ self.old.0) }
        ensures given { IsPrefix self.new.1 (list_of book.now) }
    {
        let currents = book.currents();
        self.given.follow(&self.head, currents)?;
        let next = self.given.another()?;
        let published = Published::of(self.given.number(), book);
        show::<J, R>(rt, &mut self.writer, next)?;
        Ok(published)
    }

    /// A reader that has seen all that is published.
    ///
    /// Fails for want of memory, or where as many readers live as were asked for.
    pub fn reader(&mut self) -> Result<ConfReader<J>, AllocError>
        ensures seen { IfOk result (λ reader. reader ≡ (self.old.0, 0)) }
        ensures kept { self.new ≡ self.old }
    {
        let seen = self.writer.published().another()?;
        let inner = self.writer.factory().reader()?;
        Ok(ConfReader::over(inner, seen))
    }

    /// Tells that what is published begins with what the reader has seen. A reader that had seen more would keep it
    /// forever; there is none, though no contract can say so.
    pub fn meet<R: Wait>(&mut self, rt: &R, reader: &mut ConfReader<J>)
        ensures met { IsPrefix reader.new.0 self.new.0 }
        ensures kept { (self.new ≡ self.old) × (reader.new ≡ reader.old) }
    {
        if reader.begins(self.writer.published()) {
            return;
        }
        for _ in rt.forever() {}
    }

    /// Ends it. It may wait for readers, and takes no memory.
    pub fn end<R: Wait>(self, rt: &R) {
        let Shared {
            writer,
            head: _head,
            given: _given,
        } = self;
        drop(writer.take(rt));
    }
}

/// Shows an edition to the readers.
fn show<J: Naming, R: Wait>(
    rt: &R,
    writer: &mut EditionWriter<J>,
    next: Edition,
) -> Result<(), AllocError>
    requires { next.seen.book ≡ J.history }
    ensures { MatchResult result
        (λ _. writer.new.desk.shown.value.seen ≡ next.seen)
        (λ _. writer.new.desk.shown.value ≡ writer.old.desk.shown.value) }
{
    writer.append(next).map_err(|_| AllocError)?;
    replace_with(
        writer,
        rt,
        |writer: EditionWriter<J>, rt: &R| -> (EditionWriter<J>, Result<(), AllocError>)
            requires { (newest (λ e. e.seen) writer.desk.shown.value.seen
                (drop writer.behind writer.log.items)).book ≡ J.history }
            ensures { MatchResult result.1
                (λ _. result.0.desk.shown.value.seen
                ≡ newest (λ e. e.seen) writer.desk.shown.value.seen
                (drop writer.behind writer.log.items))
                (λ _. result.0.desk.shown.value ≡ writer.desk.shown.value) }
        { show_pending::<J, R>(rt, writer) },
    )
}

/// Shows the newest of the editions that are pending.
fn show_pending<J: Naming, R: Wait>(
    rt: &R,
    writer: EditionWriter<J>,
) -> (EditionWriter<J>, Result<(), AllocError>)
    requires { (newest (λ e. e.seen) writer.desk.shown.value.seen
        (drop writer.behind writer.log.items)).book ≡ J.history }
    ensures { MatchResult result.1
        (λ _. result.0.desk.shown.value.seen
        ≡ newest (λ e. e.seen) writer.desk.shown.value.seen (drop writer.behind writer.log.items))
        (λ _. result.0.desk.shown.value ≡ writer.desk.shown.value) }
{
    writer.publish_as::<Of<J>, R>(rt)
}
