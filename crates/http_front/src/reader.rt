//! The requests of a connection, read from its bytes in any pieces.
ghost use Rattle.std.specs.Prelude.{◌≡◌, ◌≤◌, ◌&&◌, not, [], true, false, ℕ, length, IfOk, OnOk, OnErr, IsTrue};
ghost use Rattle.http_front.specs.Kept.{HasRead, head, fed, at_end, came_in, is_arriving, kept_answer, kept_next, marked, told_in, Unchanged, EndsIn, Enters};
ghost use Rattle.http_front.specs.Reading.{Reading, reading_of, has_begun, limit_or, kept_limit, is_request, next_answer, next_reading, HasSmallStatus};

use crate::arriving::{Arriving, Came, End};
use crate::next_unit::{Ahead, Next, Told, read_front};
use crate::progress::{Progress, search_over};
use crate::search::Search;
use crate::slices::behind;
use std::alloc::{AllocError, Global};
use std::marker::Model;
use unit_types::{Addr, Bytes};

/// Where a reader stood.
#[derive(Debug, Clone, Copy, Drop)]
struct Place {
    // how many bytes it kept, those of requests that it had used with them
    len: usize,
    used: usize,
    ended: bool,
    limit: Option<u64>,
    is_told: bool,
    // how much had come of the content that arrived
    came: Option<Came>,
}

impl Place {
    const START: Place = Place {
        len: 0,
        used: 0,
        ended: false,
        limit: None,
        is_told: false,
        came: None,
    };
}

/// Reads the requests of a connection from its bytes, in whatever pieces they come.
///
/// A `Reading` is what it has read: the bytes that no request has used yet, whether the input ended behind them, and what
/// holds of the request at their front. A reader lets bytes go whose meaning it keeps: empty lines, a complete head, the
/// framing of a content. `HasRead` relates the reading to what it keeps, and each contract holds for every reading.
#[derive(Debug, Drop)]
pub struct Reader {
    from: Addr,
    to: Addr,
    bytes: Vec<u8>,
    // how many bytes of `bytes` the requests so far have used
    used: usize,
    ended: bool,
    // of the request at the front: the limit of its content once its head is complete, and whether `Continue` was given
    limit: Option<u64>,
    is_told: bool,
    progress: Progress,
    // the request whose content arrives; or arrived since the mark, which needs it
    arriving: Option<Arriving>,
    // where it goes back to
    mark: Place,
}

impl Model for Reader {
    ghost use Rattle.http_front.specs.Kept.{Kept};

    ghost Value = { Kept };

    ghost use Rattle.http_front.specs.Inside.{kept_of, IsSound};

    ghost view = { kept_of };

    ghost invariant = { IsSound };
}

impl Reader {
    /// A reader that has no bytes yet, of a connection from one address to another.
    ///
    /// Fails for want of memory alone.
    pub fn open(alloc: Global, from: Addr, to: Addr) -> Result<Reader, AllocError>
        ensures read { IfOk result (λ reader. HasRead (reading_of from to [] false) reader) }
        ensures ended { IfOk result (λ reader. reader.ended ≡ false) }
    {
        Ok(Reader::over(Bytes::of(Vec::new(alloc)), from, to))
    }

    /// A reader whose first bytes are `bytes`, which it doesn't copy.
    pub fn over(bytes: Bytes, from: Addr, to: Addr) -> Reader
        ensures read { HasRead (reading_of from to bytes false) result }
        ensures ended { result.ended ≡ false }
    {
        Reader {
            from,
            to,
            bytes: bytes.into_vec(),
            used: 0,
            ended: false,
            limit: None,
            is_told: false,
            progress: Progress::START,
            arriving: None,
            mark: Place::START,
        }
    }

    /// Takes the next bytes of the input, and is marked before them.
    ///
    /// Fails for want of memory alone; the reader has then read what it had before.
    pub fn feed(&mut self, alloc: Global, piece: &[u8]) -> Result<(), AllocError>
        ensures ok { OnOk result
            ((r : Reading) → HasRead r self.old → HasRead (fed r piece.now) self.new) }
        ensures err { OnErr result ((r : Reading) → HasRead r self.old → HasRead r self.new) }
        ensures marked { OnOk result
            ((r : Reading) → HasRead r self.old → HasRead r (marked self.new)) }
        ensures ended { self.new.ended ≡ self.old.ended }
    {
        self.drop_blank();
        self.forget_used(alloc)?;
        self.mark();
        self.append(piece)
    }

    // puts the piece behind the bytes
    fn append(&mut self, piece: &[u8]) -> Result<(), AllocError>
        ensures ok { OnOk result
            ((r : Reading) → HasRead r self.old → HasRead (fed r piece.now) self.new) }
        ensures err { OnErr result ((r : Reading) → HasRead r self.old → HasRead r self.new) }
        ensures marked { marked self.new ≡ marked self.old }
        ensures ended { self.new.ended ≡ self.old.ended }
    {
        self.bytes.extend_from_slice(piece)
    }

    // lets the empty lines go that the search for the end of the head has passed
    fn drop_blank(&mut self)
        ensures read { (r : Reading) → HasRead r self.old → HasRead r self.new }
        ensures ended { self.new.ended ≡ self.old.ended }
    {
        if let Progress::Head(search) = self.progress {
            self.used += search.blank;
            self.progress = Progress::Head(search.from_blank());
        }
    }

    // lets the used bytes go once they are more than the others, so that each byte is moved at most once more; where it was
    // marked is forgotten
    fn forget_used(&mut self, alloc: Global) -> Result<(), AllocError>
        ensures { self.new ≡ record self.old { mark = self.new.mark } }
    {
        if self.bytes.len() - self.used < self.used {
            self.bytes = Vec::from_slice(alloc, &self.bytes[self.used..])?;
            self.used = 0;
            self.mark = Place::START;
        }
        Ok(())
    }

    /// Marks where it stands, so that `go_back` brings it there again. It takes no memory.
    pub fn mark(&mut self)
        ensures read { (r : Reading) → HasRead r self.old → HasRead r self.new }
        ensures marked { (r : Reading) → HasRead r self.old → HasRead r (marked self.new) }
        ensures ended { self.new.ended ≡ self.old.ended }
    {
        self.forget_arrived();
        let came = self.came();
        self.mark = Place {
            len: self.bytes.len(),
            used: self.used,
            ended: self.ended,
            limit: self.limit,
            is_told: self.is_told,
            came,
        };
    }

    // lets a content go that doesn't arrive any more; where it was marked is forgotten
    #[inline(always)]
    fn forget_arrived(&mut self)
        ensures { self.new ≡ record self.old { mark = self.new.mark } }
    {
        // without the first test the room of a content would be written at each call
        if self.arriving.is_some() && !self.is_arriving() {
            self.arriving = None;
        }
    }

    // how much came of the content that arrives
    #[inline(always)]
    fn came(&self) -> Option<Came>
        ensures { result ≡ came_in self.now.stage }
    {
        match (self.progress, &self.arriving) {
            (Progress::Content, Some(arriving)) => Some(arriving.came()),
            _ => None,
        }
    }

    /// Goes back to where it was marked: it has read then what it had read there. It takes no memory.
    pub fn go_back(&mut self)
        ensures { (r : Reading) → HasRead r (marked self.old) → HasRead r self.new }
    {
        self.bytes.truncate(self.mark.len);
        self.used = self.mark.used;
        self.ended = self.mark.ended;
        self.limit = self.mark.limit;
        self.is_told = self.mark.is_told;
        self.progress = Progress::START;
        if let Some(came) = self.mark.came
            && let Some(arriving) = &mut self.arriving
        {
            arriving.cut_to(came);
            self.progress = Progress::Content;
        }
    }

    /// Says that the input ended behind the bytes so far.
    pub fn end(&mut self)
        ensures { (r : Reading) → HasRead r self.old → HasRead (at_end r) self.new }
    {
        self.ended = true;
    }

    /// The same, and is marked before it.
    pub fn end_marked(&mut self)
        ensures read { (r : Reading) → HasRead r self.old → HasRead (at_end r) self.new }
        ensures marked { (r : Reading) → HasRead r self.old → HasRead r (marked self.new) }
    {
        self.mark();
        self.ended = true;
    }

    /// How many bytes it keeps, a content with them.
    #[cfg(test)]
    pub(crate) fn kept_len(&self) -> usize {
        match &self.arriving {
            Some(arriving) => self.bytes.len().saturating_add(arriving.content.len()),
            None => self.bytes.len(),
        }
    }

    /// Whether the head of the request at the front is complete, as far as the calls of `next` found it.
    pub fn has_begun(&self) -> bool
        ensures { (r : Reading) → HasRead r self.now → result ≡ has_begun r }
    {
        self.limit.is_some()
    }

    /// What stands at the front of the bytes that no request has used, given the largest content that is taken.
    ///
    /// `Continue` comes once for a request, where it is due. A request that is answered is used up. After `Bad`, `End` and
    /// `Cut` the answer comes again. The largest content is the one given to the call that finds the head complete; later
    /// calls leave it. Fails for want of memory alone; the reader has then read what it had before.
    #[inline(always)]
    pub fn next(&mut self, alloc: Global, max_body: u64) -> Result<Next, AllocError>
        ensures answer { IfOk result
            (λ answer. (r : Reading) → HasRead r self.old → answer ≡ next_answer r max_body) }
        ensures ok { OnOk result
            ((r : Reading) → HasRead r self.old → HasRead (next_reading r max_body) self.new) }
        ensures err { OnErr result ((r : Reading) → HasRead r self.old → HasRead r self.new) }
        ensures ended { self.new.ended ≡ self.old.ended }
        ensures marked { marked self.new ≡ marked self.old }
        ensures small { IfOk result HasSmallStatus }
    {
        if self.still_waits() {
            Ok(Next::NeedMore)
        } else {
            self.read(alloc, max_body)
        }
    }

    // the same, by what arrives. It stands apart from `next`, which goes into its caller: a call that only waits for a head
    // then needs none of this room, and builds no answer.
    #[inline(never)]
    fn read(&mut self, alloc: Global, max_body: u64) -> Result<Next, AllocError>
        ensures answer { IfOk result
            (λ answer. (r : Reading) → HasRead r self.old → answer ≡ next_answer r max_body) }
        ensures ok { OnOk result
            ((r : Reading) → HasRead r self.old → HasRead (next_reading r max_body) self.new) }
        ensures err { OnErr result ((r : Reading) → HasRead r self.old → HasRead r self.new) }
        ensures ended { self.new.ended ≡ self.old.ended }
        ensures marked { marked self.new ≡ marked self.old }
        ensures small { IfOk result HasSmallStatus }
    {
        if self.is_arriving() {
            self.read_content(alloc, max_body)
        } else {
            self.read_head(alloc, max_body)
        }
    }

    #[inline(always)]
    fn is_arriving(&self) -> bool
        ensures { result ≡ is_arriving self.now.stage }
    {
        self.progress == Progress::Content && self.arriving.is_some()
    }

    // whether more bytes are needed for a head, as far as the search so far tells
    fn still_waits(&mut self) -> bool
        ensures same { self.new ≡ self.old }
        ensures waits { IsTrue result → (limit : ℕ) → Unchanged self.old limit }
    {
        let Progress::Head(search) = self.progress else {
            return false;
        };
        if self.ended || search == Search::START {
            return false;
        }
        match search_over(search, behind(&self.bytes, self.used)) {
            Some(search) => {
                self.progress = Progress::Head(search);
                true
            }
            None => false,
        }
    }

    // the same as `next`, by all bytes anew
    fn read_head(&mut self, alloc: Global, max_body: u64) -> Result<Next, AllocError>
        requires { self.old.stage ≡ head }
        ensures answer { IfOk result (λ answer. answer ≡ kept_answer self.old max_body) }
        ensures ok { OnOk result
            ((r : Reading) → HasRead r self.old → HasRead (next_reading r max_body) self.new) }
        ensures err { OnErr result (self.new ≡ self.old) }
        ensures ended { self.new.ended ≡ self.old.ended }
        ensures marked { marked self.new ≡ marked self.old }
        ensures small { IfOk result HasSmallStatus }
    {
        let limit = limit_or(self.limit, max_body);
        let unread = behind(&self.bytes, self.used);
        let step = read_front(alloc, self.from, self.to, unread, self.ended, limit)?;
        let answer = self.turn(step.told, max_body);
        if is_request(&answer) {
            return Ok(answer);
        }
        self.enter(step.ahead);
        Ok(answer)
    }

    // answers by what is told of what is kept
    #[inline(always)]
    fn turn(&mut self, told: Told, max_body: u64) -> Next
        requires told { told ≡ told_in self.old max_body }
        requires fits { told.used ≤ length self.old.bytes }
        requires small { HasSmallStatus told.answer }
        ensures answer { result ≡ kept_answer self.old max_body }
        ensures value { self.new ≡ kept_next self.old max_body }
        ensures small { HasSmallStatus result }
    {
        if asks_now(told.is_due, self.is_told) {
            self.limit = kept_limit(told.is_begun, self.limit, max_body);
            self.is_told = true;
            return Next::Continue;
        }
        if is_request(&told.answer) {
            self.used += told.used;
            self.limit = None;
            self.is_told = false;
            self.progress = Progress::START;
        } else {
            self.limit = kept_limit(told.is_begun, self.limit, max_body);
        }
        told.answer
    }

    // goes on to what is ahead. A request that the mark needs stays: the head is then read anew by the next call behind a
    // mark.
    fn enter(&mut self, ahead: Ahead)
        requires head { self.old.stage ≡ head }
        requires enters { Enters ahead self.old }
        ensures read { (r : Reading) → HasRead r self.old → HasRead r self.new }
        ensures ended { self.new.ended ≡ self.old.ended }
        ensures marked { marked self.new ≡ marked self.old }
    {
        self.progress = Progress::START;
        match ahead {
            Ahead::Head(search) => self.progress = Progress::Head(search),
            Ahead::Content(len, arriving) => {
                if self.mark.came.is_none() {
                    self.used += len;
                    self.arriving = Some(arriving);
                    self.progress = Progress::Content;
                }
            }
        }
    }

    // the same as `next`, by the rest of the content that arrives
    fn read_content(&mut self, alloc: Global, max_body: u64) -> Result<Next, AllocError>
        requires { is_arriving self.old.stage ≡ true }
        ensures answer { IfOk result
            (λ answer. (r : Reading) → HasRead r self.old → answer ≡ next_answer r max_body) }
        ensures ok { OnOk result
            ((r : Reading) → HasRead r self.old → HasRead (next_reading r max_body) self.new) }
        ensures err { OnErr result ((r : Reading) → HasRead r self.old → HasRead r self.new) }
        ensures ended { self.new.ended ≡ self.old.ended }
        ensures marked { marked self.new ≡ marked self.old }
        ensures small { IfOk result HasSmallStatus }
    {
        let end = self.decode()?;
        let told = self.tell(alloc, end)?;
        Ok(self.turn(told, max_body))
    }

    // takes what came of the content, and says what stands behind it
    fn decode(&mut self) -> Result<End, AllocError>
        requires { is_arriving self.old.stage ≡ true }
        ensures read { (r : Reading) → HasRead r self.old → HasRead r self.new }
        ensures ends { IfOk result (λ end. EndsIn end self.new.bytes self.new.stage) }
        ensures ended { self.new.ended ≡ self.old.ended }
        ensures marked { marked self.new ≡ marked self.old }
    {
        let Some(arriving) = &mut self.arriving else {
            unreachable!();
        };
        arriving.decode(&self.bytes, &mut self.used)
    }

    // what is told where that stands behind the content that came
    fn tell(&self, alloc: Global, end: End) -> Result<Told, AllocError>
        requires { EndsIn end self.now.bytes self.now.stage }
        ensures told { IfOk result (λ told. (limit : ℕ) → told ≡ told_in self.now limit) }
        ensures fits { IfOk result (λ told. told.used ≤ length self.now.bytes) }
        ensures small { IfOk result (λ told. HasSmallStatus told.answer) }
    {
        let Some(arriving) = &self.arriving else {
            unreachable!();
        };
        arriving.told(alloc, self.from, self.to, end, self.ended)
    }
}

// the limit that counts, given that of this call
fn limit_or(kept: Option<u64>, limit: u64) -> u64
    ensures { result ≡ limit_or kept limit }
{
    match kept {
        Some(kept) => kept,
        None => limit,
    }
}

// the limit that is kept for the request at the front, whose head may be complete
fn kept_limit(is_begun: bool, kept: Option<u64>, limit: u64) -> Option<u64>
    ensures { result ≡ kept_limit is_begun kept limit }
{
    if is_begun {
        Some(limit_or(kept, limit))
    } else {
        kept
    }
}

// whether `Continue` is due and was not given yet
fn asks_now(is_due: bool, is_told: bool) -> bool
    ensures { result ≡ (is_due && not is_told) }
{
    is_due && !is_told
}

fn is_request(answer: &Next) -> bool
    ensures { result ≡ is_request answer.now }
{
    match answer {
        Next::Request(_) => true,
        _ => false,
    }
}
