//! What stands at the front of the bytes of a connection (RFC 9112, sections 2, 3 and 6).
ghost use Rattle.std.specs.Prelude.{◌≡◌, ◌+◌, ◌^◌, ◌<◌, ◌≤◌, ℕ, Bool, List, length, None, true, false, IfOk};
ghost use Rattle.http_front.specs.Front.{blank_len, front_found, head_begun, is_ready};
ghost use Rattle.http_front.specs.Head.{head_of};
ghost use Rattle.http_front.specs.Checks as checks;
ghost use Rattle.http_front.specs.NextUnit as spec;
ghost use Rattle.http_front.specs.NextUnit.{NextUnit};
ghost use Rattle.http_front.specs.Arriving.{content_come, end_len};
ghost use Rattle.http_front.specs.Content as content;
ghost use Rattle.http_front.specs.Content.{content_of};
ghost use Rattle.http_front.specs.Framing.{content_length};
ghost use Rattle.http_front.specs.declared.next_unit.Ahead.TheVariants as Found;
ghost use Rattle.http_front.specs.Progress.{start, ahead_of, Tells, TellsBehind, TellsContent};
ghost use Rattle.http_front.specs.Reading.{open_answer, told_of, told_request, refused};
ghost use Rattle.unit_types.specs.Limits.{head_limit};
ghost use Rattle.unit_types.specs.declared.message.Addr.{Addr};

use crate::arriving::{Arriving, End};
use crate::checks::refusal_of;
use crate::content::is_continue_due;
use crate::framing::framing_of;
use crate::head::whole_head;
use crate::lines::{blank_len, block_len, has_too_many_lines};
use crate::progress::head_search;
use crate::request::request_of;
use crate::search::Search;
use crate::slices::{behind, first_bytes};
use httparse::spans::EMPTY_HEADER_SPAN;
use std::alloc::{AllocError, Global};
use unit_types::{Addr, Bytes, FIELD_LIMIT, HEAD_LIMIT, Request};

/// What a reader finds next in its bytes.
#[derive(Debug, Drop)]
pub enum Next {
    /// The client waits for `100 Continue` before it sends the content of a request.
    Continue,
    /// A whole request.
    Request(Request),
    /// More bytes are needed, and may come.
    NeedMore,
    /// The bytes are refused with that status, and the connection is to be closed.
    Bad(u16),
    /// The input ended, and only empty lines are left of it.
    End,
    /// The input ended inside a request.
    Cut,
}

/// An answer, how many bytes it uses up, and whether `100 Continue` is due before it.
#[derive(Debug, Drop)]
pub(crate) struct Told {
    pub(crate) answer: Next,
    pub(crate) used: usize,
    pub(crate) is_due: bool,
    /// Whether the head was complete.
    pub(crate) is_begun: bool,
}

/// What is ahead where more bytes are needed.
#[derive(Debug, Drop)]
pub(crate) enum Ahead {
    /// The end of a head, which was looked for so far.
    Head(Search),
    /// The rest of a content, behind so many bytes.
    Content(usize, Arriving),
}

/// What is told of the front of some bytes, and what is ahead.
#[derive(Debug, Drop)]
pub(crate) struct Step {
    pub(crate) told: Told,
    pub(crate) ahead: Ahead,
}

impl Next {
    /// The answer to a request that isn't whole, given whether the input ended.
    pub(crate) fn open(ended: bool) -> Next
        ensures { result ≡ open_answer ended }
    {
        if ended { Next::Cut } else { Next::NeedMore }
    }
}

impl Told {
    // a head that is refused
    fn refused(status: u16) -> Told
        ensures { result ≡ refused status }
    {
        Told {
            answer: Next::Bad(status),
            used: 0,
            is_due: false,
            is_begun: true,
        }
    }
}

impl Step {
    // the same, of which nothing more is to be known
    fn refused(status: u16) -> Step
        ensures { result ≡ record { told = refused status; ahead = Found.Head start } }
    {
        Step {
            told: Told::refused(status),
            ahead: Ahead::Head(Search::START),
        }
    }
}

/// What stands at the front of the bytes that a connection has left.
pub(crate) fn read_front(
    alloc: Global,
    from: Addr,
    to: Addr,
    bytes: &[u8],
    ended: bool,
    max_body: u64,
) -> Result<Step, AllocError>
    ensures told { IfOk result (λ step. step.told
        ≡ told_of from to (head_begun bytes.now) (spec.next_unit bytes.now ended max_body)) }
    ensures ahead { IfOk result (λ step. Tells step.ahead bytes.now max_body) }
{
    let blank = blank_len(bytes);
    let rest = behind(bytes, blank);
    match block_len(first_bytes(rest, HEAD_LIMIT)) {
        Some(size) => read_block(
            alloc,
            from,
            to,
            first_bytes(rest, size),
            blank + size,
            behind(rest, size),
            ended,
            max_body,
        ),
        None => Ok(Step {
            told: without_block(rest, ended),
            ahead: Ahead::Head(head_search(bytes)),
        }),
    }
}

// without a whole block within the limit
fn without_block(rest: &[u8], ended: bool) -> Told
    ensures { (from to : Addr) → result ≡ told_of from to
        (is_ready (front_found head_limit rest.now None))
        (spec.without_block head_limit rest.now ended) }
{
    if HEAD_LIMIT <= rest.len() {
        return Told::refused(431);
    }
    let answer = if !ended {
        Next::NeedMore
    } else if rest.is_empty() {
        Next::End
    } else {
        Next::Cut
    };
    Told {
        answer,
        used: 0,
        is_due: false,
        is_begun: false,
    }
}

// the checks of a head block, which ends `used` bytes behind the front, and what stands behind it
fn read_block(
    alloc: Global,
    from: Addr,
    to: Addr,
    block: &[u8],
    used: usize,
    rest: &[u8],
    ended: bool,
    max_body: u64,
) -> Result<Step, AllocError>
    requires no_empty_line { blank_len block.now ≡ 0 }
    requires fits { used + length rest.now < 2 ^ 64 }
    ensures told { IfOk result (λ step. step.told
        ≡ told_of from to true (spec.block_unit
        (checks.has_too_many_lines block.now) max_body used rest.now ended (head_of block.now))) }
    ensures ahead { IfOk result (λ step. TellsBehind step.ahead used rest.now
        (λ bytes over. spec.block_unit (checks.has_too_many_lines block.now) max_body used bytes
        over (head_of block.now))) }
{
    let mut headers = [EMPTY_HEADER_SPAN; FIELD_LIMIT];
    let Some(spans) = whole_head(block, &mut headers) else {
        return Ok(without_head(block));
    };
    let request = request_of(alloc, from, to, block, &spans, &headers)?;
    match refusal_of(&request, max_body) {
        Some(status) => Ok(Step::refused(status)),
        None => read_content(alloc, request, used, rest, ended, max_body),
    }
}

// a block that is no head of at most `FIELD_LIMIT` field lines
fn without_head(block: &[u8]) -> Step
    requires { checks.has_too_many_lines block.now ≡ false → head_of block.now ≡ None }
    ensures told { (from to : Addr) (limit used : ℕ) (rest : List ℕ) (ended : Bool)
        → result.told ≡ told_of from to true (spec.block_unit
        (checks.has_too_many_lines block.now) limit used rest ended (head_of block.now)) }
    ensures ahead { (used : ℕ) (rest : List ℕ) (unit : List ℕ → Bool → NextUnit)
        → TellsBehind result.ahead used rest unit }
{
    if has_too_many_lines(block) {
        Step::refused(431)
    } else {
        Step::refused(400)
    }
}

// a request that the checks let through, with the content that follows its head
fn read_content(
    alloc: Global,
    request: Request,
    used: usize,
    rest: &[u8],
    ended: bool,
    max_body: u64,
) -> Result<Step, AllocError>
    requires fits { used + length rest.now < 2 ^ 64 }
    requires length { content_length request.fields ≤ max_body }
    ensures told { IfOk result (λ step. step.told
        ≡ told_request request used ended (content_of max_body request.fields rest.now)) }
    ensures ahead { IfOk result (λ step. TellsContent step.ahead used rest.now max_body request) }
{
    let is_due = is_continue_due(&request);
    let Some(framing) = framing_of(max_body, request.fields.as_slice()) else {
        unreachable!();
    };
    let mut arriving = Arriving {
        request,
        content: Vec::new(alloc),
        framing,
    };
    let mut passed = 0;
    let end = arriving.decode(rest, &mut passed)?;
    Ok(content_step(arriving, end, used + passed, is_due, ended))
}

// what is told where so much of a request was read
#[inline(always)]
fn content_step(arriving: Arriving, end: End, used: usize, is_due: bool, ended: bool) -> Step
    requires fits { used + end_len end < 2 ^ 64 }
    requires due { is_due ≡ content.is_continue_due arriving.request.minor arriving.request.fields }
    ensures told { result.told ≡ told_request arriving.request used ended
        (content_come arriving.content.items end) }
    ensures ahead { result.ahead ≡ ahead_of end used arriving }
{
    let mut told = Told {
        answer: Next::open(ended),
        used: 0,
        is_due,
        is_begun: true,
    };
    let mut ahead = Ahead::Head(Search::START);
    match end {
        End::Whole(len) => {
            let Arriving {
                request,
                content,
                ..
            } = arriving;
            told.answer = Next::Request(Request {
                body: Bytes::of(content),
                ..request
            });
            told.used = used + len;
        }
        End::Refused(status) => told.answer = Next::Bad(status),
        End::Open => ahead = Ahead::Content(used, arriving),
    }
    Step { told, ahead }
}
