//! The handlers of the program.
ghost use Rattle.std.specs.Prelude.{◌≡◌, [], IfOk};
ghost use Rattle.unit_program.specs.Replies.{content_reply, hello_reply, where_recorded, count_reply, echo_reply, names_known};

use itoa::Buffer;
use std::alloc::{AllocError, Global};
use unit_types::{Bytes, Field, Fields, Handlers, RECORD_LIMIT, Reply, Request};

/// Bytes of the record of an `echo` reply beside its content.
const ECHO_RECORD: usize = 54;

/// The handlers that the program brings along: `count`, which writes how many bytes the content has; `echo`, which gives it
/// back; and `hello`, which greets.
#[derive(Drop)]
pub struct ProgramHandlers {
    names: Vec<Bytes>,
    ghost known: { names.items ≡ names_known },
}

impl ProgramHandlers {
    /// The handlers with their names.
    ///
    /// Fails for want of memory alone.
    pub fn open(alloc: Global) -> Result<ProgramHandlers, AllocError> {
        let mut names = Vec::new(alloc);
        names.push(Bytes::copy_of(alloc, b"count")?)?;
        names.push(Bytes::copy_of(alloc, b"echo")?)?;
        names.push(Bytes::copy_of(alloc, b"hello")?)?;
        Ok(ProgramHandlers { names })
    }
}

// A reply with that content, of that type.
fn content_reply(alloc: Global, media_type: &[u8], body: Bytes) -> Result<Reply, AllocError>
    ensures { IfOk result (λ reply. reply ≡ content_reply media_type.now body) }
{
    let mut fields = Vec::new(alloc);
    fields.push(Field {
        name: Bytes::copy_of(alloc, b"Content-Type")?,
        value: Bytes::copy_of(alloc, media_type)?,
    })?;
    Ok(Reply {
        status: 200,
        fields: Fields::of(fields),
        body,
    })
}

// The reply of `hello`.
fn hello(alloc: Global) -> Result<Reply, AllocError>
    ensures { IfOk result (λ reply. reply ≡ hello_reply) }
{
    let body = Bytes::copy_of(alloc, b"Hello, world!\n")?;
    content_reply(alloc, b"text/plain", body)
}

// The reply of `count` to a content.
#[tactic(auto, using(crate::proofs::Recorded::count_recorded))]
fn count(alloc: Global, content: &[u8]) -> Result<Reply, AllocError>
    ensures { IfOk result (λ reply. reply ≡ where_recorded (count_reply content.now)) }
{
    let mut digits = Buffer::new();
    let mut body = Bytes::copy_of(alloc, digits.format(content.len()).as_bytes())?;
    body.append(b"\n")?;
    content_reply(alloc, b"text/plain", body)
}

// The reply of `echo` to a content.
#[tactic(auto, using(crate::proofs::Recorded::echo_recorded, crate::proofs::Recorded::echo_refused))]
fn echo(alloc: Global, content: &[u8]) -> Result<Reply, AllocError>
    ensures { IfOk result (λ reply. reply ≡ where_recorded (echo_reply content.now)) }
{
    if content.len() > RECORD_LIMIT - ECHO_RECORD {
        return Ok(bare_reply(alloc, 413));
    }
    let body = Bytes::copy_of(alloc, content)?;
    content_reply(alloc, b"application/octet-stream", body)
}

// A reply of that status without fields and content.
fn bare_reply(alloc: Global, status: u16) -> Reply
    ensures { result ≡ record { status = status; fields = []; body = [] } }
{
    Reply {
        status,
        fields: Fields::of(Vec::new(alloc)),
        body: Bytes::of(Vec::new(alloc)),
    }
}

impl Handlers for ProgramHandlers {
    ghost use Rattle.unit_program.specs.Replies.{program_reply};
    ghost use Rattle.unit_program.specs.Laws.{names_fit, replies_fit};

    ghost reply_of = { program_reply };

    ghost listed = { λ _. names_known };

    ghost names_fit = { λ _. names_fit };

    ghost replies_fit = { replies_fit };

    fn names(&self) -> &[Bytes] {
        self.names.as_slice()
    }

    fn reply(&self, alloc: Global, name: &[u8], request: &Request) -> Result<Reply, AllocError> {
        if name == b"count".as_slice() {
            count(alloc, request.body.as_slice())
        } else if name == b"echo".as_slice() {
            echo(alloc, request.body.as_slice())
        } else if name == b"hello".as_slice() {
            hello(alloc)
        } else {
            Ok(bare_reply(alloc, 404))
        }
    }
}
