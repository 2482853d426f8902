//! A connection from its first byte to its end, with handlers that give the content of a request back.
ghost use Rattle.std.specs.Prelude.{◌≡◌, ◌≤◌, ◌<◌, false, None, [], All, IfOk, length, take};
ghost use Rattle.conf_tree.specs.Document.{IsDocument};
ghost use Rattle.conf_tree.specs.View.{data_of};
ghost use Rattle.conf_validate.specs.Current.{numbered};
ghost use Rattle.conn_machine.specs.declared.receipt.Need.TheVariants.{Ask};
ghost use Rattle.conn_machine.specs.Shows.{IsAfter, need_in};
ghost use Rattle.request_context.specs.Echoing.{echo_fields};

use crate::{Kind, Machine, Need, Receipts, Why};
use conf_tree::{Tree, read_tree};
use conf_validate::{Current, validate};
use std::alloc::{AllocError, Global};
use std::sync::Arc;
use std::test::Fail;
use unit_types::{Addr, Bytes, Field, Fields, Handlers, Reply, Request};

// The most content that a reply gives back.
const CONTENT: usize = 10_000_000;

// The fields of each reply.
fn fields(alloc: Global) -> Result<Fields, AllocError>
    ensures { IfOk result (λ fields. fields ≡ echo_fields) }
{
    let mut fields = Vec::new(alloc);
    fields.push(Field {
        name: Bytes::copy_of(alloc, b"Content-Type")?,
        value: Bytes::copy_of(alloc, b"application/octet-stream")?,
    })?;
    Ok(Fields::of(fields))
}

// The content of a reply.
fn content(alloc: Global, posted: &[u8]) -> Result<Bytes, AllocError>
    ensures { IfOk result (λ content. content ≡ take 10000000 posted.now) }
{
    if posted.len() <= CONTENT {
        return Bytes::copy_of(alloc, posted);
    }
    Bytes::copy_of(alloc, &posted[..CONTENT])
}

// Handlers that give the request's content back.
#[derive(Drop)]
struct Echo;

impl Handlers for Echo {
    ghost use Rattle.request_context.specs.Echoing.{echo_reply, echo_fits, no_names_fit};

    ghost reply_of = { echo_reply };

    ghost listed = { λ _. [] };

    ghost names_fit = { λ _. no_names_fit };

    ghost replies_fit = { echo_fits };

    fn names(&self) -> &[Bytes] {
        &[]
    }

    fn reply(&self, alloc: Global, _name: &[u8], request: &Request) -> Result<Reply, AllocError> {
        Ok(Reply {
            status: 200,
            fields: fields(alloc)?,
            body: content(alloc, request.body.as_slice())?,
        })
    }
}

// ---- configurations

fn document(alloc: Global, text: &[u8]) -> Result<Tree, Fail>
    ensures { IfOk result (λ tree. IsDocument (data_of tree)) }
{
    match read_tree(alloc, text)? {
        Some(tree) => Ok(tree),
        None => Err("no document")?,
    }
}

fn handlers(alloc: Global) -> Result<[Bytes; 1], AllocError>
    ensures { IfOk result (λ names. All (λ name. length name ≤ 255) names) }
{
    Ok([Bytes::copy_of(alloc, b"echo")?])
}

fn current(alloc: Global, number: u64, text: &[u8]) -> Result<Current, Fail>
    ensures { IfOk result (λ current. current.number ≡ number) }
{
    let tree = document(alloc, text)?;
    match validate(alloc, &tree, &handlers(alloc)?) {
        Ok(conf) => Ok(Current {
            number,
            conf: Arc::new(alloc, conf)?,
        }),
        Err(_) => Err("refused")?,
    }
}

fn moving() -> &'static str {
    r#"{"listeners":{"*:8080":{"pass":"routes"}},"routes":[{"action":{"return":301,"location":"https://$host$request_uri"}}]}"#
}

fn plain() -> &'static str {
    r#"{"applications":{"app":{"type":"external","executable":"echo","limits":{"timeout":7}}},"listeners":{"*:8080":{"pass":"routes"}},"routes":[{"match":{"uri":"/own"},"action":{"return":204}},{"action":{"pass":"applications/app"}}],"access_log":{}}"#
}

fn by_argument() -> &'static str {
    r#"{"applications":{"h":{"type":"external","executable":"echo"}},"listeners":{"*:8080":{"pass":"applications/$arg_app"}},"access_log":{"format":"$uri"}}"#
}

fn with_fields() -> &'static str {
    r#"{"applications":{"app":{"type":"external","executable":"echo"}},"listeners":{"*:8080":{"pass":"routes"}},"routes":[{"action":{"pass":"applications/app","response_headers":{"X-App":"one","content-type":null}}}]}"#
}

fn rewriting() -> &'static str {
    r#"{"applications":{"app":{"type":"external","executable":"echo"}},"listeners":{"*:8080":{"pass":"routes"}},"routes":[{"action":{"pass":"applications/app","rewrite":"/v1$uri"}}],"access_log":{"format":"$request_uri $uri"}}"#
}

// ---- connections

fn open(alloc: Global) -> Result<Machine<Echo>, AllocError>
    ensures met { IfOk result (λ machine. machine.met ≡ None) }
    ensures ended { IfOk result (λ machine. machine.ended ≡ false) }
    ensures given_up { IfOk result (λ machine. machine.given_up ≡ false) }
{
    let from = Addr {
        ip: 0x7F00_0001,
        port: 40000,
    };
    let to = Addr {
        ip: 0x7F00_0001,
        port: 8080,
    };
    Machine::open(alloc, Bytes::copy_of(alloc, b"*:8080")?, from, to)
}

// The reply to what is asked; at the paths `/busy` and `/late` it is turned away and late.
fn reply(alloc: Global, machine: &mut Machine<Echo>, conf: &Current) -> Result<(), AllocError>
    requires ask { need_in machine.old ≡ Ask }
    requires after { IsAfter machine.old.met (numbered conf.now) }
    ensures after { IsAfter machine.new.met (numbered conf.now) }
    ensures ended { machine.new.ended ≡ machine.old.ended }
    ensures given_up { machine.new.given_up ≡ machine.old.given_up }
{
    let Some(asked) = machine.asking() else {
        return Ok(());
    };
    let path = asked.1.path.as_slice();
    if path == b"/busy".as_slice() {
        return machine.on_busy(alloc, 0, Why::Worn { place: 9 }, conf);
    }
    if path == b"/late".as_slice() && machine.timeout().is_some() {
        return machine.on_late(alloc, 4, 10, 11, conf);
    }
    let reply = Echo.reply(alloc, asked.0.as_slice(), &asked.1)?;
    machine.on_reply(alloc, 1, &reply, conf)
}

// What a machine waits for is done once: it is written, or replied. Where memory is wanting for a reply, the next call makes it.
fn serve(
    alloc: Global,
    machine: &mut Machine<Echo>,
    conf: &Current,
    out: &mut Bytes,
) -> Result<(), AllocError>
    requires { IsAfter machine.old.met (numbered conf.now) }
    ensures after { IsAfter machine.new.met (numbered conf.now) }
    ensures ended { machine.new.ended ≡ machine.old.ended }
    ensures given_up { machine.new.given_up ≡ machine.old.given_up }
{
    match machine.need() {
        Need::Write => {
            out.append(machine.out())?;
            let len = machine.out().len();
            machine.wrote(len);
        }
        Need::Ask => {
            let _again = reply(alloc, machine, conf).is_err();
        }
        Need::Read | Need::Close => {}
    }
    Ok(())
}

// All that a machine waits for, as far as a test goes.
fn serve_all(
    alloc: Global,
    machine: &mut Machine<Echo>,
    conf: &Current,
    out: &mut Bytes,
) -> Result<(), AllocError>
    requires { IsAfter machine.old.met (numbered conf.now) }
    ensures after { IsAfter machine.new.met (numbered conf.now) }
    ensures ended { machine.new.ended ≡ machine.old.ended }
    ensures given_up { machine.new.given_up ≡ machine.old.given_up }
{
    for _ in 0..12 {
        serve(alloc, machine, conf, out)?;
    }
    Ok(())
}

// The client's next bytes, and what follows of them. Where memory is wanting the call is made once more.
fn send(
    alloc: Global,
    machine: &mut Machine<Echo>,
    conf: &Current,
    piece: &[u8],
    out: &mut Bytes,
) -> Result<(), AllocError>
    requires after { IsAfter machine.old.met (numbered conf.now) }
    requires ended { machine.old.ended ≡ false }
    requires given_up { machine.old.given_up ≡ false }
    ensures after { IsAfter machine.new.met (numbered conf.now) }
    ensures ended { machine.new.ended ≡ false }
    ensures given_up { machine.new.given_up ≡ false }
{
    if machine.on_bytes(alloc, conf, piece).is_err() {
        machine.on_bytes(alloc, conf, piece)?;
    }
    serve_all(alloc, machine, conf, out)
}

// How a client's connection ends.
#[derive(Clone, Copy)]
enum Ending {
    Input,
    Gone,
    Memory,
}

fn end(
    alloc: Global,
    machine: &mut Machine<Echo>,
    conf: &Current,
    how: Ending,
) -> Result<(), AllocError>
    requires after { IsAfter machine.old.met (numbered conf.now) }
    requires ended { machine.old.ended ≡ false }
    requires given_up { machine.old.given_up ≡ false }
    ensures { IsAfter machine.new.met (numbered conf.now) }
{
    match how {
        Ending::Input => {
            if machine.on_end(alloc, conf).is_err() {
                machine.on_end(alloc, conf)?;
            }
        }
        Ending::Gone => machine.on_gone(conf.number, 0),
        Ending::Memory => machine.on_memory(conf.number, 0),
    }
    Ok(())
}

fn name_of(kind: &Kind) -> &'static str {
    match kind {
        Kind::App => "App",
        Kind::Own => "Own",
        Kind::Busy(_) => "Busy",
        Kind::Late { .. } => "Late",
        Kind::Gone => "Gone",
        Kind::Cut => "Cut",
        Kind::Memory => "Memory",
    }
}

// Each receipt as the number of its configuration, its stream and its kind.
fn told(alloc: Global, receipts: &Receipts) -> Result<Bytes, AllocError> {
    let mut told = Bytes::of(Vec::new(alloc));
    for receipt in receipts.as_slice() {
        let line = format!(in alloc;
            "{} {} {}\n",
            receipt.conf,
            receipt.stream,
            name_of(&receipt.kind)
        )?;
        told.append(line.as_bytes())?;
    }
    Ok(told)
}

// What was written on a connection, its receipts and its lines.
#[derive(Drop)]
struct Course {
    out: Bytes,
    receipts: Bytes,
    lines: Bytes,
}

fn closed(alloc: Global, machine: Machine<Echo>, out: Bytes) -> Result<Course, AllocError> {
    let (receipts, lines) = machine.close();
    let receipts = told(alloc, &receipts)?;
    Ok(Course {
        out,
        receipts,
        lines,
    })
}

// The course of a connection whose client sends the input in pieces of so many bytes, and ends it so.
fn run(
    alloc: Global,
    conf: &Current,
    input: &[u8],
    size: usize,
    how: Ending,
) -> Result<Course, AllocError>
    requires { 0 < size }
{
    let mut machine = open(alloc)?;
    let mut out = Bytes::of(Vec::new(alloc));
    for piece in input.chunks(size) {
        send(alloc, &mut machine, conf, piece, &mut out)?;
    }
    end(alloc, &mut machine, conf, how)?;
    serve_all(alloc, &mut machine, conf, &mut out)?;
    closed(alloc, machine, out)
}

// ---- one configuration

// A configuration, what a client sends, and how it ends its connection; what is written, the receipts and the lines.
#[derive(Clone, Copy)]
struct Row {
    name: &'static str,
    conf: &'static str,
    input: &'static str,
    how: Ending,
    out: &'static str,
    receipts: &'static str,
    lines: &'static str,
}

impl Row {
    fn is(&self, course: &Course) -> bool {
        course.out.as_slice() == self.out.as_bytes()
            && course.receipts.as_slice() == self.receipts.as_bytes()
            && course.lines.as_slice() == self.lines.as_bytes()
    }

    // Whether it goes so whole, byte by byte, and with a byte behind it.
    fn holds(&self, alloc: Global) -> Result<bool, Fail> {
        let conf = current(alloc, 3, self.conf.as_bytes())?;
        let input = self.input.as_bytes();
        let mut longer = Bytes::copy_of(alloc, input)?;
        longer.append(b"G")?;
        Ok(
            self.is(&run(alloc, &conf, input, 10_000, self.how)?)
                && self.is(&run(alloc, &conf, input, 1, self.how)?)
                && self.is(&run(alloc, &conf, longer.as_slice(), 10_000, self.how)?),
        )
    }
}

fn returned() -> Row {
    Row {
        name: "a return",
        conf: moving(),
        input: "GET / HTTP/1.1\r\nHost: a\r\n\r\n",
        how: Ending::Input,
        out: "HTTP/1.1 301 Moved Permanently\r\nLocation: https://a/\r\nContent-Length: 0\r\n\r\n",
        receipts: "3 0 Own\n",
        lines: "",
    }
}

fn passed() -> Row {
    Row {
        name: "a pass with an argument",
        conf: by_argument(),
        input: "GET /a%0Ab?app=h HTTP/1.1\r\nHost: a\r\n\r\nGET /?app=z HTTP/1.1\r\nHost: a\r\n\r\n",
        how: Ending::Input,
        out: "HTTP/1.1 200 OK\r\nContent-Type: application/octet-stream\r\nContent-Length: 0\r\n\r\nHTTP/1.1 404 Not Found\r\nContent-Type: text/plain\r\nContent-Length: 12\r\n\r\nError 404.\r\n",
        receipts: "3 1 App\n3 0 Own\n",
        lines: "/a\\x0Ab\n/\n",
    }
}

fn fielded() -> Row {
    Row {
        name: "fields of a reply",
        conf: with_fields(),
        input: "POST / HTTP/1.1\r\nHost: a\r\nContent-Length: 14\r\n\r\nHello, world!\n",
        how: Ending::Input,
        out: "HTTP/1.1 200 OK\r\nX-App: one\r\nContent-Length: 14\r\n\r\nHello, world!\n",
        receipts: "3 1 App\n",
        lines: "",
    }
}

fn logged() -> Row {
    Row {
        name: "lines of a log",
        conf: plain(),
        input: "GET / HTTP/1.1\r\nHost: a\r\nContent-Length: 14\r\n\r\nHello, world!\nHEAD / HTTP/1.1\r\nHost: a\r\nContent-Length: 2\r\n\r\nokGET / HTTP/1.1\r\n\r\n",
        how: Ending::Input,
        out: "HTTP/1.1 200 OK\r\nContent-Type: application/octet-stream\r\nContent-Length: 14\r\n\r\nHello, world!\nHTTP/1.1 200 OK\r\nContent-Type: application/octet-stream\r\nContent-Length: 2\r\n\r\nHTTP/1.1 400 Bad Request\r\nContent-Type: text/plain\r\nContent-Length: 12\r\nConnection: close\r\n\r\nError 400.\r\n",
        receipts: "3 1 App\n3 1 App\n3 0 Own\n",
        lines: "127.0.0.1 \"GET / HTTP/1.1\" 200 14 \"-\" \"-\"\n127.0.0.1 \"HEAD / HTTP/1.1\" 200 0 \"-\" \"-\"\n127.0.0.1 \"-\" 400 12 \"-\" \"-\"\n",
    }
}

fn rewritten() -> Row {
    Row {
        name: "a line of a request that is rewritten",
        conf: rewriting(),
        input: "GET /a?x=1 HTTP/1.1\r\nHost: a\r\n\r\n",
        how: Ending::Input,
        out: "HTTP/1.1 200 OK\r\nContent-Type: application/octet-stream\r\nContent-Length: 0\r\n\r\n",
        receipts: "3 1 App\n",
        lines: "/a?x=1 /a\n",
    }
}

fn told_on() -> Row {
    Row {
        name: "a content that is waited for",
        conf: with_fields(),
        input: "POST / HTTP/1.1\r\nHost: a\r\nExpect: 100-continue\r\nContent-Length: 2\r\nConnection: close\r\n\r\nde",
        how: Ending::Input,
        out: "HTTP/1.1 100 Continue\r\n\r\nHTTP/1.1 200 OK\r\nX-App: one\r\nContent-Length: 2\r\nConnection: close\r\n\r\nde",
        receipts: "3 1 App\n",
        lines: "",
    }
}

// Each kind of receipt, the last one by how the connection ends.
fn each_kind(name: &'static str, how: Ending, receipts: &'static str) -> Row {
    Row {
        name,
        conf: plain(),
        input: "GET / HTTP/1.1\r\nHost: a\r\n\r\nGET /own HTTP/1.1\r\nHost: a\r\n\r\nGET /busy HTTP/1.1\r\nHost: a\r\n\r\nGET /late HTTP/1.1\r\nHost: a\r\n\r\nPOST / HTTP/1.1\r\nHost: a\r\nContent-Length: 3\r\n\r\na",
        how,
        out: "HTTP/1.1 200 OK\r\nContent-Type: application/octet-stream\r\nContent-Length: 0\r\n\r\nHTTP/1.1 204 No Content\r\n\r\nHTTP/1.1 503 Service Unavailable\r\nContent-Type: text/plain\r\nContent-Length: 12\r\n\r\nError 503.\r\nHTTP/1.1 503 Service Unavailable\r\nContent-Type: text/plain\r\nContent-Length: 12\r\n\r\nError 503.\r\n",
        receipts,
        lines: "127.0.0.1 \"GET / HTTP/1.1\" 200 0 \"-\" \"-\"\n127.0.0.1 \"GET /own HTTP/1.1\" 204 0 \"-\" \"-\"\n127.0.0.1 \"GET /busy HTTP/1.1\" 503 12 \"-\" \"-\"\n127.0.0.1 \"GET /late HTTP/1.1\" 503 12 \"-\" \"-\"\n",
    }
}

fn rows() -> [Row; 9] {
    [
        returned(),
        passed(),
        fielded(),
        logged(),
        rewritten(),
        told_on(),
        each_kind(
            "cut",
            Ending::Input,
            "3 1 App\n3 0 Own\n3 0 Busy\n3 4 Late\n3 0 Cut\n",
        ),
        each_kind(
            "gone",
            Ending::Gone,
            "3 1 App\n3 0 Own\n3 0 Busy\n3 4 Late\n3 0 Gone\n",
        ),
        each_kind(
            "memory",
            Ending::Memory,
            "3 1 App\n3 0 Own\n3 0 Busy\n3 4 Late\n3 0 Memory\n",
        ),
    ]
}

#[test]
fn a_connection_goes_as_its_row_says(rt: HostRuntime) -> Result<(), Fail> {
    for row in rows() {
        assert!(rt; row.holds(rt.alloc())?, "{}", row.name);
    }
    Ok(())
}

#[test]
fn a_large_content_comes_back(rt: HostRuntime) -> Result<(), Fail> {
    let alloc = rt.alloc();
    let conf = current(alloc, 0, by_argument().as_bytes())?;
    let mut input = Bytes::copy_of(
        alloc,
        b"POST /?app=h HTTP/1.1\r\nHost: a\r\nContent-Length: 300000\r\n\r\n",
    )?;
    let mut content = Vec::new(alloc);
    content.resize(300_000, b'x')?;
    input.append(content.as_slice())?;
    let course = run(alloc, &conf, input.as_slice(), 65_536, Ending::Input)?;
    assert!(rt; course.out.as_slice().ends_with(content.as_slice()));
    assert!(rt; course.out.as_slice().len() == 300_083);
    assert!(rt; course.receipts.as_slice() == b"0 1 App\n".as_slice());
    Ok(())
}

// ---- what is asked

// The name, the target, the path and the query of what is asked, each on a line.
fn asked_of(alloc: Global, machine: &Machine<Echo>) -> Result<Bytes, AllocError> {
    let mut asked = Bytes::of(Vec::new(alloc));
    if let Some((name, request)) = machine.asking() {
        for text in [name, &request.target, &request.path, &request.query] {
            asked.append(text.as_slice())?;
            asked.append(b"\n")?;
        }
    }
    Ok(asked)
}

// The same, once the input came in pieces of so many bytes.
fn asked_behind(
    alloc: Global,
    conf: &Current,
    input: &[u8],
    size: usize,
) -> Result<Bytes, AllocError>
    requires { 0 < size }
{
    let mut machine = open(alloc)?;
    for piece in input.chunks(size) {
        machine.on_bytes(alloc, conf, piece)?;
    }
    asked_of(alloc, &machine)
}

#[test]
fn a_step_rewrites_what_is_asked(rt: HostRuntime) -> Result<(), Fail> {
    let alloc = rt.alloc();
    let conf = current(alloc, 0, rewriting().as_bytes())?;
    let input = b"GET /a?x=1 HTTP/1.1\r\nHost: a\r\n\r\nG";
    let wanted = b"echo\n/v1/a?x=1\n/v1/a\nx=1\n";
    assert!(rt; asked_behind(alloc, &conf, input, 1)?.as_slice() == wanted.as_slice());
    assert!(rt; asked_behind(alloc, &conf, input, 100)?.as_slice() == wanted.as_slice());
    Ok(())
}

// ---- two configurations

// The client's next bytes, once the configuration has changed from an earlier one.
fn send_later(
    alloc: Global,
    machine: &mut Machine<Echo>,
    earlier: &Current,
    conf: &Current,
    piece: &[u8],
    out: &mut Bytes,
) -> Result<(), AllocError>
    requires after { IsAfter machine.old.met (numbered earlier.now) }
    requires rises { earlier.now.number < conf.now.number }
    requires ended { machine.old.ended ≡ false }
    requires given_up { machine.old.given_up ≡ false }
    ensures after { IsAfter machine.new.met (numbered conf.now) }
    ensures ended { machine.new.ended ≡ false }
    ensures given_up { machine.new.given_up ≡ false }
{
    send(alloc, machine, conf, piece, out)
}

// The course of a connection whose configuration changes between two pieces.
fn run_between(
    alloc: Global,
    old: &Current,
    new: &Current,
    first: &[u8],
    second: &[u8],
) -> Result<Course, AllocError>
    requires { old.now.number < new.now.number }
{
    let mut machine = open(alloc)?;
    let mut out = Bytes::of(Vec::new(alloc));
    send(alloc, &mut machine, old, first, &mut out)?;
    send_later(alloc, &mut machine, old, new, second, &mut out)?;
    end(alloc, &mut machine, new, Ending::Input)?;
    serve_all(alloc, &mut machine, new, &mut out)?;
    closed(alloc, machine, out)
}

fn run_changing(alloc: Global, first: &[u8], second: &[u8]) -> Result<Course, Fail> {
    let old = current(alloc, 4, moving().as_bytes())?;
    let new = current(alloc, 5, with_fields().as_bytes())?;
    Ok(run_between(alloc, &old, &new, first, second)?)
}

fn by_old() -> &'static str {
    "HTTP/1.1 301 Moved Permanently\r\nLocation: https://a/\r\nContent-Length: 0\r\n\r\n"
}

fn by_new() -> &'static str {
    "HTTP/1.1 200 OK\r\nX-App: one\r\nContent-Length: 0\r\n\r\n"
}

#[test]
fn a_request_has_the_configuration_of_its_head(rt: HostRuntime) -> Result<(), Fail> {
    let alloc = rt.alloc();
    let head = run_changing(alloc, b"GET / HTTP/1.1\r\nHo", b"st: a\r\n\r\n")?;
    assert!(rt; head.out.as_slice() == by_new().as_bytes());
    assert!(rt; head.receipts.as_slice() == b"5 1 App\n".as_slice());
    let content = run_changing(
        alloc,
        b"POST / HTTP/1.1\r\nHost: a\r\nContent-Length: 3\r\n\r\na",
        b"bc",
    )?;
    assert!(rt; content.out.as_slice() == by_old().as_bytes());
    assert!(rt; content.receipts.as_slice() == b"4 0 Own\n".as_slice());
    let request = b"GET / HTTP/1.1\r\nHost: a\r\n\r\n";
    let both = run_changing(alloc, request, request)?;
    assert!(rt; both.out.as_slice().starts_with(by_old().as_bytes()));
    assert!(rt; both.out.as_slice().ends_with(by_new().as_bytes()));
    assert!(rt; both.receipts.as_slice() == b"4 0 Own\n5 1 App\n".as_slice());
    Ok(())
}
