ghost use Rattle.std.specs.Prelude.{All, IfOk};
ghost use Rattle.unit_types.specs.Limits.{IsShortName};

use crate::control;
use conf_book::Book;
use std::alloc::{AllocError, Global};
use std::process::Abort;
use std::test::Fail;
use unit_types::Bytes;

/// A method with its target, the content, and the status and the content of the reply.
type Row<'a> = (&'a str, &'a str, &'a str, &'a str);

const OK: &str = "200 OK";

const NOT_FOUND: &str = "404 Not Found";

const BAD_METHOD: &str = "405 Method Not Allowed";

const BAD: &str = "400 Bad Request";

const FULL: &str = "503 Service Unavailable";

fn hello(alloc: Global) -> Result<[Bytes; 1], AllocError>
    ensures { IfOk result (λ names. All IsShortName names) }
{
    Ok([Bytes::copy_of(alloc, b"hello")?])
}

fn first_book(alloc: Global) -> Result<Book, AllocError> {
    Book::open(alloc, &hello(alloc)?)
}

fn request_text(alloc: Global, line: &str, content: &str) -> Result<String, AllocError> {
    let len = content.len();
    format!(in alloc; "{line} HTTP/1.1\r\nHost: u\r\nContent-Length: {len}\r\n\r\n{content}")
}

fn reply_text(alloc: Global, status: &str, content: &str) -> Result<String, AllocError> {
    let len = content.len();
    format!(in alloc;
        "HTTP/1.1 {status}\r\nContent-Type: application/json\r\nContent-Length: {len}\r\nConnection: close\r\n\r\n{content}"
    )
}

/// Each request in turn has the reply of its row.
fn replies(rt: &(impl Abort + AllocGlobal), book: &mut Book, rows: &[Row<'_>]) -> Result<(), Fail> {
    for (line, content, status, answer) in rows {
        let request = request_text(rt.alloc(), line, content)?;
        let wanted = reply_text(rt.alloc(), status, answer)?;
        let reply = control(rt.alloc(), book, request.as_str().as_bytes())?;
        assert!(rt;
            reply.as_slice() == wanted.as_str().as_bytes(),
            "another reply: {line}"
        );
    }
    Ok(())
}

/// The bytes have exactly this reply.
fn is_answered(
    rt: &(impl Abort + AllocGlobal),
    book: &mut Book,
    request: &[u8],
    wanted: &[u8],
) -> Result<(), AllocError> {
    let reply = control(rt.alloc(), book, request)?;
    assert!(rt; reply.as_slice() == wanted);
    Ok(())
}

fn small() -> &'static str {
    r#"{"applications":{"h":{"executable":"hello","type":"external"}},"listeners":{"*:8080":{"pass":"routes"}},"routes":[{"action":{"pass":"applications/h"}}]}"#
}

fn done() -> &'static str {
    r#"{"success":"Reconfiguration done."}"#
}

fn absent() -> &'static str {
    r#"{"error":"Value doesn't exist."}"#
}

fn no_method() -> &'static str {
    r#"{"error":"Invalid method."}"#
}

#[test]
fn changes_what_it_is_asked(rt: HostRuntime) -> Result<(), Fail> {
    let step = r#"{"action":{"return":204}}"#;
    let unknown = r#"{"error":"Invalid configuration.","path":"/foo","rule":2}"#;
    let target = r#"{"error":"Invalid configuration.","path":"/routes/0/action/pass","rule":7}"#;
    let mut book = first_book(rt.alloc())?;
    assert!(rt; small().len() == 152);
    replies(
        &rt,
        &mut book,
        &[
            ("GET /config", "", OK, "{}"),
            ("PUT /config", small(), OK, done()),
            ("PUT /config/foo", "1", BAD, unknown),
            (
                "PUT /config/routes/0/action/pass",
                r#""applications/z""#,
                BAD,
                target,
            ),
            ("GET /config", "", OK, small()),
            ("POST /config/routes", step, OK, done()),
            ("GET /config/routes/1", "", OK, step),
            ("GET /config/routes/2", "", NOT_FOUND, absent()),
            ("DELETE /config/routes/0", "", OK, done()),
            ("GET http://u/config/route%73/0/?x=/y", "", OK, step),
            ("DELETE /config/", "", OK, done()),
            ("GET /config/", "", OK, "{}"),
        ],
    )?;
    assert!(rt; book.documents().len() == 5);
    Ok(())
}

#[test]
fn refuses_in_its_order(rt: HostRuntime) -> Result<(), Fail> {
    let no_document = r#"{"error":"Invalid JSON."}"#;
    let mut book = first_book(rt.alloc())?;
    replies(
        &rt,
        &mut book,
        &[
            ("GET /status", "", NOT_FOUND, absent()),
            ("PATCH /status", "{", NOT_FOUND, absent()),
            ("GET /%63onfig", "", NOT_FOUND, absent()),
            ("GET //config", "", NOT_FOUND, absent()),
            ("GET /config//", "", NOT_FOUND, absent()),
            ("PATCH /config", "{", BAD_METHOD, no_method()),
            ("PUT /config/a/%ff", "{", BAD, no_document),
            ("POST /config/a", "{", BAD, no_document),
            ("PUT /config/%ff", "{}", NOT_FOUND, absent()),
            ("PUT /config/a/b", "{}", NOT_FOUND, absent()),
            ("POST /config/a", "{}", NOT_FOUND, absent()),
            ("DELETE /config/a", "", NOT_FOUND, absent()),
            ("POST /config", "{}", BAD_METHOD, no_method()),
        ],
    )?;
    let no_host = reply_text(rt.alloc(), BAD, r#"{"error":"Invalid request."}"#)?;
    is_answered(
        &rt,
        &mut book,
        b"GET /config HTTP/1.1\r\n\r\n",
        no_host.as_str().as_bytes(),
    )?;
    let to_head =
        b"HTTP/1.1 405 Method Not Allowed\r\nContent-Type: application/json\r\nContent-Length: 27\r\nConnection: close\r\n\r\n";
    is_answered(
        &rt,
        &mut book,
        b"HEAD /config HTTP/1.1\r\nHost: u\r\n\r\n",
        to_head,
    )?;
    let cut =
        b"PUT /config HTTP/1.1\r\nHost: u\r\nExpect: 100-continue\r\nContent-Length: 9\r\n\r\n{";
    is_answered(&rt, &mut book, cut, b"HTTP/1.1 100 Continue\r\n\r\n")?;
    assert!(rt; book.documents().len() == 1);
    Ok(())
}

#[test]
fn accepts_a_thousand_changes(rt: HostRuntime) -> Result<(), Fail> {
    let full = r#"{"error":"Too many changes."}"#;
    let mut book = first_book(rt.alloc())?;
    for _ in 0..1000u16 {
        replies(&rt, &mut book, &[("PUT /config", "{}", OK, done())])?;
    }
    replies(
        &rt,
        &mut book,
        &[
            ("PUT /config", "{}", FULL, full),
            ("PUT /config/foo", "1", FULL, full),
            ("DELETE /config/foo", "", NOT_FOUND, absent()),
        ],
    )
}
