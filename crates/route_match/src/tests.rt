ghost use Rattle.std.specs.Prelude.{◌≤◌, All, IfOk, length};
ghost use Rattle.conf_tree.specs.Document.{IsDocument};
ghost use Rattle.conf_tree.specs.View.{data_of};

use crate::{Target, last_step, location_of, outcome, request_matches, route};
use conf_tree::{Tree, read_tree};
use conf_validate::{Conf, validate};
use std::alloc::{AllocError, Global};
use std::process::Abort;
use std::test::Fail;
use unit_types::{Addr, Bytes, Field, Fields, Request};

fn document(alloc: Global, text: &[u8]) -> Result<Tree, Fail>
    ensures { IfOk result (λ tree. IsDocument (data_of tree)) }
{
    match read_tree(alloc, text)? {
        Some(tree) => Ok(tree),
        None => Err("no document")?,
    }
}

fn handlers(alloc: Global) -> Result<[Bytes; 2], AllocError>
    ensures { IfOk result (λ names. All (λ name. length name ≤ 255) names) }
{
    Ok([
        Bytes::copy_of(alloc, b"count")?,
        Bytes::copy_of(alloc, b"hello")?,
    ])
}

fn configuration(alloc: Global, text: &[u8]) -> Result<Conf, Fail> {
    let tree = document(alloc, text)?;
    match validate(alloc, &tree, &handlers(alloc)?) {
        Ok(conf) => Ok(conf),
        Err(_) => Err("refused")?,
    }
}

/// What a test says of a request; the rest is empty.
#[derive(Clone, Copy, Drop)]
struct Parts {
    method: &'static [u8],
    target: &'static [u8],
    path: &'static [u8],
    query: &'static [u8],
    host: &'static [u8],
    fields: &'static [(&'static [u8], &'static [u8])],
}

const ASKED: Parts = Parts {
    method: b"GET",
    target: b"/",
    path: b"/",
    query: b"",
    host: b"a",
    fields: &[],
};

fn fields_of(alloc: Global, list: &[(&[u8], &[u8])]) -> Result<Fields, AllocError> {
    let mut fields = Vec::new(alloc);
    for (name, value) in list {
        fields.push(Field {
            name: Bytes::copy_of(alloc, name)?,
            value: Bytes::copy_of(alloc, value)?,
        })?;
    }
    Ok(Fields::of(fields))
}

fn request_of(alloc: Global, asked: &Parts) -> Result<Request, AllocError> {
    Ok(Request {
        method: Bytes::copy_of(alloc, asked.method)?,
        target: Bytes::copy_of(alloc, asked.target)?,
        path: Bytes::copy_of(alloc, asked.path)?,
        query: Bytes::copy_of(alloc, asked.query)?,
        host: Bytes::copy_of(alloc, asked.host)?,
        minor: 1,
        fields: fields_of(alloc, asked.fields)?,
        from: Addr {
            ip: 0x7F00_0001,
            port: 40000,
        },
        to: Addr {
            ip: 0x0A01_0203,
            port: 8080,
        },
        body: Bytes::copy_of(alloc, b"")?,
    })
}

/// `GET /a/b?x=1&y=2&x=3` with some fields, from 127.0.0.1 to 10.1.2.3.
const BUSY: Parts = Parts {
    method: b"GET",
    target: b"/a/b?x=1&y=2&x=3",
    path: b"/a/b",
    query: b"x=1&y=2&x=3",
    host: b"www.a.com",
    fields: BUSY_FIELDS,
};

const BUSY_FIELDS: &[(&[u8], &[u8])] = &[
    (b"accept", b"Text/HTML"),
    (b"x-tag", b"one"),
    (b"x-tag", b"Two"),
    (b"cookie", b"k=v; l=W"),
];

// ---- conditions

/// Conditions, and whether the busy request meets them.
const TEXTS: &[(&str, bool)] = &[
    (r#"{}"#, true),
    (r#"{"uri":"/a/*"}"#, true),
    (r#"{"uri":"/A/*"}"#, false),
    (r#"{"uri":["/b","!/c"]}"#, false),
    (r#"{"uri":["!/c","!/d"]}"#, true),
    (r#"{"uri":[]}"#, true),
    (r#"{"host":"*.A.com"}"#, true),
    (r#"{"host":"a.com"}"#, false),
    (r#"{"method":["POST","get"]}"#, true),
    (r#"{"method":"POST"}"#, false),
    (r#"{"scheme":"HTTP"}"#, true),
    (r#"{"scheme":"https"}"#, false),
    (r#"{"query":"x=1&*"}"#, true),
    (r#"{"query":"X=1&*"}"#, false),
    (r#"{"uri":"/a/b","query":"z"}"#, false),
];

const ADDRESSES: &[(&str, bool)] = &[
    (r#"{"source":"127.0.0.0/8"}"#, true),
    (r#"{"source":"!127.0.0.0/8"}"#, false),
    (r#"{"source":"*:40000"}"#, true),
    (r#"{"source":"10.1.2.3"}"#, false),
    (r#"{"destination":["10.1.2.3:8080"]}"#, true),
    (r#"{"destination":"*:8081-9000"}"#, false),
];

const NAMES: &[(&str, bool)] = &[
    (r#"{"arguments":{"x":"3"}}"#, true),
    (r#"{"arguments":{"x":"2"}}"#, false),
    (r#"{"arguments":{"x":"1","y":"2"}}"#, true),
    (r#"{"arguments":{"x":"1","z":"*"}}"#, false),
    (r#"{"arguments":{"z":"!a"}}"#, false),
    (r#"{"arguments":{}}"#, true),
    (r#"{"arguments":[]}"#, false),
    (r#"{"arguments":[{"z":"1"},{"y":"2"}]}"#, true),
    (r#"{"arguments":[{"z":"1"},{"y":"3"}]}"#, false),
    (r#"{"cookies":{"l":"W"}}"#, true),
    (r#"{"cookies":{"l":"w"}}"#, false),
    (r#"{"cookies":{"L":"W"}}"#, false),
    (r#"{"headers":{"X-Tag":"two"}}"#, true),
    (r#"{"headers":{"x-tag":["!one","!two"]}}"#, false),
    (r#"{"headers":{"Accept":"text/*"}}"#, true),
    (r#"{"headers":{"Accept":"text"}}"#, false),
    (r#"{"headers":[]}"#, false),
];

/// The conditions in a document of one step.
fn with_conditions(alloc: Global, conditions: &str) -> Result<Conf, Fail> {
    let mut text = Vec::new(alloc);
    text.extend_from_slice(br#"{"routes":[{"action":{"return":200},"match":"#)?;
    text.extend_from_slice(conditions.as_bytes())?;
    text.extend_from_slice(b"}]}")?;
    configuration(alloc, text.as_slice())
}

fn meets(rt: &(impl Abort + AllocGlobal), rows: &[(&'static str, bool)]) -> Result<(), Fail> {
    let request = request_of(rt.alloc(), &BUSY)?;
    for (conditions, wanted) in rows {
        let conf = with_conditions(rt.alloc(), conditions)?;
        let step = conf.steps().first().expect(rt, "a step");
        assert!(rt;
            request_matches(&step.conditions, &request) == *wanted,
            "{conditions}"
        );
    }
    Ok(())
}

#[test]
fn texts_are_compared(rt: HostRuntime) -> Result<(), Fail> {
    meets(&rt, TEXTS)
}

#[test]
fn addresses_are_compared(rt: HostRuntime) -> Result<(), Fail> {
    meets(&rt, ADDRESSES)
}

#[test]
fn values_of_names_are_compared(rt: HostRuntime) -> Result<(), Fail> {
    meets(&rt, NAMES)
}

// ---- targets

fn app(app: usize) -> Target {
    Target::App { app, timeout: None }
}

/// A listener, a request to it, its target and its last step.
#[derive(Clone, Copy, Drop)]
struct Case {
    listener: &'static str,
    asked: Parts,
    target: Target,
    step: Option<usize>,
}

fn row(listener: &'static str, target: Target, step: Option<usize>) -> Case {
    Case {
        listener,
        asked: ASKED,
        target,
        step,
    }
}

fn goes(rt: &(impl Abort + AllocGlobal), conf: &Conf, row: &Case) -> Result<(), Fail> {
    let request = request_of(rt.alloc(), &row.asked)?;
    let listener = row.listener.as_bytes();
    let both = outcome(conf, listener, &request);
    assert!(rt; both.target == row.target && both.step == row.step);
    assert!(rt;
        route(conf, listener, &request) == row.target,
        "another target"
    );
    assert!(rt;
        last_step(conf, listener, &request) == row.step,
        "another step"
    );
    Ok(())
}

const LOOPING: &str =
    r#"{"listeners":{"*:1":{"pass":"routes/a"},"*:2":{"pass":"routes/c"}},"routes":{"a":[{"action":{"pass":"routes/b"}}],"b":[{"action":{"pass":"routes/a"}}],"c":[]}}"#;

#[test]
fn loops_end_and_empty_routes_have_nothing(rt: HostRuntime) -> Result<(), Fail> {
    let conf = configuration(rt.alloc(), LOOPING.as_bytes())?;
    goes(&rt, &conf, &row("*:1", Target::Status(500), None))?;
    goes(&rt, &conf, &row("*:2", Target::Status(404), None))?;
    goes(&rt, &conf, &row("*:3", Target::Status(404), None))
}

const LISTENING: &str =
    r#"{"listeners":{"*:1":{"pass":"routes/a"},"1.2.3.4:1":{"pass":"routes/b"}},"routes":{"a":[{"action":{"return":201}}],"b":[{"action":{"return":202}}]}}"#;

fn returned(step: usize, status: u16) -> Target {
    Target::Return { step, status }
}

#[test]
fn exact_listeners_come_first(rt: HostRuntime) -> Result<(), Fail> {
    let conf = configuration(rt.alloc(), LISTENING.as_bytes())?;
    goes(&rt, &conf, &row("1.2.3.4:1", returned(1, 202), Some(1)))?;
    goes(&rt, &conf, &row("1.2.3.5:1", returned(0, 201), Some(0)))?;
    goes(&rt, &conf, &row("a:b:1", returned(0, 201), Some(0)))?;
    goes(&rt, &conf, &row(":1", returned(0, 201), Some(0)))?;
    goes(&rt, &conf, &row("x:01", Target::Status(404), None))?;
    goes(&rt, &conf, &row("x:1:", Target::Status(404), None))?;
    goes(&rt, &conf, &row("1", Target::Status(404), None))?;
    goes(&rt, &conf, &row("", Target::Status(404), None))
}

const REALISTIC: &str =
    r#"{"applications":{"api":{"executable":"count","limits":{"timeout":30},"type":"external"},"site":{"executable":"hello","type":"external"}},"listeners":{"*:8080":{"pass":"routes"},"127.0.0.1:8081":{"pass":"applications/site"}},"routes":[{"action":{"pass":"applications/api"},"match":{"host":["localhost","*.example.com"],"method":["POST","PUT"],"source":"127.0.0.0/8"}},{"action":{"location":"/","return":301},"match":{"uri":["/old","/old/*"]}},{"action":{"pass":"applications/site"}}],"settings":{"http":{"max_body_size":1048576}}}"#;

const ITEMS: Parts = Parts {
    target: b"/items?x=1",
    path: b"/items",
    query: b"x=1",
    host: b"localhost",
    ..ASKED
};

const FORM: Parts = Parts {
    method: b"POST",
    target: b"/form",
    path: b"/form",
    host: b"localhost",
    ..ASKED
};

const OLD: Parts = Parts {
    target: b"/old/x",
    path: b"/old/x",
    host: b"www.example.com",
    ..ASKED
};

#[test]
fn a_realistic_configuration_routes(rt: HostRuntime) -> Result<(), Fail> {
    let conf = configuration(rt.alloc(), REALISTIC.as_bytes())?;
    let late = Target::App {
        app: 0,
        timeout: Some(30),
    };
    goes(
        &rt,
        &conf,
        &Case {
            asked: ITEMS,
            ..row("*:8080", app(1), Some(2))
        },
    )?;
    goes(
        &rt,
        &conf,
        &Case {
            asked: FORM,
            ..row("*:8080", late, Some(0))
        },
    )?;
    goes(
        &rt,
        &conf,
        &Case {
            asked: OLD,
            ..row("127.0.0.1:8080", returned(1, 301), Some(1))
        },
    )?;
    goes(&rt, &conf, &row("127.0.0.1:8081", app(1), None))?;
    let request = request_of(rt.alloc(), &OLD)?;
    assert!(rt; is_location(rt.alloc(), &conf, 1, &request, Some(b"/"))?);
    assert!(rt; is_location(rt.alloc(), &conf, 2, &request, None)?);
    assert!(rt; is_location(rt.alloc(), &conf, 3, &request, None)?);
    Ok(())
}

// ---- variables

fn is_location(
    alloc: Global,
    conf: &Conf,
    step: usize,
    request: &Request,
    wanted: Option<&[u8]>,
) -> Result<bool, AllocError> {
    let location = location_of(alloc, conf, step, request)?;
    match (location, wanted) {
        (Some(location), Some(wanted)) => Ok(location.as_slice() == wanted),
        (None, None) => Ok(true),
        _ => Ok(false),
    }
}

const REDIRECTING: &str =
    r#"{"routes":[{"action":{"location":"https://$host$request_uri","return":301}},{"action":{"location":"/${uri}$dollar","return":302}}]}"#;

#[test]
fn locations_are_expanded_with_escapes(rt: HostRuntime) -> Result<(), Fail> {
    let conf = configuration(rt.alloc(), REDIRECTING.as_bytes())?;
    let request = request_of(rt.alloc(), &ASKED)?;
    assert!(rt; is_location(rt.alloc(), &conf, 0, &request, Some(b"https://a/"))?);
    let spaced = Parts {
        path: b"/a b",
        ..ASKED
    };
    let request = request_of(rt.alloc(), &spaced)?;
    assert!(rt; is_location(rt.alloc(), &conf, 1, &request, Some(b"//a%20b$"))?);
    Ok(())
}

const BY_ARGUMENT: &str =
    r#"{"applications":{"h":{"executable":"hello","type":"external"}},"listeners":{"*:1":{"pass":"routes"},"*:2":{"pass":"applications/$arg_app"}},"routes":[{"action":{"pass":"applications/$arg_app"}}]}"#;

fn with_query(query: &'static [u8]) -> Parts {
    Parts { query, ..ASKED }
}

#[test]
fn passes_are_expanded(rt: HostRuntime) -> Result<(), Fail> {
    let conf = configuration(rt.alloc(), BY_ARGUMENT.as_bytes())?;
    let found = Case {
        asked: with_query(b"app=h"),
        ..row("*:1", app(0), Some(0))
    };
    goes(&rt, &conf, &found)?;
    let found = Case {
        asked: with_query(b"app=h"),
        ..row("*:2", app(0), None)
    };
    goes(&rt, &conf, &found)?;
    let none = Case {
        asked: with_query(b"app=z"),
        ..row("*:1", Target::Status(404), None)
    };
    goes(&rt, &conf, &none)?;
    let unexpanded = Case {
        asked: with_query(b"app=$arg_app"),
        ..row("*:1", Target::Status(404), None)
    };
    goes(&rt, &conf, &unexpanded)
}

// ---- the number of passes

/// So many routes of one step, each of which passes to the next, and the last one to an application.
fn chain(alloc: Global, routes: u8) -> Result<Conf, Fail> {
    let mut text = Vec::new(alloc);
    text.extend_from_slice(CHAIN_HEAD.as_bytes())?;
    for at in 0..routes {
        text.push(if at == 0 { b'{' } else { b',' })?;
        text.extend_from_slice(b"\"")?;
        push_number(&mut text, at)?;
        text.extend_from_slice(br#"":[{"action":{"pass":""#)?;
        if at + 1 < routes {
            text.extend_from_slice(b"routes/")?;
            push_number(&mut text, at + 1)?;
        } else {
            text.extend_from_slice(b"applications/h")?;
        }
        text.extend_from_slice(br#""}}]"#)?;
    }
    text.extend_from_slice(b"}}")?;
    configuration(alloc, text.as_slice())
}

const CHAIN_HEAD: &str =
    r#"{"applications":{"h":{"executable":"hello","type":"external"}},"listeners":{"*:1":{"pass":"routes/000"}},"routes":"#;

fn push_number(text: &mut Vec<u8>, number: u8) -> Result<(), AllocError> {
    text.push(b'0' + number / 100)?;
    text.push(b'0' + number / 10 % 10)?;
    text.push(b'0' + number % 10)?;
    Ok(())
}

#[test]
fn two_hundred_and_fifty_five_passes_are_allowed(rt: HostRuntime) -> Result<(), Fail> {
    let conf = chain(rt.alloc(), 254)?;
    goes(&rt, &conf, &row("*:1", app(0), Some(253)))?;
    let conf = chain(rt.alloc(), 255)?;
    goes(&rt, &conf, &row("*:1", Target::Status(500), None))
}
