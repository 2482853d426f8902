//! Applications, settings and access logs: values that break one rule, and values that break none.
use crate::tests::{Around, Row, accepts, refuses};
use std::alloc::{AllocError, Global};
use std::test::Fail;

const APPLICATIONS: Around = Around {
    before: r#"{"applications":"#,
    after: "}",
    path: "/applications",
};

const OF_APPLICATIONS: &[Row<'static>] = &[
    ("null", "", 1),
    ("[]", "", 1),
    (r#"{"a":1}"#, "/a", 1),
    (r#"{"":{"executable":"hello","type":"external"}}"#, "/", 2),
    (
        r#"{"a/b":{"executable":"hello","type":"external"}}"#,
        "/a~1b",
        2,
    ),
];

const APPLICATIONS_VALUES: &[&str] = &[
    "{}",
    r#"{"a":{"executable":"hello","type":"external"},"~":{"executable":"hello","type":"external"}}"#,
];

const APPLICATION: Around = Around {
    before: r#"{"applications":{"a":"#,
    after: "}}",
    path: "/applications/a",
};

const OF_APPLICATION: &[Row<'static>] = &[
    (r#""a""#, "", 1),
    (r#"{"executable":1,"type":"external"}"#, "/executable", 1),
    (r#"{"executable":"hello","type":1}"#, "/type", 1),
    (
        r#"{"executable":"hello","limits":1,"type":"external"}"#,
        "/limits",
        1,
    ),
    (
        r#"{"executable":"hello","limits":{"timeout":"1"},"type":"external"}"#,
        "/limits/timeout",
        1,
    ),
    (
        r#"{"executable":"hello","type":"external","user":"a"}"#,
        "/user",
        2,
    ),
    (
        r#"{"executable":"hello","limits":{"requests":1},"type":"external"}"#,
        "/limits/requests",
        2,
    ),
    (r#"{"type":"external"}"#, "", 3),
    (r#"{"executable":"hello"}"#, "", 3),
    (
        r#"{"executable":"hello","limits":{"timeout":-1},"type":"external"}"#,
        "/limits/timeout",
        4,
    ),
    (
        r#"{"executable":"hello","limits":{"timeout":0},"type":"external"}"#,
        "/limits/timeout",
        4,
    ),
    (
        r#"{"executable":"hello","limits":{"timeout":86401},"type":"external"}"#,
        "/limits/timeout",
        4,
    ),
    (r#"{"executable":"hello","type":""}"#, "/type", 5),
    (r#"{"executable":"hello","type":"php"}"#, "/type", 5),
    (r#"{"executable":"hello","type":"External"}"#, "/type", 5),
    (r#"{"executable":"","type":"external"}"#, "/executable", 8),
    (
        r#"{"executable":"none","type":"external"}"#,
        "/executable",
        8,
    ),
    (
        r#"{"executable":"Hello","type":"external"}"#,
        "/executable",
        8,
    ),
];

const APPLICATION_VALUES: &[&str] = &[
    r#"{"executable":"hello","type":"external"}"#,
    r#"{"executable":"count","limits":{},"type":"external"}"#,
    r#"{"executable":"count","limits":{"timeout":1},"type":"external"}"#,
    r#"{"executable":"count","limits":{"timeout":86400},"type":"external"}"#,
];

const SETTINGS: Around = Around {
    before: r#"{"settings":"#,
    after: "}",
    path: "/settings",
};

const OF_SETTINGS: &[Row<'static>] = &[
    ("1", "", 1),
    (r#"{"http":1}"#, "/http", 1),
    (
        r#"{"http":{"max_body_size":"1"}}"#,
        "/http/max_body_size",
        1,
    ),
    (r#"{"tls":1}"#, "/tls", 2),
    (r#"{"http":{"a":1}}"#, "/http/a", 2),
    (r#"{"http":{"max_body_size":-1}}"#, "/http/max_body_size", 4),
    (
        r#"{"http":{"max_body_size":10000001}}"#,
        "/http/max_body_size",
        4,
    ),
];

const SETTINGS_VALUES: &[&str] = &[
    "{}",
    r#"{"http":{}}"#,
    r#"{"http":{"max_body_size":0}}"#,
    r#"{"http":{"max_body_size":10000000}}"#,
];

const LOG: Around = Around {
    before: r#"{"access_log":"#,
    after: "}",
    path: "/access_log",
};

const OF_LOG: &[Row<'static>] = &[
    (r#""a""#, "", 1),
    (r#"{"format":1}"#, "/format", 1),
    (r#"{"path":"a"}"#, "/path", 2),
    (r#"{"format":"a\tb"}"#, "/format", 5),
    (r#"{"format":"\n"}"#, "/format", 5),
    (r#"{"format":"\u0000"}"#, "/format", 5),
    (r#"{"format":"$statu"}"#, "/format", 5),
    (r#"{"format":"$"}"#, "/format", 5),
    (r#"{"format":"${status"}"#, "/format", 5),
];

const LOG_VALUES: &[&str] = &[
    "{}",
    r#"{"format":""}"#,
    r#"{"format":"$remote_addr $status $body_bytes_sent ${request_line}"}"#,
];

/// A value whose format is a text so many times.
fn long_format(alloc: Global, text: &str, count: usize) -> Result<String, AllocError> {
    let format = text.repeat(alloc, count)?;
    format!(in alloc; r#"{{"format":"{format}"}}"#)
}

#[test]
fn limits_formats(rt: HostRuntime) -> Result<(), Fail> {
    let longest = long_format(rt.alloc(), "a", 1024)?;
    let most = long_format(rt.alloc(), "$uri", 32)?;
    accepts(&rt, &LOG, &[longest.as_str(), most.as_str()])?;
    let longer = long_format(rt.alloc(), "a", 1025)?;
    let more = long_format(rt.alloc(), "$uri", 33)?;
    refuses(
        &rt,
        &LOG,
        &[
            (longer.as_str(), "/format", 5),
            (more.as_str(), "/format", 5),
        ],
    )
}

#[test]
fn judges_applications(rt: HostRuntime) -> Result<(), Fail> {
    refuses(&rt, &APPLICATIONS, OF_APPLICATIONS)?;
    accepts(&rt, &APPLICATIONS, APPLICATIONS_VALUES)
}

#[test]
fn judges_an_application(rt: HostRuntime) -> Result<(), Fail> {
    refuses(&rt, &APPLICATION, OF_APPLICATION)?;
    accepts(&rt, &APPLICATION, APPLICATION_VALUES)
}

#[test]
fn judges_settings(rt: HostRuntime) -> Result<(), Fail> {
    refuses(&rt, &SETTINGS, OF_SETTINGS)?;
    accepts(&rt, &SETTINGS, SETTINGS_VALUES)
}

#[test]
fn judges_access_logs(rt: HostRuntime) -> Result<(), Fail> {
    refuses(&rt, &LOG, OF_LOG)?;
    accepts(&rt, &LOG, LOG_VALUES)
}
