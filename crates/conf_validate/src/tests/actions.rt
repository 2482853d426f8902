//! Actions: values that break one rule, and values that break none.
use crate::tests::{Around, Row, accepts, refuses};
use std::alloc::{AllocError, Global};
use std::test::Fail;

const ACTION: Around = Around {
    before: r#"{"applications":{"a":{"executable":"hello","type":"external"}},"routes":[{"action":"#,
    after: "}]}",
    path: "/routes/0/action",
};

const OF_TYPES: &[Row<'static>] = &[
    ("null", "", 1),
    ("[]", "", 1),
    (r#"{"pass":null}"#, "/pass", 1),
    (r#"{"return":"1"}"#, "/return", 1),
    (r#"{"location":1,"return":301}"#, "/location", 1),
    (r#"{"pass":"applications/a","rewrite":1}"#, "/rewrite", 1),
    (
        r#"{"pass":"applications/a","response_headers":[]}"#,
        "/response_headers",
        1,
    ),
    (
        r#"{"response_headers":{"a":1},"return":1}"#,
        "/response_headers/a",
        1,
    ),
];

const OF_NAMES: &[Row<'static>] = &[
    (r#"{"return":1,"share":"a"}"#, "/share", 2),
    (r#"{"match":{},"return":1}"#, "/match", 2),
    (r#"{"access_log":{},"return":1}"#, "/access_log", 2),
    (
        r#"{"response_headers":{"a b":null},"return":1}"#,
        "/response_headers/a b",
        2,
    ),
    (
        r#"{"response_headers":{"":null},"return":1}"#,
        "/response_headers/",
        2,
    ),
    (
        r#"{"response_headers":{"connection":null},"return":1}"#,
        "/response_headers/connection",
        2,
    ),
    (
        r#"{"response_headers":{"Content-LENGTH":null},"return":1}"#,
        "/response_headers/Content-LENGTH",
        2,
    ),
    (
        r#"{"response_headers":{"Transfer-Encoding":null},"return":1}"#,
        "/response_headers/Transfer-Encoding",
        2,
    ),
    (
        r#"{"response_headers":{"X-A":"1","Y":"2","x-a":"3"},"return":1}"#,
        "/response_headers/x-a",
        2,
    ),
];

const OF_CHOICES: &[Row<'static>] = &[
    ("{}", "", 6),
    (r#"{"pass":"applications/a","return":1}"#, "", 6),
    (r#"{"location":"/","pass":"applications/a"}"#, "", 6),
    (r#"{"return":1,"rewrite":"/"}"#, "", 6),
    (r#"{"location":"/"}"#, "", 6),
    (r#"{"rewrite":"/"}"#, "", 6),
    (r#"{"response_headers":{}}"#, "", 6),
];

const OF_NUMBERS: &[Row<'static>] = &[
    (r#"{"return":-1}"#, "/return", 4),
    (r#"{"return":1000}"#, "/return", 4),
    (r#"{"return":18446744073709551615}"#, "/return", 4),
];

const OF_PASSES: &[Row<'static>] = &[
    (r#"{"pass":"applications//x$none"}"#, "/pass", 5),
    (r#"{"pass":"applications/$"}"#, "/pass", 5),
    (r#"{"pass":"applications/a$$uri"}"#, "/pass", 5),
    (r#"{"pass":"applications/${uri"}"#, "/pass", 5),
    (r#"{"pass":"applications/${}"}"#, "/pass", 5),
    (r#"{"pass":"applications/$arg_"}"#, "/pass", 5),
    (r#"{"pass":"applications/$status"}"#, "/pass", 5),
    (
        r#"{"pass":"applications/$uri$uri$uri$uri$uri"}"#,
        "/pass",
        5,
    ),
    (r#"{"pass":""}"#, "/pass", 7),
    (r#"{"pass":"applications"}"#, "/pass", 7),
    (r#"{"pass":"applications/"}"#, "/pass", 7),
    (r#"{"pass":"applications/z"}"#, "/pass", 7),
    (r#"{"pass":"routes/a"}"#, "/pass", 7),
    (r#"{"pass":"routes/$uri"}"#, "/pass", 7),
    (r#"{"pass":"routes$uri"}"#, "/pass", 7),
    (r#"{"pass":"$host"}"#, "/pass", 7),
    (r#"{"pass":"${host}"}"#, "/pass", 7),
    (r#"{"pass":"/applications/a"}"#, "/pass", 7),
    (r#"{"pass":"application/$uri"}"#, "/pass", 7),
];

const OF_LOCATIONS: &[Row<'static>] = &[
    (r#"{"location":"a\nb","return":301}"#, "/location", 5),
    (r#"{"location":"\r","return":301}"#, "/location", 5),
    (r#"{"location":"b\u0000","return":301}"#, "/location", 5),
    (r#"{"location":"/x$none","return":301}"#, "/location", 5),
    (r#"{"location":"$","return":301}"#, "/location", 5),
    (r#"{"location":"a$$uri","return":301}"#, "/location", 5),
    (r#"{"location":"${uri","return":301}"#, "/location", 5),
    (r#"{"location":"${}","return":301}"#, "/location", 5),
    (r#"{"location":"$arg_","return":301}"#, "/location", 5),
    (r#"{"location":"$status","return":301}"#, "/location", 5),
    (
        r#"{"location":"$uri$uri$uri$uri$uri","return":301}"#,
        "/location",
        5,
    ),
];

const OF_REWRITES: &[Row<'static>] = &[
    (r#"{"pass":"applications/a","rewrite":""}"#, "/rewrite", 5),
    (r#"{"pass":"applications/a","rewrite":"a"}"#, "/rewrite", 5),
    (
        r#"{"pass":"applications/a","rewrite":"$uri"}"#,
        "/rewrite",
        5,
    ),
    (
        r#"{"pass":"applications/a","rewrite":"/a\nb"}"#,
        "/rewrite",
        5,
    ),
    (
        r#"{"pass":"applications/a","rewrite":"/\r"}"#,
        "/rewrite",
        5,
    ),
    (
        r#"{"pass":"applications/a","rewrite":"/b\u0000"}"#,
        "/rewrite",
        5,
    ),
    (
        r#"{"pass":"applications/a","rewrite":"//x$none"}"#,
        "/rewrite",
        5,
    ),
    (r#"{"pass":"applications/a","rewrite":"/$"}"#, "/rewrite", 5),
    (
        r#"{"pass":"applications/a","rewrite":"/a$$uri"}"#,
        "/rewrite",
        5,
    ),
    (
        r#"{"pass":"applications/a","rewrite":"/${uri"}"#,
        "/rewrite",
        5,
    ),
    (
        r#"{"pass":"applications/a","rewrite":"/${}"}"#,
        "/rewrite",
        5,
    ),
    (
        r#"{"pass":"applications/a","rewrite":"/$arg_"}"#,
        "/rewrite",
        5,
    ),
    (
        r#"{"pass":"applications/a","rewrite":"/$status"}"#,
        "/rewrite",
        5,
    ),
    (
        r#"{"pass":"applications/a","rewrite":"/$uri$uri$uri$uri$uri"}"#,
        "/rewrite",
        5,
    ),
];

const OF_HEADERS: &[Row<'static>] = &[
    (
        r#"{"response_headers":{"a":"a\nb"},"return":1}"#,
        "/response_headers/a",
        5,
    ),
    (
        r#"{"response_headers":{"a":"\r"},"return":1}"#,
        "/response_headers/a",
        5,
    ),
    (
        r#"{"response_headers":{"a":"b\u0000"},"return":1}"#,
        "/response_headers/a",
        5,
    ),
    (
        r#"{"response_headers":{"a":"/x$none"},"return":1}"#,
        "/response_headers/a",
        5,
    ),
    (
        r#"{"response_headers":{"a":"$"},"return":1}"#,
        "/response_headers/a",
        5,
    ),
    (
        r#"{"response_headers":{"a":"a$$uri"},"return":1}"#,
        "/response_headers/a",
        5,
    ),
    (
        r#"{"response_headers":{"a":"${uri"},"return":1}"#,
        "/response_headers/a",
        5,
    ),
    (
        r#"{"response_headers":{"a":"${}"},"return":1}"#,
        "/response_headers/a",
        5,
    ),
    (
        r#"{"response_headers":{"a":"$arg_"},"return":1}"#,
        "/response_headers/a",
        5,
    ),
    (
        r#"{"response_headers":{"a":"$status"},"return":1}"#,
        "/response_headers/a",
        5,
    ),
    (
        r#"{"response_headers":{"a":"$uri$uri$uri$uri$uri"},"return":1}"#,
        "/response_headers/a",
        5,
    ),
];

const VALUES: &[&str] = &[
    r#"{"return":0}"#,
    r#"{"return":999}"#,
    r#"{"location":"","return":301}"#,
    r#"{"location":"https://$host${request_uri}$dollar$arg_a","return":301}"#,
    r#"{"pass":"applications/a"}"#,
    r#"{"pass":"routes"}"#,
    r#"{"pass":"applications/$uri$method$remote_addr$cookie_a"}"#,
    r#"{"pass":"applications/a","rewrite":"/"}"#,
    r#"{"pass":"applications/a","response_headers":{"X-A":"$uri","x-b":null},"rewrite":"/v1$uri"}"#,
    r#"{"response_headers":{},"return":1}"#,
];

/// A value whose `rewrite` has so many bytes behind its `/`.
fn long_rewrite(alloc: Global, behind: usize) -> Result<String, AllocError> {
    let text = "a".repeat(alloc, behind)?;
    format!(in alloc; r#"{{"pass":"applications/a","rewrite":"/{text}"}}"#)
}

#[test]
fn limits_rewrites(rt: HostRuntime) -> Result<(), Fail> {
    let longest = long_rewrite(rt.alloc(), 1023)?;
    accepts(&rt, &ACTION, &[longest.as_str()])?;
    let longer = long_rewrite(rt.alloc(), 1024)?;
    refuses(&rt, &ACTION, &[(longer.as_str(), "/rewrite", 5)])
}

#[test]
fn judges_actions(rt: HostRuntime) -> Result<(), Fail> {
    for rows in [
        OF_TYPES,
        OF_NAMES,
        OF_CHOICES,
        OF_NUMBERS,
        OF_PASSES,
        OF_LOCATIONS,
        OF_REWRITES,
        OF_HEADERS,
    ] {
        refuses(&rt, &ACTION, rows)?;
    }
    accepts(&rt, &ACTION, VALUES)
}
