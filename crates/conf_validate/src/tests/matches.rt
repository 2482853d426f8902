//! What a step asks of requests: values that break one rule, and values that break none.
use crate::tests::{Around, Row, accepts, refuses};
use std::test::Fail;

const ASKED: Around = Around {
    before: r#"{"routes":[{"action":{"return":1},"match":"#,
    after: "}]}",
    path: "/routes/0/match",
};

const OF_TYPES: &[Row<'static>] = &[
    ("null", "", 1),
    ("[]", "", 1),
    (r#"{"uri":{}}"#, "/uri", 1),
    (r#"{"host":{}}"#, "/host", 1),
    (r#"{"method":{}}"#, "/method", 1),
    (r#"{"scheme":{}}"#, "/scheme", 1),
    (r#"{"query":{}}"#, "/query", 1),
    (r#"{"uri":["a",1]}"#, "/uri/1", 1),
    (r#"{"host":["a",1]}"#, "/host/1", 1),
    (r#"{"method":["a",1]}"#, "/method/1", 1),
    (r#"{"scheme":["a",1]}"#, "/scheme/1", 1),
    (r#"{"query":["a",1]}"#, "/query/1", 1),
    (r#"{"source":1}"#, "/source", 1),
    (r#"{"destination":1}"#, "/destination", 1),
    (r#"{"source":[["*"]]}"#, "/source/0", 1),
    (r#"{"destination":[["*"]]}"#, "/destination/0", 1),
    (r#"{"arguments":"a"}"#, "/arguments", 1),
    (r#"{"cookies":"a"}"#, "/cookies", 1),
    (r#"{"headers":"a"}"#, "/headers", 1),
    (r#"{"arguments":["a"]}"#, "/arguments/0", 1),
    (r#"{"cookies":["a"]}"#, "/cookies/0", 1),
    (r#"{"headers":["a"]}"#, "/headers/0", 1),
    (r#"{"arguments":{"a":{}}}"#, "/arguments/a", 1),
    (r#"{"cookies":{"a":{}}}"#, "/cookies/a", 1),
    (r#"{"headers":{"a":{}}}"#, "/headers/a", 1),
    (
        r#"{"arguments":[{},{"a":["b",null]}]}"#,
        "/arguments/1/a/1",
        1,
    ),
    (r#"{"cookies":[{},{"a":["b",null]}]}"#, "/cookies/1/a/1", 1),
    (r#"{"headers":[{},{"a":["b",null]}]}"#, "/headers/1/a/1", 1),
];

const OF_NAMES: &[Row<'static>] = &[
    (r#"{"path":"a"}"#, "/path", 2),
    (r#"{"location":"/"}"#, "/location", 2),
    (r#"{"":"a"}"#, "/", 2),
];

const OF_FORMS: &[Row<'static>] = &[
    (r#"{"uri":"~a"}"#, "/uri", 5),
    (r#"{"host":"~a"}"#, "/host", 5),
    (r#"{"method":"~a"}"#, "/method", 5),
    (r#"{"scheme":"~a"}"#, "/scheme", 5),
    (r#"{"query":"~a"}"#, "/query", 5),
    (r#"{"uri":["a","!~b"]}"#, "/uri/1", 5),
    (r#"{"host":["a","!~b"]}"#, "/host/1", 5),
    (r#"{"method":["a","!~b"]}"#, "/method/1", 5),
    (r#"{"scheme":["a","!~b"]}"#, "/scheme/1", 5),
    (r#"{"query":["a","!~b"]}"#, "/query/1", 5),
    (r#"{"source":"a"}"#, "/source", 5),
    (r#"{"destination":"a"}"#, "/destination", 5),
    (r#"{"source":["*:1","*:0"]}"#, "/source/1", 5),
    (r#"{"destination":["*:1","*:0"]}"#, "/destination/1", 5),
    (r#"{"arguments":{"a":"~"}}"#, "/arguments/a", 5),
    (r#"{"cookies":{"a":"~"}}"#, "/cookies/a", 5),
    (r#"{"headers":{"a":"~"}}"#, "/headers/a", 5),
    (r#"{"arguments":[{"a":["b","!~"]}]}"#, "/arguments/0/a/1", 5),
    (r#"{"cookies":[{"a":["b","!~"]}]}"#, "/cookies/0/a/1", 5),
    (r#"{"headers":[{"a":["b","!~"]}]}"#, "/headers/0/a/1", 5),
];

const VALUES: &[&str] = &[
    "{}",
    r#"{"uri":"/a*","host":["a","!b"],"method":[],"scheme":"http","query":""}"#,
    r#"{"source":"*","destination":["*:1-2","!1.2.3.4/8","1.2.3.4-5.6.7.8"]}"#,
    r#"{"arguments":{"a":"b","access_log":"$","location":"$none"},"cookies":[],"headers":[{"a":["!b"]},{}]}"#,
];

#[test]
fn judges_matches(rt: HostRuntime) -> Result<(), Fail> {
    for rows in [OF_TYPES, OF_NAMES, OF_FORMS] {
        refuses(&rt, &ASKED, rows)?;
    }
    accepts(&rt, &ASKED, VALUES)
}
