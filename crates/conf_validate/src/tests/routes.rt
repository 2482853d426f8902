//! Routes and their steps: values that break one rule, and values that break none.
use crate::tests::{Around, Row, accepts, refuses};
use std::test::Fail;

const ROUTES: Around = Around {
    before: r#"{"routes":"#,
    after: "}",
    path: "/routes",
};

const OF_ROUTES: &[Row<'static>] = &[
    ("null", "", 1),
    ("1", "", 1),
    (r#""a""#, "", 1),
    ("[1]", "/0", 1),
    (r#"{"a":{}}"#, "/a", 1),
    (r#"{"a":null}"#, "/a", 1),
    (r#"{"a":[{"action":{"return":1}},1]}"#, "/a/1", 1),
    (r#"{"":[]}"#, "/", 2),
    (r#"{"a/b":[]}"#, "/a~1b", 2),
    (r#"{"a":[{}]}"#, "/a/0", 3),
];

const ROUTES_VALUES: &[&str] = &[
    "[]",
    "{}",
    r#"{"a":[],"b":[{"action":{"return":1}}]}"#,
    r#"[{"action":{"return":1}}]"#,
];

const STEP: Around = Around {
    before: r#"{"routes":["#,
    after: "]}",
    path: "/routes/0",
};

const OF_STEP: &[Row<'static>] = &[
    ("1", "", 1),
    ("[]", "", 1),
    (r#"{"action":1}"#, "/action", 1),
    (r#"{"action":{"return":1},"match":[]}"#, "/match", 1),
    (r#"{"action":{"return":1},"b":1}"#, "/b", 2),
    (
        r#"{"access_log":{},"action":{"return":1}}"#,
        "/access_log",
        2,
    ),
    (r#"{"action":{"return":1},"rewrite":"/"}"#, "/rewrite", 2),
    (
        r#"{"action":{"return":1},"response_headers":{}}"#,
        "/response_headers",
        2,
    ),
    ("{}", "", 3),
    (r#"{"match":{}}"#, "", 3),
];

const STEP_VALUES: &[&str] = &[
    r#"{"action":{"return":1}}"#,
    r#"{"action":{"return":1},"match":{}}"#,
];

#[test]
fn judges_routes(rt: HostRuntime) -> Result<(), Fail> {
    refuses(&rt, &ROUTES, OF_ROUTES)?;
    accepts(&rt, &ROUTES, ROUTES_VALUES)
}

#[test]
fn judges_steps(rt: HostRuntime) -> Result<(), Fail> {
    refuses(&rt, &STEP, OF_STEP)?;
    accepts(&rt, &STEP, STEP_VALUES)
}
