//! The whole and its listeners: values that break one rule, and values that break none.
use crate::tests::{Around, Row, accepts, refuses};
use std::test::Fail;

const WHOLE: Around = Around {
    before: "",
    after: "",
    path: "",
};

const OF_WHOLE: &[Row<'static>] = &[
    ("null", "", 1),
    ("true", "", 1),
    ("1", "", 1),
    (r#""a""#, "", 1),
    ("[]", "", 1),
    (r#"{"foo":1}"#, "/foo", 2),
    (r#"{"~/":1}"#, "/~0~1", 2),
    (r#"{"":1}"#, "/", 2),
    (r#"{"rewrite":"/"}"#, "/rewrite", 2),
];

const WHOLE_VALUES: &[&str] = &["{}"];

const LISTENERS: Around = Around {
    before: r#"{"listeners":"#,
    after: r#","routes":[]}"#,
    path: "/listeners",
};

const OF_LISTENERS: &[Row<'static>] = &[
    ("null", "", 1),
    ("[]", "", 1),
    (r#"{"*":{"pass":"routes"}}"#, "/*", 2),
    (r#"{"*:":{"pass":"routes"}}"#, "/*:", 2),
    (r#"{"*:0":{"pass":"routes"}}"#, "/*:0", 2),
    (r#"{"*:080":{"pass":"routes"}}"#, "/*:080", 2),
    (r#"{"*:65536":{"pass":"routes"}}"#, "/*:65536", 2),
    (r#"{"*:a":{"pass":"routes"}}"#, "/*:a", 2),
    (r#"{":80":{"pass":"routes"}}"#, "/:80", 2),
    (r#"{"1.2.3:80":{"pass":"routes"}}"#, "/1.2.3:80", 2),
    (r#"{"1.2.3.256:80":{"pass":"routes"}}"#, "/1.2.3.256:80", 2),
    (r#"{"1.2.3.04:80":{"pass":"routes"}}"#, "/1.2.3.04:80", 2),
    (r#"{"1.2.3.4.5:80":{"pass":"routes"}}"#, "/1.2.3.4.5:80", 2),
    (r#"{"1.2..4:80":{"pass":"routes"}}"#, "/1.2..4:80", 2),
    (r#"{"localhost:80":{"pass":"routes"}}"#, "/localhost:80", 2),
    (r#"{"*:80:80":{"pass":"routes"}}"#, "/*:80:80", 2),
    (r#"{"*:80":[]}"#, "/*:80", 1),
];

const LISTENERS_VALUES: &[&str] = &[
    "{}",
    r#"{"*:1":{"pass":"routes"},"0.0.0.0:65535":{"pass":"routes"},"255.255.255.255:80":{"pass":"routes"}}"#,
];

const LISTENER: Around = Around {
    before: r#"{"applications":{"a":{"executable":"hello","type":"external"}},"listeners":{"*:80":"#,
    after: r#"},"routes":[]}"#,
    path: "/listeners/*:80",
};

const OF_LISTENER: &[Row<'static>] = &[
    ("true", "", 1),
    (r#"{"pass":1}"#, "/pass", 1),
    (r#"{"a":1,"pass":"routes"}"#, "/a", 2),
    (r#"{"pass":"routes","return":1}"#, "/return", 2),
    ("{}", "", 3),
    (r#"{"pass":"applications/$none"}"#, "/pass", 5),
    (r#"{"pass":"applications/$"}"#, "/pass", 5),
    (r#"{"pass":"applications/${uri"}"#, "/pass", 5),
    (
        r#"{"pass":"applications/$uri$uri$uri$uri$uri"}"#,
        "/pass",
        5,
    ),
    (r#"{"pass":""}"#, "/pass", 7),
    (r#"{"pass":"a"}"#, "/pass", 7),
    (r#"{"pass":"route"}"#, "/pass", 7),
    (r#"{"pass":"routes/"}"#, "/pass", 7),
    (r#"{"pass":"routes/a"}"#, "/pass", 7),
    (r#"{"pass":"routes/$uri"}"#, "/pass", 7),
    (r#"{"pass":"routes$uri"}"#, "/pass", 7),
    (r#"{"pass":"applications"}"#, "/pass", 7),
    (r#"{"pass":"applications/"}"#, "/pass", 7),
    (r#"{"pass":"applications/b"}"#, "/pass", 7),
    (r#"{"pass":"application/$uri"}"#, "/pass", 7),
    (r#"{"pass":"$host"}"#, "/pass", 7),
    (r#"{"pass":"${host}/a"}"#, "/pass", 7),
];

const LISTENER_VALUES: &[&str] = &[
    r#"{"pass":"routes"}"#,
    r#"{"pass":"applications/a"}"#,
    r#"{"pass":"applications/$arg_a"}"#,
    r#"{"pass":"applications/$uri$uri$uri$uri"}"#,
];

const NAMED: Around = Around {
    before: r#"{"listeners":{"*:80":"#,
    after: r#"},"routes":{"a":[]}}"#,
    path: "/listeners/*:80",
};

const OF_NAMED: &[Row<'static>] = &[
    (r#"{"pass":"routes"}"#, "/pass", 7),
    (r#"{"pass":"routes/"}"#, "/pass", 7),
    (r#"{"pass":"routes/b"}"#, "/pass", 7),
    (r#"{"pass":"routes$uri"}"#, "/pass", 7),
];

const NAMED_VALUES: &[&str] = &[
    r#"{"pass":"routes/a"}"#,
    r#"{"pass":"routes/$uri"}"#,
    r#"{"pass":"routes/a${uri}"}"#,
];

const UNROUTED: Around = Around {
    before: r#"{"listeners":{"*:80":"#,
    after: "}}",
    path: "/listeners/*:80",
};

const OF_UNROUTED: &[Row<'static>] = &[
    (r#"{"pass":"routes"}"#, "/pass", 7),
    (r#"{"pass":"routes/a"}"#, "/pass", 7),
    (r#"{"pass":"routes/$uri"}"#, "/pass", 7),
    (r#"{"pass":"applications/a"}"#, "/pass", 7),
];

#[test]
fn judges_the_whole(rt: HostRuntime) -> Result<(), Fail> {
    refuses(&rt, &WHOLE, OF_WHOLE)?;
    accepts(&rt, &WHOLE, WHOLE_VALUES)
}

#[test]
fn judges_listeners(rt: HostRuntime) -> Result<(), Fail> {
    refuses(&rt, &LISTENERS, OF_LISTENERS)?;
    accepts(&rt, &LISTENERS, LISTENERS_VALUES)?;
    refuses(&rt, &LISTENER, OF_LISTENER)?;
    accepts(&rt, &LISTENER, LISTENER_VALUES)
}

#[test]
fn judges_passes_to_named_routes(rt: HostRuntime) -> Result<(), Fail> {
    refuses(&rt, &NAMED, OF_NAMED)?;
    accepts(&rt, &NAMED, NAMED_VALUES)
}

#[test]
fn judges_passes_to_absent_routes(rt: HostRuntime) -> Result<(), Fail> {
    refuses(&rt, &UNROUTED, OF_UNROUTED)
}
