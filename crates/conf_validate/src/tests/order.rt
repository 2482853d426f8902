//! Documents that break several rules: the first one of the walk is told.
use crate::tests::{Around, Row, accepts, refuses};
use std::test::Fail;

const WHOLE: Around = Around {
    before: "",
    after: "",
    path: "",
};

const OF_ORDER: &[Row<'static>] = &[
    (r#"{"applications":{"a":{}},"foo":1}"#, "/applications/a", 3),
    (r#"{"foo":1,"listeners":{"*:80":{}}}"#, "/foo", 2),
    (
        r#"{"routes":[{"action":{"return":1}},{"action":{}},{}]}"#,
        "/routes/1/action",
        6,
    ),
    (r#"{"routes":[{"match":1}]}"#, "/routes/0", 3),
    (
        r#"{"routes":[{"action":{"foo":1}}]}"#,
        "/routes/0/action",
        6,
    ),
    (
        r#"{"routes":[{"action":{"foo":1,"return":1000}}]}"#,
        "/routes/0/action/foo",
        2,
    ),
    (r#"{"applications":{"":1}}"#, "/applications/", 2),
    (
        r#"{"applications":{"a":{"executable":"none","type":"php"}}}"#,
        "/applications/a/executable",
        8,
    ),
    (
        r#"{"listeners":{"*:80":{"pass":"$none"}}}"#,
        "/listeners/*:80/pass",
        5,
    ),
    (
        r#"{"listeners":{"*:80":{"pass":"routes"}},"routes":1}"#,
        "/listeners/*:80/pass",
        7,
    ),
    (
        r#"{"listeners":{"*:80":{"pass":"routes"}},"routes":{}}"#,
        "/listeners/*:80/pass",
        7,
    ),
    (
        r#"{"listeners":{"*:80":{"pass":"routes/"}},"routes":{"":[]}}"#,
        "/routes/",
        2,
    ),
    (
        r#"{"listeners":{"*:80":{"pass":"applications/"}},"applications":{"":1}}"#,
        "/applications/",
        2,
    ),
];

const VALID: &[&str] = &[
    "{}",
    r#"{"applications":{"h":{"executable":"hello","type":"external"}},"listeners":{"*:8080":{"pass":"routes"}},"routes":[{"action":{"pass":"applications/h"}}]}"#,
    r#"{"applications":{"api":{"executable":"count","limits":{"timeout":30},"type":"external"},"site":{"executable":"hello","type":"external"}},"listeners":{"*:8080":{"pass":"routes"},"127.0.0.1:8081":{"pass":"applications/site"}},"routes":[{"action":{"pass":"applications/api"},"match":{"host":["localhost","*.example.com"],"method":["POST","PUT"],"source":"127.0.0.0/8"}},{"action":{"location":"/","return":301},"match":{"uri":["/old","/old/*"]}},{"action":{"pass":"applications/site"}}],"settings":{"http":{"max_body_size":1048576}}}"#,
    r#"{"applications":{"a":{"executable":"hello","limits":{"timeout":1},"type":"external"},"b":{"executable":"hello","limits":{"timeout":86400},"type":"external"},"c":{"executable":"hello","limits":{},"type":"external"}}}"#,
    r#"{"settings":{"http":{"max_body_size":0}}}"#,
    r#"{"settings":{"http":{"max_body_size":10000000}}}"#,
    r#"{"listeners":{"*:1":{"pass":"routes/a"},"0.0.0.0:65535":{"pass":"routes/$uri"},"255.255.255.255:80":{"pass":"applications/$arg_a"}},"routes":{"a":[{"action":{"return":0}},{"action":{"return":999}}]}}"#,
    r#"{"routes":[{"action":{"pass":"routes","response_headers":{"X-A":"$uri","x-b":null},"rewrite":"/v1$uri"},"match":{"arguments":{"a":"b"},"cookies":[],"destination":["*:1-2","!1.2.3.4/8"],"headers":[{"a":["!b"]},{}],"query":"","scheme":"http"}}]}"#,
    r#"{"routes":[{"action":{"location":"https://$host${request_uri}$dollar$arg_a","return":301}}]}"#,
    r#"{"access_log":{}}"#,
    r#"{"access_log":{"format":"$remote_addr $status $body_bytes_sent $request_line"}}"#,
    r#"{"access_log":{"format":""}}"#,
];

#[test]
fn tells_the_first_broken_rule(rt: HostRuntime) -> Result<(), Fail> {
    refuses(&rt, &WHOLE, OF_ORDER)
}

#[test]
fn accepts_whole_documents(rt: HostRuntime) -> Result<(), Fail> {
    accepts(&rt, &WHOLE, VALID)
}
