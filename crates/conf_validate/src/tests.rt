ghost use Rattle.std.specs.Prelude.{◌≤◌, All, IfOk, length};
ghost use Rattle.conf_tree.specs.Document.{IsDocument};
ghost use Rattle.conf_tree.specs.View.{data_of};

mod actions;
mod applications;
mod goals;
mod listeners;
mod matches;
mod order;
mod routes;

use crate::{Conf, ConfFault, Invalid, first_fault, validate};
use conf_tree::{Tree, read_tree};
use std::alloc::{AllocError, Global};
use std::process::Abort;
use std::test::Fail;
use unit_types::Bytes;

/// What is around a value in a document, and the path of the value.
#[derive(Drop)]
struct Around {
    before: &'static str,
    after: &'static str,
    path: &'static str,
}

/// A value, the path from it to where a rule is broken, and the rule.
type Row<'a> = (&'a str, &'a str, u8);

fn document(alloc: Global, text: &str) -> Result<Tree, Fail>
    ensures { IfOk result (λ tree. IsDocument (data_of tree)) }
{
    match read_tree(alloc, text.as_bytes())? {
        Some(tree) => Ok(tree),
        None => Err("no document")?,
    }
}

fn handlers(alloc: Global) -> Result<[Bytes; 2], AllocError>
    ensures { IfOk result (λ names. All (λ name. length name ≤ 255) names) }
{
    Ok([
        Bytes::copy_of(alloc, b"count")?,
        Bytes::copy_of(alloc, b"hello")?,
    ])
}

fn fault_of(alloc: Global, text: &str) -> Result<Option<Invalid>, Fail> {
    let tree = document(alloc, text)?;
    Ok(first_fault(alloc, &tree, &handlers(alloc)?)?)
}

fn text_of(alloc: Global, around: &Around, value: &str) -> Result<String, AllocError> {
    format!(in alloc; "{}{value}{}", around.before, around.after)
}

/// The first broken rule of each document, and its path, are those of the row.
fn refuses(rt: &(impl Abort + AllocGlobal), around: &Around, rows: &[Row<'_>]) -> Result<(), Fail> {
    for (value, path, rule) in rows {
        let text = text_of(rt.alloc(), around, value)?;
        let wanted = format!(in rt.alloc(); "{}{path}", around.path)?;
        match fault_of(rt.alloc(), text.as_str())? {
            Some(fault) => {
                assert!(rt;
                    fault.path.as_slice() == wanted.as_str().as_bytes(),
                    "another path: {text}"
                );
                assert!(rt; fault.rule == *rule, "another rule: {text}");
            }
            None => assert!(rt; false, "accepted: {text}"),
        }
    }
    Ok(())
}

fn accepts(rt: &(impl Abort + AllocGlobal), around: &Around, values: &[&str]) -> Result<(), Fail> {
    for value in values {
        let text = text_of(rt.alloc(), around, value)?;
        assert!(rt;
            fault_of(rt.alloc(), text.as_str())?.is_none(),
            "refused: {text}"
        );
    }
    Ok(())
}

const FULL: &str =
    r#"{"access_log":{},"applications":{"a":{"executable":"hello","type":"external"},"b":{"executable":"count","limits":{"timeout":30},"type":"external"}},"routes":{"x":[{"action":{"location":"/$uri","return":301}}],"y":[{"action":{"return":404}},{"action":{"pass":"applications/a","response_headers":{"A":"b","c":null},"rewrite":"/v1$uri"}}]},"settings":{"http":{"max_body_size":7}}}"#;

const DEFAULT_FORMAT: &str =
    r#"$remote_addr "$request_line" $status $body_bytes_sent "$header_referer" "$header_user_agent""#;

fn configuration(alloc: Global, text: &str) -> Result<Conf, Fail> {
    let tree = document(alloc, text)?;
    match validate(alloc, &tree, &handlers(alloc)?) {
        Ok(conf) => Ok(conf),
        Err(_) => Err("refused")?,
    }
}

#[test]
fn tells_what_a_document_says(rt: HostRuntime) -> Result<(), Fail> {
    let conf = configuration(rt.alloc(), FULL)?;
    assert!(rt; conf.max_body() == 7);
    let format = conf.log_format().expect(&rt, "a log");
    assert!(rt; format == DEFAULT_FORMAT.as_bytes());
    assert!(rt; conf.location(0).expect(&rt, "a location") == b"/$uri".as_slice());
    assert!(rt; conf.location(1).is_none());
    assert!(rt; conf.location(3).is_none());
    assert!(rt; conf.rewrite(0).is_none());
    assert!(rt; conf.rewrite(2).expect(&rt, "a rewrite") == b"/v1$uri".as_slice());
    assert!(rt; conf.changes(0).is_empty());
    assert!(rt; conf.changes(3).is_empty());
    assert!(rt; conf.changes(2).len() == 2);
    if conf.application_count() == 2 {
        assert!(rt; conf.handler(0) == b"hello".as_slice());
        assert!(rt; conf.handler(1) == b"count".as_slice());
    } else {
        assert!(rt; false, "another number of applications");
    }
    Ok(())
}

const MATCHING: &str =
    r#"{"routes":[{"action":{"return":1},"match":{"headers":[{"X-A":["b","!c"]},{}],"source":["*:80","!1.2.3.4"],"uri":"/a*"}}]}"#;

#[test]
fn parses_patterns_once(rt: HostRuntime) -> Result<(), Fail> {
    let conf = configuration(rt.alloc(), MATCHING)?;
    assert!(rt; conf.steps().len() == 1);
    for step in conf.steps() {
        let asked = &step.conditions;
        assert!(rt; asked.uri.as_ref().expect(&rt, "a uri").as_slice().len() == 1);
        assert!(rt;
            asked
                .source
                .as_ref()
                .expect(&rt, "a source")
                .as_slice()
                .len()
                == 2
        );
        assert!(rt; asked.host.is_none());
        let sets = asked.headers.as_ref().expect(&rt, "headers").as_slice();
        assert!(rt; sets.len() == 2);
        for set in sets {
            for named in set.as_slice() {
                assert!(rt; named.name.as_slice() == b"x-a".as_slice());
                assert!(rt; named.patterns.as_slice().len() == 2);
            }
        }
    }
    Ok(())
}

#[test]
fn has_defaults(rt: HostRuntime) -> Result<(), Fail> {
    let conf = configuration(rt.alloc(), "{}")?;
    assert!(rt; conf.max_body() == 8388608);
    assert!(rt; conf.log_format().is_none());
    assert!(rt; conf.application_count() == 0);
    Ok(())
}

fn refusal(alloc: Global, text: &str) -> Result<Invalid, Fail> {
    let tree = document(alloc, text)?;
    match validate(alloc, &tree, &handlers(alloc)?) {
        Ok(_) => Err("accepted")?,
        Err(ConfFault::Invalid(fault)) => Ok(fault),
        Err(ConfFault::Memory) => Err("no memory")?,
    }
}

#[test]
fn gives_the_fault(rt: HostRuntime) -> Result<(), Fail> {
    let fault = refusal(rt.alloc(), r#"{"foo":1}"#)?;
    assert!(rt; fault.path.as_slice() == b"/foo".as_slice());
    assert!(rt; fault.rule == 2);
    Ok(())
}
